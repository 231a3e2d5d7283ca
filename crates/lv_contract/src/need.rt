/// What a contract file is read for.
#[derive(Clone, Copy, Debug, PartialEq, Eq)]
pub enum Need {
    Nothing,
    /// The key `certificate` is needed.
    Certificate,
    /// The table `sim` is needed.
    Simulation,
}
