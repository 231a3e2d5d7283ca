/// Why an expression has no width or no value, with a place.
#[derive(Clone, Copy, Debug, PartialEq, Eq)]
pub enum ConstError {
    /// A name that stands for no constant.
    NoValue(u64),
    /// A division by 0.
    ZeroDivisor(u64),
    /// A width, a literal, a select or a replication out of range.
    Range(u64),
}
