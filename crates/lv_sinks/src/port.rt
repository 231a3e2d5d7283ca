/// A port of an instance: the number of its signal or clock, and whether it is an output.
#[derive(Clone, Copy, Debug)]
pub struct Port {
    pub signal: u64,
    pub output: bool,
}
