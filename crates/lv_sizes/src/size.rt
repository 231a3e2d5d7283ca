/// Turns of loops, and nodes of expressions and statements.
#[derive(Clone, Copy, Debug, PartialEq, Eq)]
pub struct Size {
    pub turns: u64,
    pub nodes: u64,
}
