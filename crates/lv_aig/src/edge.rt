/// A node, and whether it is negated.
#[derive(Clone, Copy, Debug, PartialEq, Eq, Hash)]
pub struct Edge {
    pub node: u64,
    pub neg: bool,
}

/// The edges that a gate joins.
#[derive(Clone, Copy, Debug, PartialEq, Eq, Hash)]
pub struct Gate {
    pub left: Edge,
    pub right: Edge,
}
