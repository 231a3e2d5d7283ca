use lv_resolve::ResolveError;

/// Why a connection is no part.
#[derive(Clone, Copy, Debug, PartialEq, Eq)]
pub enum PartError {
    /// The place of a connection of an output with an expression that is no target.
    NoTarget(u64),
    /// A fault of a node of the expression.
    Fault(ResolveError),
    NoMemory,
}
