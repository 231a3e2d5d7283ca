use lv_resolve::ResolveError;

/// Why a size is not told.
#[derive(Clone, Copy, Debug, PartialEq, Eq)]
pub enum SizeError {
    /// A fault of the header of a loop, or want of memory.
    Fault(ResolveError),
    /// There are more turns than are allowed.
    Turns,
    /// There are more nodes than are allowed.
    Nodes,
}
