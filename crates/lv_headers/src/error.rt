use lv_resolve::ResolveError;

/// Why the turns of a loop are not told.
#[derive(Clone, Copy, Debug, PartialEq, Eq)]
pub enum HeaderError {
    /// A fault of a node of the header or of its index, or want of memory.
    Fault(ResolveError),
    /// There are more turns than are allowed.
    Limit,
}
