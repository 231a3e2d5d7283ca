/// Why an expression, a target or a statement is refused, with a place in the text.
#[derive(Clone, Copy, Debug, PartialEq, Eq)]
pub enum ResolveError {
    /// A name without a declaration that can stand there.
    UnknownName(u64),
    /// A constant position that reads something else, or a division that reads a signal.
    NotConstant(u64),
    /// A division by 0.
    ZeroDivisor(u64),
    /// A width, a literal, a select or a replication out of range.
    Range(u64),
    NoMemory,
}
