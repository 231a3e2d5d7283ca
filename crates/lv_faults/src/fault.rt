/// What is told of a scope, with a place in the text.
#[derive(Clone, Copy, Debug, PartialEq, Eq)]
pub enum Fault {
    UnknownModule(u64),
    UnknownName(u64),
    Duplicate(u64),
    NotConstant(u64),
    ZeroDivisor(u64),
    Range(u64),
    Recursion(u64),
    Port(u64),
}

/// Why a scope is refused.
#[derive(Clone, Copy, Debug, PartialEq, Eq)]
pub enum ScopeError {
    Fault(Fault),
    NoMemory,
}
