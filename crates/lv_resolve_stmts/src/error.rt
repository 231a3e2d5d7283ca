ghost use Rattle.std.specs.Prelude.{◌≡◌};
ghost use Rattle.lv_resolve_stmts.specs.Statements.{of_node as spec_of_node, of_header as spec_of_header};

use lv_headers::HeaderError;
use lv_resolve::ResolveError;

/// Why a statement is refused, with a place in the text.
#[derive(Clone, Copy, Debug, PartialEq, Eq)]
pub enum StmtError {
    /// A name without a declaration that can stand there, or an index of a loop that is none.
    UnknownName(u64),
    /// A constant position that reads something else, or a division that reads a signal.
    NotConstant(u64),
    /// A division by 0.
    ZeroDivisor(u64),
    /// A width, a literal, a select, a replication or a target out of range.
    Range(u64),
    /// A `case` with two defaults.
    Duplicate(u64),
    /// A loop with more than 1,000,000 turns.
    Limit,
    NoMemory,
}

pub fn of_node(error: ResolveError) -> StmtError
    ensures { result ≡ spec_of_node error }
{
    match error {
        ResolveError::UnknownName(at) => StmtError::UnknownName(at),
        ResolveError::NotConstant(at) => StmtError::NotConstant(at),
        ResolveError::ZeroDivisor(at) => StmtError::ZeroDivisor(at),
        ResolveError::Range(at) => StmtError::Range(at),
        ResolveError::NoMemory => StmtError::NoMemory,
    }
}

pub fn of_header(error: HeaderError) -> StmtError
    ensures { result ≡ spec_of_header error }
{
    match error {
        HeaderError::Fault(error) => of_node(error),
        HeaderError::Limit => StmtError::Limit,
    }
}
