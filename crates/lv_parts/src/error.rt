ghost use Rattle.std.specs.Prelude.{◌≡◌};
ghost use Rattle.lv_parts.specs.Errors.{of_node as spec_of_node, of_stmt as spec_of_stmt};

use lv_faults::Fault;
use lv_resolve::ResolveError;
use lv_resolve_stmts::StmtError;

/// Why an item has no parts.
#[derive(Clone, Copy, Debug, PartialEq, Eq)]
pub enum PartsError {
    Fault(Fault),
    /// A loop with more than 1,000,000 turns.
    Limit,
    NoMemory,
}

/// A fault of a node.
pub fn of_node(error: ResolveError) -> PartsError
    ensures { result ≡ spec_of_node error }
{
    match error {
        ResolveError::UnknownName(place) => PartsError::Fault(Fault::UnknownName(place)),
        ResolveError::NotConstant(place) => PartsError::Fault(Fault::NotConstant(place)),
        ResolveError::ZeroDivisor(place) => PartsError::Fault(Fault::ZeroDivisor(place)),
        ResolveError::Range(place) => PartsError::Fault(Fault::Range(place)),
        ResolveError::NoMemory => PartsError::NoMemory,
    }
}

/// A fault of a statement.
pub fn of_stmt(error: StmtError) -> PartsError
    ensures { result ≡ spec_of_stmt error }
{
    match error {
        StmtError::UnknownName(place) => PartsError::Fault(Fault::UnknownName(place)),
        StmtError::NotConstant(place) => PartsError::Fault(Fault::NotConstant(place)),
        StmtError::ZeroDivisor(place) => PartsError::Fault(Fault::ZeroDivisor(place)),
        StmtError::Range(place) => PartsError::Fault(Fault::Range(place)),
        StmtError::Duplicate(place) => PartsError::Fault(Fault::Duplicate(place)),
        StmtError::Limit => PartsError::Limit,
        StmtError::NoMemory => PartsError::NoMemory,
    }
}
