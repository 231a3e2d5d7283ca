ghost use Rattle.std.specs.Prelude.{◌≡◌};
ghost use Rattle.lv_faults.specs.Faults.{of_node as spec_of_node};

use crate::fault::{Fault, ScopeError};
use lv_resolve::ResolveError;

/// A fault of a node, as one of its scope.
pub fn of_node(error: ResolveError) -> ScopeError
    ensures { result ≡ spec_of_node error }
{
    match error {
        ResolveError::UnknownName(place) => ScopeError::Fault(Fault::UnknownName(place)),
        ResolveError::NotConstant(place) => ScopeError::Fault(Fault::NotConstant(place)),
        ResolveError::ZeroDivisor(place) => ScopeError::Fault(Fault::ZeroDivisor(place)),
        ResolveError::Range(place) => ScopeError::Fault(Fault::Range(place)),
        ResolveError::NoMemory => ScopeError::NoMemory,
    }
}
