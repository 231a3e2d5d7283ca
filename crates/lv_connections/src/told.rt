ghost use Rattle.std.specs.Prelude.{◌≡◌};
ghost use Rattle.lv_connections.specs.Joined.{of_link as spec_of_link, of_part as spec_of_part};

use lv_faults::{Fault, ScopeError, of_node};
use lv_links::LinkError;
use lv_sinks::PartError;

/// Why connections have no ports, as a fault of their scope.
pub fn of_link(error: LinkError) -> ScopeError
    ensures { result ≡ spec_of_link error }
{
    match error {
        LinkError::Unlisted(place) => ScopeError::Fault(Fault::Port(place)),
        LinkError::Extra(place) => ScopeError::Fault(Fault::Port(place)),
        LinkError::Twice(place) => ScopeError::Fault(Fault::Port(place)),
        LinkError::NoMemory => ScopeError::NoMemory,
    }
}

/// Why a connection is no part, as a fault of its scope.
pub fn of_part(error: PartError) -> ScopeError
    ensures { result ≡ spec_of_part error }
{
    match error {
        PartError::NoTarget(place) => ScopeError::Fault(Fault::Port(place)),
        PartError::Fault(error) => of_node(error),
        PartError::NoMemory => ScopeError::NoMemory,
    }
}
