ghost use Rattle.std.specs.Prelude.{◌≡◌};
ghost use Rattle.lv_survey.specs.Errors.{spec_told, spec_too_much, spec_of_node};

use lv_children::ChildError;
use lv_faults::{Fault, ScopeError, of_node};
use lv_resolve::ResolveError;
use lv_sizes::SizeError;

/// Why a scope is not surveyed.
#[derive(Clone, Copy, Debug, PartialEq, Eq)]
pub enum SurveyError {
    /// A fault of an item.
    Fault(Fault),
    /// More scopes stand below than may still come.
    Instances,
    /// There are more turns than are left.
    Turns,
    /// There are more nodes than are left.
    Nodes,
    NoMemory,
}

fn node_error(error: ResolveError) -> SurveyError
    ensures { result ≡ spec_of_node error }
{
    match of_node(error) {
        ScopeError::Fault(fault) => SurveyError::Fault(fault),
        ScopeError::NoMemory => SurveyError::NoMemory,
    }
}

/// What is told of the size of an item.
pub(crate) fn too_much(error: SizeError) -> SurveyError
    ensures { result ≡ spec_too_much error }
{
    match error {
        SizeError::Fault(error) => node_error(error),
        SizeError::Turns => SurveyError::Turns,
        SizeError::Nodes => SurveyError::Nodes,
    }
}

/// What is told of the scopes of an item.
pub(crate) fn told(error: ChildError) -> SurveyError
    ensures { result ≡ spec_told error }
{
    match error {
        ChildError::UnknownModule(place) => SurveyError::Fault(Fault::UnknownModule(place)),
        ChildError::Recursion(place) => SurveyError::Fault(Fault::Recursion(place)),
        ChildError::UnknownSetting(place) => SurveyError::Fault(Fault::UnknownName(place)),
        ChildError::Port(place) => SurveyError::Fault(Fault::Port(place)),
        ChildError::Fault(error) => node_error(error),
        ChildError::Limit => SurveyError::Instances,
    }
}
