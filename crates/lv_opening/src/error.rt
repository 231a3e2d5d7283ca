use lv_const::ConstError;
use lv_faults::Fault;

/// Why a scope is not opened.
#[derive(Clone, Copy, Debug, PartialEq, Eq)]
pub enum OpeningError {
    /// A name that is declared twice, or a port without its direction.
    Fault(Fault),
    /// A fault of a declaration where it stands.
    Own(ConstError),
    /// A fault of a value that an instance gives a parameter.
    Given(ConstError),
    NoMemory,
}
