//! What the scopes of a source are made of: the values of bounds and parameters, parameters, the turns of loops, and names and modules by number.
#![tactic(auto)]

mod bounds;
mod modules;
mod number;
mod parameter;
mod params;
mod setting;
mod table;
mod turns;

pub use bounds::range_of;
pub use modules::{Modules, ModulesError};
pub use number::{Number, number_of};
pub use parameter::parameter_of;
pub use params::set_params;
pub use setting::{ParameterError, set_given, set_own};
pub use table::NameTable;
pub use turns::{TurnsError, set_index, turns_of};
