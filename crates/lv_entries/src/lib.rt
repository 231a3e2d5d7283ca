//! The constants of a scope as entries, from which those at each of its places are taken.
#![tactic(auto)]

mod copies;
mod laws;
mod scope;

pub use copies::{constants_of, copy_entries};
pub use laws::{entries_are_declared, entries_before_are_first, values_are_entries};
pub use scope::{add_index, add_parameters, hide};
