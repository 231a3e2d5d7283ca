//! The names at a place of a scope: those that it declares before those around it.
#![tactic(auto)]

mod laws;
mod level;
mod lookup;

pub use laws::{levels_are_kept, places_are_at};
pub use level::{Around, Level};
pub use lookup::Lookup;
