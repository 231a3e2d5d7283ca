//! Which bits of a flat design depend on inputs or registers through parts without a clock, and what has one value where these
//! have. The functions of `laws.rt` do nothing: their contracts are laws.
#![tactic(auto)]

mod laws;
mod marked;
mod sets;
mod signals;
mod spread;

pub use laws::{dependence_is_of_source, independent_values_are_one};
pub use signals::{inputs, registers};
pub use spread::{fanout, is_dependent};
