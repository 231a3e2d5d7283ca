//! Whether the declarations of a scope are sound as a whole: names declared twice, ports without a direction or not listed, two ranges.
#![tactic(auto)]

mod again;
mod directions;
mod laws;
mod names;
mod pair;
mod whole;

pub use laws::ports_are_signals;
pub use names::outputs;
pub use whole::whole_fault;
