//! Expressions of a contract over the signals of a flat design, whose names are paths from the top.
#![tactic(auto)]

mod expr;
mod names;
mod spelling;
mod walk;

pub use expr::resolve;
pub use names::TopNames;
