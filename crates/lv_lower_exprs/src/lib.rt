//! The meaning of a flat source as a graph.
#![tactic(auto)]

mod divide;
mod expr;
mod reach;
mod sizes;

pub use expr::{number_at, value};
pub use sizes::{count, is_clock, own, signal_of, signal_width};
