//! Targets and statements of a flat source over tables of nodes.
#![tactic(auto)]

mod aims;
mod assigns;
mod blocks;
mod bodies;
mod cases;
mod laws;
mod merge;
mod puts;

pub use assigns::{assign, store};
pub use blocks::execute;
pub use bodies::{clocked, combinational};
pub use laws::writes_leave_bits;
