//! Copies of a graph within another one, cycle by cycle, and nodes that say whether what they show agrees.
#![tactic(auto)]

mod compare;
mod copies;
mod cycles;
mod rows;
mod slots;
mod wires;

pub use compare::{agreement, matching};
pub use copies::{Nodes, at, copy, moved};
pub use cycles::unroll;
pub use rows::{Port, append_row, wide_values};
pub use slots::{Slot, agree, append, same_count, same_numbers};
pub use wires::{add, always, both, chosen, either, equal, negated, wide};
