//! A flat design as a graph: its inputs and registers, a node for each cell, and the next node of each register.
#![tactic(auto)]

mod begin;
mod clocked;
mod design;
mod lowered;
mod machines;
mod nexts;
mod parts;
mod slot;
mod state;

pub use begin::start;
pub use design::{LowerError, lower};
pub use lowered::{Lowered, carried_table_settles, table_with_nexts_is_lowered};
pub use machines::machines_are_same;
pub use nexts::set_nexts;
pub use parts::carry;
pub use slot::{Kind, Slot, slots};
pub use state::{registers, state_bits};
