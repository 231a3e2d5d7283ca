//! The scopes of modules and of turns of loops as those that answers about declarations and names speak of.
#![tactic(auto)]

mod bound;
mod frames;

pub use bound::{modules_are_bound, symbols_are_narrow, turns_are_bound};
pub use frames::{all_of_a_module, all_of_a_turn, modules_are_frames, turns_are_frames};
