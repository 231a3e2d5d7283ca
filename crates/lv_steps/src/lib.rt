//! The steps of a run up to syntax: the contract file, the design files that it lists, their tokens, directives and grammar. Each
//! step passes something on or says why the run ends there.
#![tactic(auto)]

mod design;
mod ended;
mod files;
mod input;
mod laws;

pub use ended::{Ended, Unread};
pub use files::Limits;
pub use input::{Input, read_input};
pub use laws::{steps_are_exact, steps_are_total};
