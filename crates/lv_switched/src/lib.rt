//! The product of a task with a switch for each candidate.
#![tactic(auto)]

mod guards;
mod opening;
mod product;
mod queries;

pub use product::{SwitchedProduct, switched};
