//! The parts of a flat design that have no clock in an order in which none reads what a later one drives, or a cycle of them.
#![tactic(auto)]

mod drivers;
mod parts;
mod rows;
mod table;
mod tables;

pub use parts::{Plan, schedule};
