//! A solver that learns lines until a set is satisfied or refuted, or its budget is spent.
#![tactic(auto)]

mod analyze;
mod heap;
mod marked;
mod minimize;
mod order;
mod resolve;
mod seen;
mod solve_set;

pub use order::Order;
pub use solve_set::{Answer, End, Work, search, solve, solve_counted};
