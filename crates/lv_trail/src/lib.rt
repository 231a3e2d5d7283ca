//! The literals that are true, and what unit steps make of them.
#![tactic(auto)]

mod arena;
mod lists;
mod search;
mod store;
mod trail;
mod watched;

pub use store::Reached;
pub use trail::Trail;
