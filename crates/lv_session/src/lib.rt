//! One set that is asked again and again, each time with other literals assumed.
#![tactic(auto)]

mod block;
mod fit;
mod keep;
mod row;
mod session;

pub use session::{Session, are_apart};
