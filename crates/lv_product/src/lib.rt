//! Two copies of a graph, and what a query asks of them.
#![tactic(auto)]

pub mod goals;
pub mod inputs;
mod marks;
pub mod moments;
mod product;
mod sharing;
mod task;
pub mod trim;
mod windows;

pub use lv_unroll::Port;
pub use marks::{input_nodes, state_nodes};
pub use product::{Product, pair_of};
pub use task::{Candidate, Kept, Pair, Query, Task};
pub use windows::window;
