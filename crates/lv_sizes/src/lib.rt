//! What is counted of items: the turns of their loops, and the nodes of their expressions and statements, each as often as it stands there.
#![tactic(auto)]

mod error;
mod exprs;
mod heads;
mod items;
mod lists;
mod size;
mod stmts;
mod targets;

pub use error::SizeError;
pub use items::{header_nodes, item_size};
pub use size::Size;
