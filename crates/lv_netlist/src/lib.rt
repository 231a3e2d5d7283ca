//! A typed bit-vector graph: nodes, named inputs and named registers.
#![tactic(auto)]

mod builder;
mod graph;
mod node;

pub use builder::Builder;
pub use graph::{Graph, Inputs};
pub use node::Node;
