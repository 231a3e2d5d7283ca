//! An and-inverter graph.
#![tactic(auto)]

mod edge;
mod graph;

pub use edge::{Edge, Gate};
pub use graph::And;
