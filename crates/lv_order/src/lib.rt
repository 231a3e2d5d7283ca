//! Vertices of a graph in an order in which each stands behind all that it has an edge to, or a cycle.
#![tactic(auto)]

mod edges;
mod ring;
mod sorting;
mod walk;

pub use edges::is_graph;
pub use sorting::{Sorting, order};
