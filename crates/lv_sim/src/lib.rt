//! A cycle simulator of typed graphs: all nodes settle in order, all registers step together.
#![tactic(auto)]

mod node;
mod sim;
mod task;

pub use sim::Sim;
pub use task::SimTask;
