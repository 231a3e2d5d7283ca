//! The parts that the connections of one instance are.
#![tactic(auto)]

mod connect;
mod laws;
mod told;
mod whole;

pub use laws::{instance_faults_are_told, ports_are_bound};
pub use whole::instance_parts;
