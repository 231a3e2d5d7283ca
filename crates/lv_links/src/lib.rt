//! The connections of an instance with their ports, and the settings of its parameters.
#![tactic(auto)]

mod connect;
mod given;
mod linked;
mod listed;
mod once;

pub use connect::link;
pub use given::givens_of;
pub use linked::{LinkError, Linked};
pub use listed::{list_ports, list_settable};
