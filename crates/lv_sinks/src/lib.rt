//! Connections as parts: clocks that are handed down, expressions that an output drives, and the assignment that a connection is.
#![tactic(auto)]

mod clock;
mod error;
mod part;
mod port;
mod shape;
mod sink;

pub use clock::{clock_ports, is_clock};
pub use error::PartError;
pub use part::link_part;
pub use port::Port;
pub use sink::resolve_sink;
