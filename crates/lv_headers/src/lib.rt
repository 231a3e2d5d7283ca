//! The headers of loops: their turns at a place, and each fault of a header by its kind and its place.
#![tactic(auto)]

mod error;
mod fault;
mod index;
mod turn;
mod turns;

pub use error::HeaderError;
pub use turn::set_turn;
pub use turns::header;
