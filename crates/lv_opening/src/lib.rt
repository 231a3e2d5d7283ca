//! A scope with its names: its declarations are read among the constants before them, and what they are is kept.
#![tactic(auto)]

mod error;
mod laws;
mod opened;
mod opening;

pub use error::OpeningError;
pub use laws::values_are_prefixes;
pub use opened::Opened;
pub use opening::open_scope;
