//! What the declarations of one scope make of its names: bounds of signals, and the constants that its parameters become.
#![tactic(auto)]

mod givens;
mod laws;
mod parameter;
mod signal;
mod symbol;
mod symbols;

pub use givens::{Given, Givens};
pub use laws::{modules_are_scopes, turns_are_scopes};
pub use symbol::{Symbol, SymbolError};
pub use symbols::declare;
