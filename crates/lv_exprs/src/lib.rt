//! Expressions (IEEE 1364-2005, section 5), read from tokens.
#![tactic(auto)]

mod build;
mod classify;
mod definite;
mod error;
mod laws;
mod literal;
mod operand;
mod read;
mod stack;
mod steps;
mod symbol;

pub use definite::read_definite;
pub use error::SyntaxError;
pub use laws::{has_one_form, nothing_goes_on};
pub use read::read_expr;
pub use symbol::{Based, Divider, Name, Number, Sign, Symbol};
