//! The operators as circuits over an and-inverter graph.
#![tactic(auto)]

mod gates;
mod product;
mod rows;
mod shifts;
mod words;

pub use gates::{Kind, gate, mux};
pub use rows::{binary, concat, constant, extend, mux_word, slice, unary};
pub use words::{Sum, add, fold, negate, zip};
