//! Values over a graph: known words and nodes, what operators give of them, parts of words, and choices by an index.
#![tactic(auto)]

mod index;
mod select;
mod value;
mod window;

pub use index::{Choices, item, lowered, number_of, pick};
pub use select::{read, written, zeros};
pub use value::{Value, add, binary_value, choose, cut, extend, join, node, unary_value};
pub use window::{Number, Window, window_of};
