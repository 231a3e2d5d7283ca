//! The canonical text of expressions and of whole sources: one way to write each tree, which reads back to the same tree.
#![tactic(auto)]

mod declarations;
mod expr;
mod items;
mod last;
mod laws;
mod lists;
mod literal;
mod names;
mod paper;
mod print;
mod statements;

pub use laws::{exprs_read_back, sources_read_back};
pub use print::{print_expr, print_source};
