//! The grammar of the source (IEEE 1364-2005, annex A), read from tokens.
#![tactic(auto)]

mod conns;
mod declarations;
mod exprs;
mod groups;
mod items;
mod lists;
mod modules;
mod statements;
mod targets;
mod tokens;

pub use modules::read_source;
