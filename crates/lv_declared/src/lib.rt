//! The declarations of a module or of a generate block, one by one in the order of the text, and its items.
#![tactic(auto)]

mod add;
mod declaration;
mod labels;
mod listed;

pub use declaration::{Declaration, Thing};
pub use listed::{Counted, Listed, list_items, list_module};
