//! What stands below a scope: its instances, and the turns of its generate loops.
#![tactic(auto)]

mod child;
mod instances;
mod turns;

pub use child::{Child, ChildError};
pub use instances::add_instances;
pub use turns::add_turns;
