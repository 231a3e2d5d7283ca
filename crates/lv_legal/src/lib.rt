//! The rules on the parts of a flat design, all of them: an order of the parts that have no clock, or why there is none.
#![tactic(auto)]

mod judging;
mod rule;
mod spot;

pub use judging::{Refused, check_rules};
pub use rule::Rule;
