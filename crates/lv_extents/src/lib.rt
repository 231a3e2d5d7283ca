//! What the rules on parts need of a flat design: of each part sets of bits as spans, and no trees.
#![tactic(auto)]

mod constant;
mod extent;
mod parts;
mod reads;
mod run;
mod steps;
mod target;

pub use constant::constant_value;
pub use extent::{Aim, Extent, Step, Way};
pub use parts::{block, continuous};
pub use reads::{add_all, add_reads};
pub use target::add_aims;
