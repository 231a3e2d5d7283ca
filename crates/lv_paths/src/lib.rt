//! What the paths through a block of a flat design have in common, and the extents of all parts.
#![tactic(auto)]

mod done;
mod full;
mod judge;
mod look;
mod open;
mod parts;
mod twice;
mod walk;
mod writes;

pub use judge::{Paths, judge_paths};
pub use parts::extents;
pub use twice::names_twice;
