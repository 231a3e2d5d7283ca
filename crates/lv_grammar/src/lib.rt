//! The grammar of the source (IEEE 1364-2005, annex A, in the profile of this program), in `specs/`: tokens with their bytes,
//! a definition for each production, and the languages without limits and within them. Code reads or writes it elsewhere.
#![tactic(auto)]

mod laws;
mod parts;

pub use laws::has_one_tree;
pub use parts::{Head, Span};
