//! Sets of bits of numbered signals, as spans: a signal, an element or every one, and a mask.
#![tactic(auto)]

mod sets;
mod span;

pub use sets::BitSet;
pub use span::Span;
