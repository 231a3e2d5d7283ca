//! The verdict on the smallest form of design and contract: one module of one-bit registers and inputs, with one clocked block. It
//! goes when whole sources are decided.
#![tactic(auto)]

mod build;
mod formula;
mod judging;
mod next;
mod observed;
mod prepare;
mod problem;
mod queries;
mod signals;
mod splitter;
mod verdict;

pub use judging::{Verdict, judge};
