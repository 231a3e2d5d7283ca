//! The greatest inductive list of a task, with a certificate; and what a certificate's list is.
#![tactic(auto)]

mod answers;
mod ask;
mod conclude;
mod confirming;
mod dropping;
mod given;
mod judge;
mod laws;
mod learner;
mod moment;
mod rounds;
mod start;

pub use answers::{Confirmed, Learnt, Sets};
pub use confirming::confirm;
pub use laws::{certificates_fit, derivations_can_be_written};
pub use learner::learn;
