//! What the items of one scope come to: their sizes against the limits, and what stands below the scope.
#![tactic(auto)]

mod below;
mod counts;
mod error;
mod found;
mod item;
mod kids;
mod laws;
mod walk;

pub use below::Below;
pub use counts::entry_counts;
pub use error::SurveyError;
pub use found::Survey;
pub use laws::counts_are_known;
pub use walk::survey;
