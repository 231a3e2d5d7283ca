//! The words of a command line, and what they ask for.
#![tactic(auto)]

mod line;
mod modes;
mod words;

pub use modes::Asked;
pub use words::{Words, asked, no_words};
