//! Tokens and directives of the profile of IEEE 1364-2005 that this program reads (sections 3 and 19).
#![tactic(auto)]

mod bytes;
mod error;
mod folds;
mod lexer;
mod literal;
mod macros;
mod output;
mod scan;
mod spans;
mod words;

pub use error::{DirectiveError, LexError};
pub use folds::directives;
pub use lexer::lex;
