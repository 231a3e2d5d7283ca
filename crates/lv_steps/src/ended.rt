//! Why a run ends at one of its steps.

use lv_bits::Text;
use lv_contract::ContractError;
use lv_exprs::SyntaxError;
use lv_lexer::{DirectiveError, LexError};

/// Why a file isn't read, with its name.
#[derive(Drop)]
pub enum Unread {
    /// No file has the name.
    Missing(Text),
    /// The file is longer than its limit.
    TooLong(Text),
    /// The outside failed.
    Failed(Text),
    NoMemory,
}

/// Why a run ends at a step, in the step's own words.
#[derive(Drop)]
pub enum Ended {
    /// The contract file or a design file isn't read.
    File(Unread),
    /// The contract file holds no contract.
    Contract(ContractError),
    /// The files of the design have so many bytes together, newlines between them included.
    Source(u64),
    /// The text has no token list.
    Tokens(LexError),
    /// The directives leave no tokens.
    Directives(DirectiveError),
    /// The tokens spell no source; with the place of the token that is told.
    Syntax(SyntaxError, u64),
    NoMemory,
}
