use thiserror::Error;

/// Why a text has no token list, or one that is not taken.
#[derive(Clone, Copy, Debug, PartialEq, Eq, Error)]
pub enum LexError {
    /// Neither white space nor a comment nor a token begins at this place.
    #[error("no token begins at byte {0}")]
    BadByte(u64),
    /// The literal that begins at this place has a significant or written free bit above bit 127.
    #[error("the literal at byte {0} has more than 128 bits")]
    BadLiteral(u64),
    /// The block comment that begins at this place never ends.
    #[error("the comment at byte {0} never ends")]
    Unclosed(u64),
    /// The text begins with more tokens than the limit.
    #[error("the text has {0} tokens or more")]
    TooMany(u64),
    #[error("out of memory")]
    NoMemory,
}

/// Why directives are refused. A place is that of the tick of the directive or of the use.
#[derive(Clone, Copy, Debug, PartialEq, Eq, Error)]
pub enum DirectiveError {
    /// A use of a macro that is not defined.
    #[error("the macro at byte {0} is not defined")]
    UnknownMacro(u64),
    /// An `elsif`, `else` or `endif` that fits no open conditional, or a conditional that is open at the text's end.
    #[error("the conditional at byte {0} is not balanced")]
    Unbalanced(u64),
    /// A directive without its name on its line, or a definition that is not taken.
    #[error("the directive at byte {0} is malformed")]
    Malformed(u64),
    /// Uses nested more than 64 deep.
    #[error("uses of macros at byte {0} are nested too deep")]
    Depth(u64),
    /// More tokens given and uses made than the limit.
    #[error("{0} tokens and uses of macros or more")]
    TooMany(u64),
    #[error("out of memory")]
    NoMemory,
}
