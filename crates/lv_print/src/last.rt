/// The last token that was written, as far as what follows it depends on it.
#[derive(Clone, Copy)]
pub enum Last {
    /// None was written.
    Start,
    /// A number, which may be the size of a based token.
    Number,
    /// An escaped name, whose space belongs to it.
    Escaped,
    /// A semicolon or `endmodule`, behind which a line ends.
    Line,
    Other,
}
