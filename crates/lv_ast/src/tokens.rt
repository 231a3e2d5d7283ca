ghost use Rattle.std.specs.Prelude.{◌≡◌, IsTrue};
ghost use Rattle.lv_ast.specs.TokenLists.{are_tokens};

use lv_bits::Text;
use sqlite_items::Items;

/// The kinds of token (IEEE 1364-2005, section 3).
#[derive(Clone, Copy, Debug, PartialEq, Eq)]
pub enum Kind {
    /// A simple name that is no keyword.
    Name,
    /// A backslash and the bytes of a name.
    Escaped,
    /// A keyword.
    Word,
    /// `$` and a simple name.
    System,
    /// A grave accent and a simple name: a directive or the use of a macro.
    Tick,
    /// A decimal digit, then digits and `_`.
    Number,
    /// An apostrophe, the base and its digits.
    Based,
    /// An operator or a punctuation mark.
    Mark,
    /// A newline outside of a block comment.
    Line,
    /// A backslash directly before a newline.
    Join,
}

/// One token: its slice of the text is from `start` to the byte before `end`.
#[derive(Clone, Copy, Debug, PartialEq, Eq)]
pub struct Token {
    pub kind: Kind,
    pub start: u64,
    pub end: u64,
}

/// Tokens over a text. Each is a slice of the text that is one whole token of its kind, and each literal among them
/// has no significant and no written free bit above bit 127.
pub struct Tokens {
    pub list: Items<Token>,
    pub text: Text,
    ghost whole: { IsTrue (are_tokens text list) },
}

impl Drop for Tokens {
    fn drop(self) {
        let Tokens { list, text } = self;
        drop(list);
        drop(text);
    }
}

impl Tokens {
    /// The text that its tokens are slices of.
    pub fn into_text(self) -> Text
        ensures { result ≡ self.text }
    {
        let Tokens { list, text } = self;
        drop(list);
        text
    }
}
