ghost use Rattle.std.specs.Prelude.{◌≡◌};
ghost use Rattle.lv_ast.specs.Tokens as tokens;
ghost use Rattle.lv_lexer.specs.Fronts.{is_head};

use lv_ast::is_listed;

/// The operators and punctuation marks of the profile.
const MARKS: &[u8] =
    b"( ) [ ] { } , ; : . # @ = ? + - * / % ~ ! & | ^ < > <= >= == != && || << >> <<< >>> ~& ~| ~^ ^~ +: -:";

/// The first bytes of the marks of two and three bytes.
const HEADS: [u8; 10] = *b"<>=!&|~^+-";

pub fn is_mark(bytes: &[u8]) -> bool
    ensures { result ≡ tokens.is_mark bytes.now }
{
    is_listed(MARKS, bytes)
}

/// Whether a mark of more than one byte may begin with this one.
pub fn is_head(byte: u8) -> bool
    ensures { result ≡ is_head byte }
{
    HEADS.iter().any(|head| *head == byte)
}
