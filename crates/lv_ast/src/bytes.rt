#![tactic(auto, unfolding(crate::specs::Tokens::is_blank, crate::specs::Tokens::is_digit, crate::specs::Tokens::is_free, crate::specs::Tokens::is_sign, crate::specs::Tokens::digit_value, crate::specs::Tokens::base_of))]

ghost use Rattle.std.specs.Prelude.{◌≡◌};
ghost use Rattle.lv_ast.specs.Names as names;
ghost use Rattle.lv_ast.specs.Tokens as tokens;

/// A letter or `_`, with which a simple name begins.
pub fn is_letter(byte: u8) -> bool
    ensures { result ≡ names.is_letter byte }
{
    matches!(byte, b'a'..=b'z' | b'A'..=b'Z' | b'_')
}

/// A byte of a simple name behind its first.
pub fn is_inner(byte: u8) -> bool
    ensures { result ≡ names.is_inner byte }
{
    is_letter(byte) || is_digit(byte) || byte == b'$'
}

pub fn is_digit(byte: u8) -> bool
    ensures { result ≡ tokens.is_digit byte }
{
    matches!(byte, b'0'..=b'9')
}

/// White space but the newline.
pub fn is_blank(byte: u8) -> bool
    ensures { result ≡ tokens.is_blank byte }
{
    matches!(byte, b' ' | b'\t' | 12 | b'\r')
}

/// A digit that stands for free bits.
pub fn is_free(byte: u8) -> bool
    ensures { result ≡ tokens.is_free byte }
{
    matches!(byte, b'?' | b'Z' | b'z')
}

/// The letter of a signed literal.
pub fn is_sign(byte: u8) -> bool
    ensures { result ≡ tokens.is_sign byte }
{
    matches!(byte, b's' | b'S')
}

/// What a digit stands for, and 16 where it is none.
pub fn digit_value(byte: u8) -> u8
    ensures { result ≡ tokens.digit_value byte }
{
    match byte {
        b'0'..=b'9' => byte - b'0',
        b'a'..=b'f' => byte - b'a' + 10,
        b'A'..=b'F' => byte - b'A' + 10,
        _ => 16,
    }
}

/// The base that a letter names, and 0 where it names none.
pub fn base_of(byte: u8) -> u8
    ensures { result ≡ tokens.base_of byte }
{
    match byte {
        b'b' | b'B' => 2,
        b'o' | b'O' => 8,
        b'd' | b'D' => 10,
        b'h' | b'H' => 16,
        _ => 0,
    }
}
