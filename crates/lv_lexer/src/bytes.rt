#![tactic(auto, unfolding(lv_ast::specs::Tokens::is_blank, lv_ast::specs::Tokens::is_digit, lv_ast::specs::Tokens::is_number_byte, lv_ast::specs::Tokens::is_printed, lv_ast::specs::Tokens::is_free, lv_ast::specs::Tokens::is_sign, lv_ast::specs::Tokens::digit_value, lv_ast::specs::Tokens::base_of, lv_ast::specs::Tokens::is_base_digit, lv_ast::specs::Tokens::is_base_byte))]

ghost use Rattle.std.specs.Prelude.{◌≡◌, ◌≤◌, [], ◌∷◌, length, take, drop, MatchOption};
ghost use Rattle.lv_ast.specs.Tokens as tokens;
ghost use Rattle.lv_lexer.specs.Fronts.{begins, belongs, front_length, lead_of};

use lv_ast::{digit_value, is_blank, is_digit, is_free, is_inner};

/// The classes of bytes whose longest front is looked for.
#[derive(Clone, Copy)]
pub enum Class {
    Blank,
    Inner,
    Number,
    Printed,
    Digits(u8),
    Comment,
}

/// What a token is by its first byte.
#[derive(Clone, Copy)]
pub enum Lead {
    Letter,
    Digit,
    Backslash,
    Dollar,
    Accent,
    Apostrophe,
    Newline,
    Other,
}

pub fn lead_of(byte: u8) -> Lead
    ensures { result ≡ lead_of byte }
{
    match byte {
        b'a'..=b'z' | b'A'..=b'Z' | b'_' => Lead::Letter,
        b'0'..=b'9' => Lead::Digit,
        b'\\' => Lead::Backslash,
        b'$' => Lead::Dollar,
        b'`' => Lead::Accent,
        b'\'' => Lead::Apostrophe,
        b'\n' => Lead::Newline,
        _ => Lead::Other,
    }
}

pub fn is_base_digit(base: u8, byte: u8) -> bool
    ensures { result ≡ tokens.is_base_digit base byte }
{
    digit_value(byte) < base || base != 10 && is_free(byte)
}

pub fn is_printed(byte: u8) -> bool
    ensures { result ≡ tokens.is_printed byte }
{
    matches!(byte, 33..=126)
}

fn belongs(class: Class, byte: u8) -> bool
    ensures { result ≡ belongs class byte }
{
    match class {
        Class::Blank => is_blank(byte),
        Class::Inner => is_inner(byte),
        Class::Number => is_digit(byte) || byte == b'_',
        Class::Printed => is_printed(byte),
        Class::Digits(base) => byte == b'_' || is_base_digit(base, byte),
        Class::Comment => byte != b'\n',
    }
}

/// How many bytes at the front are of the class.
#[tactic(auto, using(crate::proofs::Fronts::front_more, crate::proofs::Fronts::front_stop, crate::proofs::Fronts::front_all))]
pub fn front(rest: &[u8], class: Class) -> usize
    ensures value { result ≡ front_length (belongs class) rest.now }
    ensures within { result ≤ length rest.now }
{
    for (i, byte) in rest.iter().enumerate() {
        if !belongs(class, *byte) {
            return i;
        }
    }
    rest.len()
}

/// The first byte and those after it.
pub fn split(rest: &[u8]) -> Option<(u8, &[u8])>
    ensures { MatchOption result (rest.now ≡ []) (λ parts. rest.now ≡ parts.0 ∷ parts.1.now) }
{
    if rest.is_empty() {
        return None;
    }
    Some((rest[0], skip(rest, 1)))
}

/// The bytes from place n on.
pub fn skip(rest: &[u8], n: usize) -> &[u8]
    requires { n ≤ length rest.now }
    ensures { result.now ≡ drop n rest.now }
{
    &rest[n..]
}

/// Whether that byte is the first.
pub fn begins(rest: &[u8], byte: u8) -> bool
    ensures { result ≡ begins byte rest.now }
{
    !rest.is_empty() && rest[0] == byte
}

/// The first n bytes.
pub fn prefix(rest: &[u8], n: usize) -> &[u8]
    requires { n ≤ length rest.now }
    ensures { result.now ≡ take n rest.now }
{
    &rest[..n]
}
