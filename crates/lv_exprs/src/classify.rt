ghost use Rattle.std.specs.Prelude.{◌≡◌, slice_range};
ghost use Rattle.lv_exprs.specs.Symbols as symbols;

use crate::literal::{based_of, number_of};
use crate::symbol::{Divider, Name, Sign, Symbol};
use lv_ast::{Kind, Token};

fn one_mark(a: u8) -> Symbol
    ensures { result ≡ symbols.one_mark a }
{
    match a {
        b'(' => Symbol::LeftParen,
        b')' => Symbol::RightParen,
        b'[' => Symbol::LeftBracket,
        b']' => Symbol::RightBracket,
        b'{' => Symbol::LeftBrace,
        b'}' => Symbol::RightBrace,
        b',' => Symbol::Comma,
        b':' => Symbol::Divider(Divider::Colon),
        b'.' => Symbol::Dot,
        b'?' => Symbol::Question,
        _ => Symbol::Other,
    }
}

fn one_sign(a: u8) -> Symbol
    ensures { result ≡ symbols.one_sign a }
{
    match a {
        b'+' => Symbol::Sign(Sign::Plus),
        b'-' => Symbol::Sign(Sign::Minus),
        b'*' => Symbol::Sign(Sign::Star),
        b'/' => Symbol::Sign(Sign::Slash),
        b'%' => Symbol::Sign(Sign::Percent),
        b'~' => Symbol::Sign(Sign::Tilde),
        b'!' => Symbol::Sign(Sign::Bang),
        b'&' => Symbol::Sign(Sign::Amp),
        b'|' => Symbol::Sign(Sign::Bar),
        b'^' => Symbol::Sign(Sign::Caret),
        b'<' => Symbol::Sign(Sign::Less),
        b'>' => Symbol::Sign(Sign::Greater),
        _ => one_mark(a),
    }
}

fn two_marks(a: u8, b: u8) -> Symbol
    ensures { result ≡ symbols.two_marks a b }
{
    if a == b'<' && b == b'=' {
        Symbol::Sign(Sign::LessEqual)
    } else if a == b'>' && b == b'=' {
        Symbol::Sign(Sign::GreaterEqual)
    } else if a == b'=' && b == b'=' {
        Symbol::Sign(Sign::EqualEqual)
    } else if a == b'!' && b == b'=' {
        Symbol::Sign(Sign::BangEqual)
    } else if a == b'&' && b == b'&' {
        Symbol::Sign(Sign::AmpAmp)
    } else if a == b'|' && b == b'|' {
        Symbol::Sign(Sign::BarBar)
    } else if a == b'<' && b == b'<' {
        Symbol::Sign(Sign::LessLess)
    } else if a == b'>' && b == b'>' {
        Symbol::Sign(Sign::GreaterGreater)
    } else {
        Symbol::Other
    }
}

fn two_signs(a: u8, b: u8) -> Symbol
    ensures { result ≡ symbols.two_signs a b }
{
    if a == b'~' && b == b'&' {
        Symbol::Sign(Sign::TildeAmp)
    } else if a == b'~' && b == b'|' {
        Symbol::Sign(Sign::TildeBar)
    } else if a == b'~' && b == b'^' {
        Symbol::Sign(Sign::TildeCaret)
    } else if a == b'^' && b == b'~' {
        Symbol::Sign(Sign::CaretTilde)
    } else if a == b'+' && b == b':' {
        Symbol::Divider(Divider::Up)
    } else if a == b'-' && b == b':' {
        Symbol::Divider(Divider::Down)
    } else {
        two_marks(a, b)
    }
}

fn three_signs(a: u8, b: u8, c: u8) -> Symbol
    ensures { result ≡ symbols.three_signs a b c }
{
    if a == b'<' && b == b'<' && c == b'<' {
        Symbol::Sign(Sign::LessLessLess)
    } else if a == b'>' && b == b'>' && c == b'>' {
        Symbol::Sign(Sign::GreaterGreaterGreater)
    } else {
        Symbol::Other
    }
}

fn mark_symbol(bytes: &[u8]) -> Symbol
    ensures { result ≡ symbols.mark_symbol bytes.now }
{
    match bytes {
        [a] => one_sign(*a),
        [a, b] => two_signs(*a, *b),
        [a, b, c] => three_signs(*a, *b, *c),
        _ => Symbol::Other,
    }
}

fn system_symbol(bytes: &[u8]) -> Symbol
    ensures { result ≡ symbols.system_symbol bytes.now }
{
    if bytes == b"$signed".as_slice() {
        Symbol::Cast(true)
    } else if bytes == b"$unsigned".as_slice() {
        Symbol::Cast(false)
    } else {
        Symbol::Other
    }
}

/// The bytes of a token.
fn bytes_between(text: &[u8], start: u64, end: u64) -> &[u8]
    ensures { result.now ≡ slice_range text.now start end }
{
    let end = (end as usize).min(text.len());
    let start = (start as usize).min(end);
    &text[start..end]
}

/// What a token is to an expression.
pub fn symbol(text: &[u8], token: Token) -> Symbol
    ensures { result ≡ symbols.symbol text.now token }
{
    let Token { kind, start, end } = token;
    let bytes = bytes_between(text, start, end);
    match kind {
        Kind::Name => Symbol::Name(Name {
            place: start,
            start,
            end,
        }),
        Kind::Escaped => Symbol::Name(Name {
            place: start,
            start: start.saturating_add(1),
            end,
        }),
        Kind::System => system_symbol(bytes),
        Kind::Number => Symbol::Number(number_of(start, bytes)),
        Kind::Based => Symbol::Based(based_of(start, bytes)),
        Kind::Mark => mark_symbol(bytes),
        _ => Symbol::Other,
    }
}
