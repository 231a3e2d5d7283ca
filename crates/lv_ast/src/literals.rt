ghost use Rattle.std.specs.Prelude.{◌≡◌};
ghost use Rattle.lv_ast.specs.Literals.{part_digit};
ghost use Rattle.lv_ast.specs.Tokens as tokens;

use crate::bytes::{base_of, digit_value, is_blank, is_free, is_sign};

/// Which bits of the digits of a literal are meant.
#[derive(Clone, Copy)]
pub enum DigitPart {
    Value,
    /// The bits that the digits `z` and `?` leave open.
    Free,
}

/// What a digit counts in that part of its literal.
pub fn part_digit(part: DigitPart, base: u8, byte: u8) -> u8
    ensures { result ≡ part_digit part base byte }
{
    match part {
        DigitPart::Value => { if is_free(byte) { 0 } else { digit_value(byte) } }
        DigitPart::Free => {
            if is_free(byte) {
                base.saturating_sub(1)
            } else {
                0
            }
        }
    }
}

fn tail(bytes: &[u8]) -> &[u8]
    ensures { result.now ≡ tokens.tail bytes.now }
{
    match bytes {
        [_, rest @ ..] => rest,
        _ => bytes,
    }
}

#[tactic(auto, unfolding(crate::specs::Tokens::without_sign))]
fn without_sign(bytes: &[u8]) -> &[u8]
    ensures { result.now ≡ tokens.without_sign bytes.now }
{
    match bytes {
        [first, rest @ ..] if is_sign(*first) => rest,
        _ => bytes,
    }
}

fn without_blanks(bytes: &[u8]) -> &[u8]
    ensures { result.now ≡ tokens.without_blanks bytes.now }
{
    for (i, byte) in bytes.iter().enumerate() {
        if !is_blank(*byte) {
            return &bytes[i..];
        }
    }
    &[]
}

/// Whether `s` stands in a based token.
#[tactic(auto, unfolding(crate::specs::Tokens::based_signed))]
pub fn based_signed(bytes: &[u8]) -> bool
    ensures { result ≡ tokens.based_signed bytes.now }
{
    match bytes {
        [_, second, ..] => is_sign(*second),
        _ => false,
    }
}

/// The base of a based token.
#[tactic(auto, unfolding(crate::specs::Tokens::based_base))]
pub fn based_base(bytes: &[u8]) -> u8
    ensures { result ≡ tokens.based_base bytes.now }
{
    match without_sign(tail(bytes)) {
        [letter, ..] => base_of(*letter),
        _ => 0,
    }
}

/// The digits of a based token, behind its base and the white space there.
#[tactic(auto, unfolding(crate::specs::Tokens::based_digits))]
pub fn based_digits(bytes: &[u8]) -> &[u8]
    ensures { result.now ≡ tokens.based_digits bytes.now }
{
    without_blanks(tail(without_sign(tail(bytes))))
}
