ghost use Rattle.std.specs.Prelude.{◌≡◌, ◌+◌, ◌*◌, ◌%◌, ◌^◌};
ghost use Rattle.lv_ast.specs.Literals.{part_digit};
ghost use Rattle.lv_ast.specs.Tokens.{digits_number};
ghost use Rattle.lv_exprs.specs.Literals as literals;

use crate::symbol::{Based, Number};
use lv_ast::{DigitPart, based_base, based_digits, based_signed, is_free, part_digit};

/// The number with one more digit, in 128 bits.
fn with_digit(number: u128, base: u8, digit: u8) -> u128
    ensures { result ≡ (number * base % 2 ^ 128 + digit) % 2 ^ 128 }
{
    number
        .wrapping_mul(u128::from(base))
        .wrapping_add(u128::from(digit))
}

/// What digits make of the number that stands before them, in 128 bits.
fn digits_number(part: DigitPart, base: u8, before: u128, digits: &[u8]) -> u128
    ensures { result ≡ digits_number (part_digit part base) base before digits.now % 2 ^ 128 }
{
    let mut number = before;
    for c in digits {
        if *c != b'_' {
            number = with_digit(number, base, part_digit(part, base, *c));
        }
    }
    number
}

/// Whether the leftmost digit is free.
fn leads_free(digits: &[u8]) -> bool
    ensures { result ≡ literals.leads_free digits.now }
{
    for c in digits {
        if *c != b'_' {
            return is_free(*c);
        }
    }
    false
}

/// The bits above the digits.
fn above(digits: &[u8]) -> u128
    ensures { result ≡ literals.above digits.now }
{
    if leads_free(digits) { u128::MAX } else { 0 }
}

pub fn number_of(place: u64, bytes: &[u8]) -> Number
    ensures { result ≡ literals.number_of place bytes.now }
{
    Number {
        place,
        value: digits_number(DigitPart::Value, 10, 0, bytes),
    }
}

fn based_literal(place: u64, signed: bool, base: u8, digits: &[u8]) -> Based
    ensures { result ≡ literals.based_literal place signed base digits.now }
{
    Based {
        place,
        signed,
        value: digits_number(DigitPart::Value, base, 0, digits),
        wild: digits_number(DigitPart::Free, base, above(digits), digits),
    }
}

pub fn based_of(place: u64, bytes: &[u8]) -> Based
    ensures { result ≡ literals.based_of place bytes.now }
{
    let signed = based_signed(bytes);
    based_literal(place, signed, based_base(bytes), based_digits(bytes))
}
