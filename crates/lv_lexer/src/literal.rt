ghost use Rattle.std.specs.Prelude.{◌≡◌, ◌<◌, ◌+◌, ◌*◌, ◌^◌, SomeIff, nat_lt};
ghost use Rattle.lv_ast.specs.Literals.{part_digit};
ghost use Rattle.lv_ast.specs.Tokens as tokens;
ghost use Rattle.lv_ast.specs.Tokens.{digits_number};
ghost use Rattle.lv_ast.specs.declared.tokens.Kind.TheVariants.{Based};
ghost use Rattle.lv_lexer.specs.Pieces.{with_digit};

use lv_ast::{DigitPart, Kind, based_base, based_digits, part_digit};

fn extended(number: u128, base: u8, digit: u8) -> Option<u128>
    ensures { SomeIff result (number * base + digit < 2 ^ 128) (number * base + digit) }
{
    let higher = number.checked_mul(u128::from(base))?;
    higher.checked_add(u128::from(digit))
}

// The number with one more digit; none where it has a bit above bit 127.
fn with_digit(part: DigitPart, base: u8, number: u128, byte: u8) -> Option<u128>
    ensures value { SomeIff result (with_digit part base number byte < 2 ^ 128) (with_digit part base number byte) }
    ensures small { part_digit part base byte < 256 }
{
    let digit = part_digit(part, base, byte);
    if byte == b'_' {
        Some(number)
    } else {
        extended(number, base, digit)
    }
}

// Whether that part of the digits has no bit above bit 127.
fn part_fits(part: DigitPart, base: u8, digits: &[u8]) -> bool
    ensures { result ≡ nat_lt (digits_number (part_digit part base) base 0 digits.now) (2 ^ 128) }
{
    let mut number: u128 = 0;
    for byte in digits {
        match with_digit(part, base, number, *byte) {
            Some(next) => number = next,
            None => return false,
        }
    }
    true
}

#[tactic(auto, unfolding(lv_ast::specs::Tokens::fits))]
fn based_fits(bytes: &[u8]) -> bool
    ensures { result ≡ tokens.fits Based bytes.now }
{
    let base = based_base(bytes);
    let digits = based_digits(bytes);
    let value = part_fits(DigitPart::Value, base, digits);
    let free = part_fits(DigitPart::Free, base, digits);
    value && free
}

/// Whether a literal has no significant and no written free bit above bit 127.
#[tactic(auto, unfolding(lv_ast::specs::Tokens::fits))]
pub fn fits(kind: Kind, bytes: &[u8]) -> bool
    ensures { result ≡ tokens.fits kind bytes.now }
{
    match kind {
        Kind::Number => part_fits(DigitPart::Value, 10, bytes),
        Kind::Based => based_fits(bytes),
        _ => true,
    }
}
