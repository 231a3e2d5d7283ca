ghost use Rattle.std.specs.Prelude.{◌≡◌, ◌≤◌, ◌<◌, ◌^◌};
ghost use Rattle.lv_source.specs.Values.{quotient, remainder};
ghost use Rattle.lv_const.specs.Signs.{magnitude, is_negative, with_sign, differ};

use lv_bits::{Op, Word, unary};

/// Whether a word of this type is below 0.
pub fn is_negative(signed: bool, word: Word) -> bool
    ensures { result ≡ is_negative signed word.width word.value }
{
    signed && word.value() >= 1u128 << (word.width() - 1)
}

/// The number of a word, without its sign.
pub fn magnitude(signed: bool, word: Word) -> u128
    ensures { result ≡ magnitude signed word.width word.value }
{
    let half = 1u128 << (word.width() - 1);
    if signed && word.value() >= half {
        (half - 1) - (word.value() - half) + 1
    } else {
        word.value()
    }
}

/// A number of `width` bits with its sign.
fn with_sign(negative: bool, width: u32, value: u128) -> u128
    requires some { 1 ≤ width }
    requires most { width ≤ 128 }
    requires fits { value < 2 ^ width }
    ensures { result ≡ with_sign negative width value }
{
    if negative {
        unary(Op::Neg, Word::new(width, value)).value()
    } else {
        value
    }
}

fn differ(a: bool, b: bool) -> bool
    ensures { result ≡ differ a b }
{
    a != b
}

/// The quotient, rounded towards 0.
#[tactic(auto, using(crate::proofs::Division::quotient_is))]
pub fn divide(signed: bool, left: Word, right: Word) -> Word
    requires same { left.width ≡ right.width }
    requires whole { 1 ≤ right.value }
    ensures { result ≡ record { width = left.width; value = quotient signed left.width left.value right.value } }
{
    let negative = differ(is_negative(signed, left), is_negative(signed, right));
    let number = magnitude(signed, left) / magnitude(signed, right);
    Word::new(left.width(), with_sign(negative, left.width(), number))
}

/// The remainder, with the sign of the left operand.
#[tactic(auto, using(crate::proofs::Division::remainder_is))]
pub fn rest(signed: bool, left: Word, right: Word) -> Word
    requires same { left.width ≡ right.width }
    requires whole { 1 ≤ right.value }
    ensures { result ≡ record { width = left.width; value = remainder signed left.width left.value right.value } }
{
    let negative = is_negative(signed, left);
    let number = magnitude(signed, left) % magnitude(signed, right);
    Word::new(left.width(), with_sign(negative, left.width(), number))
}
