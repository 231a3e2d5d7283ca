ghost use Rattle.std.specs.Prelude.{◌≡◌, ◌≤◌, ◌<◌, ◌^◌, ◌/◌, ◌%◌, Bool};
ghost use Rattle.lv_source.specs.Values.{quotient, remainder};
ghost use Rattle.lv_const.specs.Signs.{magnitude, is_negative, with_sign, differ};
ghost use Rattle.lv_values.specs.Worlds.{IsKnown, width_of};
ghost use Rattle.lv_lower_exprs.specs.Divided.{known_of};

use lv_bits::{Op, Word, unary};
use lv_values::Value;

/// A word by its sign and its magnitude.
#[derive(Clone, Copy)]
struct Signed {
    negative: bool,
    magnitude: u128,
}

fn signed_of(signed: bool, word: Word) -> Signed
    ensures negative { result.negative ≡ is_negative signed word.width word.value }
    ensures magnitude { result.magnitude ≡ magnitude signed word.width word.value }
{
    let half = 1u128 << (word.width() - 1);
    if signed && word.value() >= half {
        return Signed {
            negative: true,
            magnitude: (half - 1) - (word.value() - half) + 1,
        };
    }
    Signed {
        negative: false,
        magnitude: word.value(),
    }
}

fn differ(a: bool, b: bool) -> bool
    ensures { result ≡ differ a b }
{
    a != b
}

fn word_of(negative: bool, width: u32, value: u128) -> Word
    requires some { 1 ≤ width }
    requires most { width ≤ 128 }
    requires fits { value < 2 ^ width }
    ensures { result ≡ record { width = width; value = with_sign negative width value } }
{
    let word = Word::new(width, value);
    if negative { unary(Op::Neg, word) } else { word }
}

#[tactic(auto, using(lv_const::proofs::Division::quotient_is))]
/// The quotient of known values, rounded towards 0; that by 0 is 0.
pub(crate) fn quotient(signed: bool, p: Value, q: Value) -> Value
    requires p_known { IsKnown p }
    requires q_known { IsKnown q }
    requires same { width_of p ≡ width_of q }
    ensures fits { known_of result < 2 ^ width_of result }
    ensures is { result ≡ Value.Known (record { width = width_of p; value = quotient signed (width_of p) (known_of p) (known_of q) }) }
{
    match p {
        Value::Known(x) => {
            match q {
                Value::Known(y) => {
                    if y.value() == 0 {
                        return Value::Known(Word::new(x.width(), 0));
                    }
                    let a = signed_of(signed, x);
                    let b = signed_of(signed, y);
                    let number = a.magnitude / b.magnitude;
                    let negative = differ(a.negative, b.negative);
                    let word = word_of(negative, x.width(), number);
                    let _ = word.value();
                    Value::Known(word)
                }
                Value::Node(_, _) => unreachable!(),
            }
        }
        Value::Node(_, _) => unreachable!(),
    }
}

#[tactic(auto, using(lv_const::proofs::Division::remainder_is))]
/// The remainder of known values, with the sign of the left one; that by 0 is 0.
pub(crate) fn remainder(signed: bool, p: Value, q: Value) -> Value
    requires p_known { IsKnown p }
    requires q_known { IsKnown q }
    requires same { width_of p ≡ width_of q }
    ensures fits { known_of result < 2 ^ width_of result }
    ensures is { result ≡ Value.Known (record { width = width_of p; value = remainder signed (width_of p) (known_of p) (known_of q) }) }
{
    match p {
        Value::Known(x) => {
            match q {
                Value::Known(y) => {
                    if y.value() == 0 {
                        return Value::Known(Word::new(x.width(), 0));
                    }
                    let a = signed_of(signed, x);
                    let b = signed_of(signed, y);
                    let number = a.magnitude % b.magnitude;
                    let word = word_of(a.negative, x.width(), number);
                    let _ = word.value();
                    Value::Known(word)
                }
                Value::Node(_, _) => unreachable!(),
            }
        }
        Value::Node(_, _) => unreachable!(),
    }
}
