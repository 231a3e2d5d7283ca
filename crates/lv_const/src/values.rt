ghost use Rattle.std.specs.Prelude.{◌≡◌, ◌≤◌, ◌*◌, ◌%◌, ◌^◌, IsFalse, true, IfOk};
ghost use Rattle.lv_bits.specs.Values.{is_apart, unary_of, binary_of};
ghost use Rattle.lv_source.specs.Values.{repeated as repeated_value};
ghost use Rattle.lv_const.specs.Joins.{unary_kept, unary_bit, shifted, logical, arithmetic, compared, divided, remains, chosen, cast_full, joined_full, repeated_full, literal_full, appended, paired};

use crate::error::ConstError;
use crate::full::Full;
use crate::own::{is_count, is_width, literal_own};
use crate::pair::Pair;
use crate::signs::{divide, rest};
use lv_ast::Literal;
use lv_bits::{Op, Word, binary, unary};

fn unary_word(op: Op, a: Word) -> Word
    ensures { result ≡ unary_of op a }
{
    if op.is_unary() {
        unary(op, a)
    } else if op.keeps_width() {
        Word::new(a.width(), 0)
    } else {
        Word::new(1, 0)
    }
}

fn binary_word(op: Op, signed: bool, a: Word, b: Word) -> Word
    requires { IsFalse (is_apart op) → a.width ≡ b.width }
    ensures { result ≡ binary_of op signed a b }
{
    if !op.is_unary() {
        binary(op, a, b, signed)
    } else if op.keeps_width() {
        Word::new(a.width(), 0)
    } else {
        Word::new(1, 0)
    }
}

pub fn unary_kept(op: Op, a: Result<Full, ConstError>) -> Result<Full, ConstError>
    ensures { result ≡ unary_kept op a }
{
    let a = a?;
    Ok(Full {
        word: unary_word(op, a.word),
        signed: a.signed,
    })
}

pub fn unary_bit(op: Op, a: Result<Full, ConstError>) -> Result<Full, ConstError>
    ensures { result ≡ unary_bit op a }
{
    let a = a?;
    Ok(Full {
        word: unary_word(op, a.word),
        signed: false,
    })
}

pub fn shifted(
    op: Op,
    a: Result<Full, ConstError>,
    b: Result<Full, ConstError>,
) -> Result<Full, ConstError>
    requires { is_apart op ≡ true }
    ensures { result ≡ shifted op a b }
{
    let a = a?;
    let b = b?;
    Ok(Full {
        word: binary_word(op, a.signed, a.word, b.word),
        signed: a.signed,
    })
}

pub fn logical(
    op: Op,
    a: Result<Full, ConstError>,
    b: Result<Full, ConstError>,
) -> Result<Full, ConstError>
    requires { is_apart op ≡ true }
    ensures { result ≡ logical op a b }
{
    let a = a?;
    let b = b?;
    Ok(Full {
        word: binary_word(op, false, a.word, b.word),
        signed: false,
    })
}

pub fn paired(
    left: Result<Full, ConstError>,
    right: Result<Full, ConstError>,
) -> Result<Pair, ConstError>
    ensures { result ≡ paired left right }
{
    let left = left?;
    let right = right?;
    Ok(Pair {
        left: left.word,
        right: right.word,
        signed: left.signed,
    })
}

pub fn arithmetic(op: Op, pair: Result<Pair, ConstError>) -> Result<Full, ConstError>
    requires { IfOk pair (λ p. p.left.width ≡ p.right.width) }
    ensures { result ≡ arithmetic op pair }
{
    let pair = pair?;
    Ok(Full {
        word: binary_word(op, pair.signed, pair.left, pair.right),
        signed: pair.signed,
    })
}

pub fn compared(op: Op, pair: Result<Pair, ConstError>) -> Result<Full, ConstError>
    requires { IfOk pair (λ p. p.left.width ≡ p.right.width) }
    ensures { result ≡ compared op pair }
{
    let pair = pair?;
    Ok(Full {
        word: binary_word(op, pair.signed, pair.left, pair.right),
        signed: false,
    })
}

pub fn divided(place: u64, pair: Result<Pair, ConstError>) -> Result<Full, ConstError>
    requires { IfOk pair (λ p. p.left.width ≡ p.right.width) }
    ensures { result ≡ divided place pair }
{
    let pair = pair?;
    if pair.right.value() == 0 {
        Err(ConstError::ZeroDivisor(place))
    } else {
        Ok(Full {
            word: divide(pair.signed, pair.left, pair.right),
            signed: pair.signed,
        })
    }
}

pub fn remains(place: u64, pair: Result<Pair, ConstError>) -> Result<Full, ConstError>
    requires { IfOk pair (λ p. p.left.width ≡ p.right.width) }
    ensures { result ≡ remains place pair }
{
    let pair = pair?;
    if pair.right.value() == 0 {
        Err(ConstError::ZeroDivisor(place))
    } else {
        Ok(Full {
            word: rest(pair.signed, pair.left, pair.right),
            signed: pair.signed,
        })
    }
}

pub fn chosen(
    test: Result<Full, ConstError>,
    pair: Result<Pair, ConstError>,
) -> Result<Full, ConstError>
    ensures { result ≡ chosen test pair }
{
    let test = test?;
    let pair = pair?;
    let word = if test.word.value() == 0 {
        pair.right
    } else {
        pair.left
    };
    Ok(Full {
        word,
        signed: pair.signed,
    })
}

pub fn cast_full(signed: bool, a: Result<Full, ConstError>) -> Result<Full, ConstError>
    ensures { result ≡ cast_full signed a }
{
    let a = a?;
    Ok(Full {
        word: a.word,
        signed,
    })
}

pub fn joined_full(word: Result<Word, ConstError>) -> Result<Full, ConstError>
    ensures { result ≡ joined_full word }
{
    Ok(Full {
        word: word?,
        signed: false,
    })
}

/// So many copies of a word.
#[tactic(auto, using(crate::proofs::Plains::copies_rules))]
fn copies(count: u32, word: Word) -> Word
    requires some { 1 ≤ count }
    requires most { count * word.width ≤ 128 }
    ensures { result ≡ record { width = count * word.width; value = repeated_value count word.width word.value } }
{
    let mut all = word;
    for _ in 1..count {
        all = all.concat(word);
    }
    all
}

pub fn repeated_full(
    place: u64,
    count: Result<Full, ConstError>,
    word: Result<Word, ConstError>,
) -> Result<Full, ConstError>
    ensures { result ≡ repeated_full place count word }
{
    let count = count?;
    let word = word?;
    if !is_count(count) {
        return Err(ConstError::Range(place));
    }
    let number = count.word.value();
    match number.checked_mul(word.width() as u128) {
        None => Err(ConstError::Range(place)),
        Some(width) => {
            if is_width(width) {
                Ok(Full {
                    word: copies(number as u32, word),
                    signed: false,
                })
            } else {
                Err(ConstError::Range(place))
            }
        }
    }
}

/// The low bits.
fn cut(width: u32, value: u128) -> Word
    requires some { 1 ≤ width }
    requires most { width ≤ 128 }
    ensures { result ≡ record { width = width; value = value % 2 ^ width } }
{
    if width == 128 {
        Word::new(width, value)
    } else {
        Word::new(width, value % (1u128 << width))
    }
}

pub fn literal_full(literal: &Literal, joined: bool) -> Result<Full, ConstError>
    ensures { result ≡ literal_full literal.now joined }
{
    let own = literal_own(literal, joined)?;
    Ok(Full {
        word: cut(own.width, literal.value),
        signed: own.signed,
    })
}

/// One more operand behind the words so far.
pub fn appended(
    place: u64,
    joint: Option<Word>,
    operand: Result<Full, ConstError>,
) -> Result<Word, ConstError>
    ensures { result ≡ appended place joint operand }
{
    let low = operand?.word;
    match joint {
        None => Ok(low),
        Some(high) => {
            if high.width() + low.width() <= 128 {
                Ok(high.concat(low))
            } else {
                Err(ConstError::Range(place))
            }
        }
    }
}
