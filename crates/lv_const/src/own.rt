ghost use Rattle.std.specs.Prelude.{◌≡◌};
ghost use Rattle.lv_const.specs.Joins.{unary_own, binary_own, greater_own, chosen_own, cast_own, joined_own, repeated_own, literal_own, is_count, of_width};
ghost use Rattle.lv_const.specs.Joins.{greater as joined_greater};
ghost use Rattle.lv_const.specs.Answers.{read_role};
ghost use Rattle.lv_source.specs.NodeRules.{is_width};
ghost use Rattle.lv_source.specs.NodeRules.{is_literal_fault as literal_fault};

use crate::error::ConstError;
use crate::full::Full;
use crate::signs::is_negative;
use lv_ast::Literal;
use lv_bits::Op;

/// The own width and the own type of an expression.
#[derive(Clone, Copy)]
pub struct Own {
    pub width: u32,
    pub signed: bool,
}

pub fn unary_own(op: Op, a: Result<Own, ConstError>) -> Result<Own, ConstError>
    ensures { result ≡ unary_own op a }
{
    let a = a?;
    if op.keeps_width() {
        Ok(a)
    } else {
        Ok(Own {
            width: 1,
            signed: false,
        })
    }
}

fn greater(a: Own, b: Own) -> Own
    ensures { result ≡ joined_greater a b }
{
    Own {
        width: a.width.max(b.width),
        signed: a.signed && b.signed,
    }
}

pub fn binary_own(
    op: Op,
    a: Result<Own, ConstError>,
    b: Result<Own, ConstError>,
) -> Result<Own, ConstError>
    ensures { result ≡ binary_own op a b }
{
    let a = a?;
    let b = b?;
    if !op.keeps_width() {
        Ok(Own {
            width: 1,
            signed: false,
        })
    } else if op.is_apart() {
        Ok(a)
    } else {
        Ok(greater(a, b))
    }
}

pub fn greater_own(
    a: Result<Own, ConstError>,
    b: Result<Own, ConstError>,
) -> Result<Own, ConstError>
    ensures { result ≡ greater_own a b }
{
    let a = a?;
    let b = b?;
    Ok(greater(a, b))
}

pub fn chosen_own(
    c: Result<Own, ConstError>,
    a: Result<Own, ConstError>,
    b: Result<Own, ConstError>,
) -> Result<Own, ConstError>
    ensures { result ≡ chosen_own c a b }
{
    let _ = c?;
    greater_own(a, b)
}

pub fn cast_own(signed: bool, a: Result<Own, ConstError>) -> Result<Own, ConstError>
    ensures { result ≡ cast_own signed a }
{
    let a = a?;
    Ok(Own {
        width: a.width,
        signed,
    })
}

pub fn is_width(width: u128) -> bool
    ensures { result ≡ is_width width }
{
    1 <= width && width <= 128
}

fn of_width(place: u64, width: u128) -> Result<Own, ConstError>
    ensures { result ≡ of_width place width }
{
    if is_width(width) {
        Ok(Own {
            width: width as u32,
            signed: false,
        })
    } else {
        Err(ConstError::Range(place))
    }
}

pub fn joined_own(place: u64, total: Result<u128, ConstError>) -> Result<Own, ConstError>
    ensures { result ≡ joined_own place total }
{
    of_width(place, total?)
}

/// Whether it is a number of copies or bits: above 0.
pub fn is_count(count: Full) -> bool
    ensures { result ≡ is_count count }
{
    0 < count.word.value() && !is_negative(count.signed, count.word)
}

pub fn repeated_own(
    place: u64,
    count: Result<Full, ConstError>,
    total: Result<u128, ConstError>,
) -> Result<Own, ConstError>
    ensures { result ≡ repeated_own place count total }
{
    let count = count?;
    let total = total?;
    if !is_count(count) {
        return Err(ConstError::Range(place));
    }
    match count.word.value().checked_mul(total) {
        None => Err(ConstError::Range(place)),
        Some(width) => of_width(place, width),
    }
}

fn is_literal_fault(literal: &Literal, joined: bool) -> bool
    ensures { result ≡ literal_fault (read_role joined) literal.now }
{
    match literal.size {
        None => joined || literal.value >= 1u128 << 32,
        Some(size) => !is_width(size),
    }
}

pub fn literal_own(literal: &Literal, joined: bool) -> Result<Own, ConstError>
    ensures { result ≡ literal_own literal.now joined }
{
    let width = match literal.size {
        None => 32,
        Some(size) => size,
    };
    if is_width(width) && !is_literal_fault(literal, joined) {
        Ok(Own {
            width: width as u32,
            signed: literal.signed,
        })
    } else {
        Err(ConstError::Range(literal.place))
    }
}
