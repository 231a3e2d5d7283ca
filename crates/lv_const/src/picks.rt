ghost use Rattle.std.specs.Prelude.{◌≡◌, ◌≤◌, ◌<◌, ◌^◌, map, min, reverse, IfOk};
ghost use Rattle.std.specs.List.{range_with_len};
ghost use Rattle.lv_source.specs.NodeRules.{is_in_order};
ghost use Rattle.lv_source.specs.Places.{read_bits};
ghost use Rattle.lv_const.specs.Constants.{bounds_of};
ghost use Rattle.lv_const.specs.Picks.{bit_own, part_bits, run_bits, part_own, run_own, whole_own, bit_full, part_full, up_full, down_full, whole_full, is_place, number_at, nearby, place_bit, near_place, near_run, IsSized};

use crate::constant::Const;
use crate::error::ConstError;
use crate::full::Full;
use crate::own::{Own, is_count, is_width};
use crate::signs::{is_negative, magnitude};
use lv_bits::Word;

pub fn whole_own(constant: Const) -> Own
    ensures is { result ≡ whole_own constant }
    ensures sized { IsSized constant }
{
    Own {
        width: constant.word.width(),
        signed: constant.signed,
    }
}

pub fn bit_own(index: Result<Own, ConstError>) -> Result<Own, ConstError>
    ensures { result ≡ bit_own index }
{
    let _ = index?;
    Ok(Own {
        width: 1,
        signed: false,
    })
}

/// Whether it can be a bound of a part select.
fn is_place(bound: Full) -> bool
    ensures { result ≡ is_place bound }
{
    bound.word.value() <= 65535 && !is_negative(bound.signed, bound.word)
}

fn is_in_order(constant: &Const, from: u128, to: u128) -> bool
    ensures { result ≡ is_in_order (bounds_of constant.now) from to }
{
    if constant.left < constant.right {
        from <= to
    } else {
        to <= from
    }
}

/// How many bits a part select takes.
fn part_bits(constant: &Const, place: u64, from: Full, to: Full) -> Result<u32, ConstError>
    ensures is { result ≡ part_bits (bounds_of constant.now) place from to }
    ensures some { IfOk result (λ n. 1 ≤ n) }
    ensures most { IfOk result (λ n. n ≤ 128) }
    ensures low { IfOk result (λ n. min from.word.value to.word.value ≤ 65535) }
{
    let (left, right) = (from.word.value(), to.word.value());
    if !is_place(from) || !is_place(to) || !is_in_order(constant, left, right) {
        return Err(ConstError::Range(place));
    }
    let count = left.max(right) - left.min(right) + 1;
    if is_width(count) {
        Ok(count as u32)
    } else {
        Err(ConstError::Range(place))
    }
}

/// How many bits a select with this width takes.
fn run_bits(place: u64, width: Full) -> Result<u32, ConstError>
    ensures is { result ≡ run_bits place width }
    ensures some { IfOk result (λ n. 1 ≤ n) }
    ensures most { IfOk result (λ n. n ≤ 128) }
{
    if is_width(width.word.value()) && is_count(width) {
        Ok(width.word.value() as u32)
    } else {
        Err(ConstError::Range(place))
    }
}

pub fn part_own(
    constant: &Const,
    place: u64,
    from: Result<Full, ConstError>,
    to: Result<Full, ConstError>,
) -> Result<Own, ConstError>
    ensures { result ≡ part_own constant.now place from to }
{
    let from = from?;
    let width = part_bits(constant, place, from, to?)?;
    Ok(Own {
        width,
        signed: false,
    })
}

pub fn run_own(
    place: u64,
    from: Result<Own, ConstError>,
    count: Result<Full, ConstError>,
) -> Result<Own, ConstError>
    ensures { result ≡ run_own place from count }
{
    let _ = from?;
    let width = run_bits(place, count?)?;
    Ok(Own {
        width,
        signed: false,
    })
}

/// The number that an index stands for, 2048 higher. One that is far from all bounds comes nearer, and stays outside.
#[tactic(auto, using(crate::proofs::Runs::nearby_rules))]
fn nearby(index: Full) -> u32
    ensures is { result ≡ nearby (number_at index) }
    ensures low { 1048 ≤ result }
    ensures high { result ≤ 72048 }
{
    let size = magnitude(index.signed, index.word);
    if is_negative(index.signed, index.word) {
        2048 - size.min(1000) as u32
    } else {
        size.min(70000) as u32 + 2048
    }
}

/// The bit with this number, or 0 where the constant has none.
fn bit_of(constant: &Const, number: u32) -> u128
    ensures is { result ≡ place_bit constant.now.word.value (near_place (bounds_of constant.now) number) }
    ensures bit { result ≤ 1 }
{
    let low = constant.left.min(constant.right);
    let high = constant.left.max(constant.right);
    if number < low + 2048 || high + 2048 < number {
        return 0;
    }
    let place = if constant.left < constant.right {
        constant.right - (number - 2048)
    } else {
        number - 2048 - constant.right
    };
    constant.word.slice(place, 1).value()
}

/// The bits from a number upward, where the left bound is the greater.
#[tactic(auto, using(crate::proofs::Runs::falling_rules))]
fn falling(constant: &Const, lowest: u32, count: u32) -> u128
    requires most { count ≤ 128 }
    requires high { lowest ≤ 72048 }
    ensures is { result ≡ read_bits constant.now.word.value (map (near_place (bounds_of constant.now)) (range_with_len lowest count)) }
    ensures fits { result < 2 ^ count }
{
    let mut value = 0u128;
    for j in 0..count {
        value = 2 * value + bit_of(constant, lowest + (count - 1 - j));
    }
    value
}

/// The same where the right bound is the greater.
#[tactic(auto, using(crate::proofs::Runs::rising_rules))]
fn rising(constant: &Const, lowest: u32, count: u32) -> u128
    requires most { count ≤ 128 }
    requires high { lowest ≤ 72048 }
    ensures is { result ≡ read_bits constant.now.word.value (reverse (map (near_place (bounds_of constant.now)) (range_with_len lowest count))) }
    ensures fits { result < 2 ^ count }
{
    let mut value = 0u128;
    for j in 0..count {
        value = 2 * value + bit_of(constant, lowest + j);
    }
    value
}

fn run(constant: &Const, lowest: u32, count: u32) -> Full
    requires some { 1 ≤ count }
    requires most { count ≤ 128 }
    requires high { lowest ≤ 72048 }
    ensures { result ≡ near_run constant.now lowest count }
{
    let value = if constant.left < constant.right {
        rising(constant, lowest, count)
    } else {
        falling(constant, lowest, count)
    };
    Full {
        word: Word::new(count, value),
        signed: false,
    }
}

pub fn whole_full(constant: Const) -> Full
    ensures is { result ≡ whole_full constant }
    ensures sized { IsSized constant }
{
    Full {
        word: constant.word,
        signed: constant.signed,
    }
}

#[tactic(auto, using(crate::proofs::Runs::run_rules))]
pub fn bit_full(constant: &Const, index: Result<Full, ConstError>) -> Result<Full, ConstError>
    ensures { result ≡ bit_full constant.now index }
{
    Ok(run(constant, nearby(index?), 1))
}

#[tactic(auto, using(crate::proofs::Runs::run_rules))]
pub fn part_full(
    constant: &Const,
    place: u64,
    from: Result<Full, ConstError>,
    to: Result<Full, ConstError>,
) -> Result<Full, ConstError>
    ensures { result ≡ part_full constant.now place from to }
{
    let from = from?;
    let to = to?;
    let bits = part_bits(constant, place, from, to)?;
    let lowest = from.word.value().min(to.word.value()) as u32 + 2048;
    Ok(run(constant, lowest, bits))
}

#[tactic(auto, using(crate::proofs::Runs::run_rules))]
pub fn up_full(
    constant: &Const,
    place: u64,
    from: Result<Full, ConstError>,
    count: Result<Full, ConstError>,
) -> Result<Full, ConstError>
    ensures { result ≡ up_full constant.now place from count }
{
    let from = from?;
    let bits = run_bits(place, count?)?;
    Ok(run(constant, nearby(from), bits))
}

#[tactic(auto, using(crate::proofs::Runs::run_rules))]
pub fn down_full(
    constant: &Const,
    place: u64,
    from: Result<Full, ConstError>,
    count: Result<Full, ConstError>,
) -> Result<Full, ConstError>
    ensures { result ≡ down_full constant.now place from count }
{
    let from = from?;
    let bits = run_bits(place, count?)?;
    Ok(run(constant, nearby(from) - (bits - 1), bits))
}
