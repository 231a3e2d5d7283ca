ghost use Rattle.std.specs.Prelude.{◌≡◌, ℕ, ◌+◌, ◌<◌, ◌≤◌, ◌^◌, length, slice_set, IfOk, OnOk, IsTrue};
ghost use Rattle.lv_bits.specs.Values.{bit};
ghost use Rattle.lv_netlist.specs.Net.{width_at};
ghost use Rattle.lv_source.specs.Names.{width_of, is_signal_sort};
ghost use Rattle.lv_source.specs.Places.{write_bits};
ghost use Rattle.lv_flat.specs.Signals.{declared, declared_all, signal_at};
ghost use Rattle.lv_flat.specs.Cells.{all_cells};
ghost use Rattle.lv_values.specs.Worlds.{World, IsIn, width_of as wide_of, number, Gives};
ghost use Rattle.lv_lower_exprs.specs.Tables.{IsTable, AreFirsts, value_at};
ghost use Rattle.lv_lower_blocks.specs.Aimed.{IsZero, IsSpot, IsSpotIn, IsAim, AreAims, aim_width, aims_width, bits_at, span_of, spot_number, is_number, put_value, first_number, cell_count, Writes, Puts, spot_width};
ghost use Rattle.lv_lower_blocks.specs.Rewritten.{Rewrites};

use crate::aims::{Aim, Spot, aim_width};
use lv_bits::{NoMemory, Op, Word};
use lv_flat::Signal;
use lv_lower_exprs::{is_clock, number_at, signal_of, signal_width};
use lv_netlist::Builder;
use lv_values::{Choices, Value, binary_value, choose, cut, node, pick, zeros};
use std::alloc::Global;

/// Whether the number of a select is this one.
fn equals(b: &mut Builder, spot: &Spot, n: u64) -> Result<Value, NoMemory>
    requires spot { IsSpotIn b.old spot.now }
    requires straight { spot.now.down ≡ 0 }
    ensures { IfOk result (λ r. Gives b.old b.new r 1 (λ w. bit (is_number (spot_number w spot.now) n))) }
{
    let width = spot.index.width();
    let half = 1u128 << (width - 1);
    let code = u128::from(n);
    if code < half || (!spot.signed && code - half < half) {
        let word = Value::Known(Word::new(width, code));
        let r = binary_value(b, Op::Eq, false, spot.index.same(), word)?;
        return Ok(r);
    }
    Ok(zeros(1))
}

/// Whether the value is known to be 0.
pub(crate) fn is_zero(x: &Value) -> bool
    ensures { IsTrue result → IsZero x.now }
{
    match x {
        Value::Known(word) => word.value() == 0,
        Value::Node(_, _) => false,
    }
}

/// The word of a node with a value written to its bits.
fn rewritten(
    alloc: Global,
    b: &mut Builder,
    signal: &Signal,
    old: u64,
    bits: &Option<Spot>,
    x: Value,
) -> Result<Value, NoMemory>
    requires old_in { old < length b.old.nodes }
    requires same { width_at b.old.nodes old ≡ width_of (declared signal.now) }
    requires bits { IsSpot b.old bits.now }
    requires x_in { IsIn b.old x }
    requires some { 1 ≤ wide_of x }
    requires most { wide_of x ≤ 128 }
    requires width { wide_of x ≡ spot_width (width_of (declared signal.now)) bits.now }
    ensures { IfOk result (λ r. Gives b.old b.new r (width_of (declared signal.now)) (λ w. write_bits (value_at w old) (bits_at (declared signal.now) (span_of w bits.now)) (number w x))) }
{
    let width = signal_width(signal);
    match bits {
        None => Ok(x),
        Some(spot) => {
            let word = Value::Node(old, width);
            let choices = Choices::Write(word, signal.left, signal.right, x);
            let r = pick(alloc, b, &[], &choices, &spot.index, spot.signed, spot.down)?;
            Ok(r)
        }
    }
}

/// The node of a cell with a value written to it, where the aim means the element with this number.
fn element(
    alloc: Global,
    b: &mut Builder,
    signals: &[Signal],
    aim: &Aim,
    old: u64,
    n: u64,
    x: Value,
) -> Result<u64, NoMemory>
    requires aim { IsAim b.old (declared_all signals.now) aim.now }
    requires old_in { old < length b.old.nodes }
    requires same { width_at b.old.nodes old ≡ width_of (signal_at (declared_all signals.now) aim.now.signal) }
    requires x_in { IsIn b.old x }
    requires width { wide_of x ≡ aim_width (declared_all signals.now) aim.now }
    ensures { IfOk result (λ k. Gives b.old b.new (Value.Node k (width_of (signal_at (declared_all signals.now) aim.now.signal))) (width_of (signal_at (declared_all signals.now) aim.now.signal)) (λ w. put_value w (declared_all signals.now) aim.now n (value_at w old) (number w x))) }
{
    let signal = signal_of(signals, aim.signal);
    match &aim.element {
        None => {
            let r = rewritten(alloc, b, signal, old, &aim.bits, x)?;
            let k = node(b, r)?;
            Ok(k)
        }
        Some(spot) => {
            let hit = equals(b, spot, n)?;
            if is_zero(&hit) {
                return Ok(old);
            }
            let width = signal_width(signal);
            let r = rewritten(alloc, b, signal, old, &aim.bits, x)?;
            let y = choose(b, hit, r, Value::Node(old, width))?;
            let k = node(b, y)?;
            Ok(k)
        }
    }
}

/// The number of the first element of a signal, and how many cells it has.
fn elements(signal: &Signal) -> (u64, u64)
    ensures low { result.0 ≡ first_number (declared signal.now).array }
    ensures count { result.1 ≡ cell_count (declared signal.now).array }
    ensures near { result.0 < 2 ^ 32 }
    ensures most { result.1 ≤ 2 ^ 32 }
{
    match signal.array {
        None => (0, 1),
        Some((left, right)) => {
            let low = u64::from(left.min(right));
            let high = u64::from(left.max(right));
            (low, high - low + 1)
        }
    }
}

/// The place behind so many.
fn end_of(table: &[u64], at: u64, count: u64) -> u64
    requires { at + count ≤ length table.now }
    ensures { result ≡ at + count }
{
    at + count
}

fn set(table: &mut [u64], at: u64, k: u64)
    requires { at < length table.old }
    ensures { table.new ≡ slice_set table.old at k }
{
    table[at as usize] = k;
}

/// Writes a value to each cell that an aim may mean.
fn put(
    alloc: Global,
    b: &mut Builder,
    signals: &[Signal],
    first: &[u64],
    table: &mut [u64],
    aim: &Aim,
    x: Value,
) -> Result<(), NoMemory>
    requires aim { IsAim b.old (declared_all signals.now) aim.now }
    requires x_in { IsIn b.old x }
    requires width { wide_of x ≡ aim_width (declared_all signals.now) aim.now }
    requires first { AreFirsts (declared_all signals.now) first.now }
    requires table { IsTable b.old (all_cells (declared_all signals.now)) table.old }
    ensures { OnOk result (Puts b.old b.new (declared_all signals.now) (all_cells (declared_all signals.now)) table.old table.new aim.now x) }
{
    let signal = signal_of(signals, aim.signal);
    if is_clock(signal) {
        return Ok(());
    }
    let at = number_at(first, aim.signal);
    let of = elements(signal);
    let end = end_of(table, at, of.1);
    for i in at..end {
        let old = number_at(table, i);
        let n = of.0 + (i - at);
        let k = element(alloc, b, signals, aim, old, n, x.same())?;
        set(table, i, k);
    }
    Ok(())
}

/// Writes a value to aims, the leftmost of which gets its highest bits.
pub(crate) fn write(
    alloc: Global,
    b: &mut Builder,
    signals: &[Signal],
    first: &[u64],
    table: &mut [u64],
    aims: &[Aim],
    x: Value,
) -> Result<(), NoMemory>
    requires aims { AreAims b.old (declared_all signals.now) aims.now }
    requires x_in { IsIn b.old x }
    requires width { wide_of x ≡ aims_width (declared_all signals.now) aims.now }
    requires first { AreFirsts (declared_all signals.now) first.now }
    requires table { IsTable b.old (all_cells (declared_all signals.now)) table.old }
    ensures { OnOk result (Writes b.old b.new (declared_all signals.now) (all_cells (declared_all signals.now)) table.old table.new aims.now x) }
{
    let mut left = x.width();
    for aim in aims {
        let width = aim_width(signals, aim);
        left -= width;
        let y = cut(b, x.same(), left, width)?;
        put(alloc, b, signals, first, table, aim, y)?;
    }
    Ok(())
}
