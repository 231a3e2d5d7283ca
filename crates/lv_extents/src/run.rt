ghost use Rattle.std.specs.Prelude.{◌≡◌, ◌≤◌, ◌+◌, ◌-◌, ◌^◌, ◌++◌, ◌∷◌, true, false, Some, map, IfOk, OnOk};
ghost use Rattle.lv_source.specs.Names.{Bounds, width_of, is_signal_sort};
ghost use Rattle.lv_source.specs.Values.{nowhere};
ghost use Rattle.lv_source.specs.Places.{bits_of, place_by, place_bits};
ghost use Rattle.lv_source.specs.Meaning.{bits_named, all_constant};
ghost use Rattle.lv_source.specs.Parts.{is_declared_sort};
ghost use Rattle.lv_source.specs.PartRules.{has_twice};
ghost use Rattle.lv_flat.specs.Cells.{AreDistinct, all_cells};
ghost use Rattle.lv_flat.specs.Signals.{declared, declared_all, signal_at};
ghost use Rattle.lv_flat.specs.Judged.{good_selects, judge_select};
ghost use Rattle.lv_lower_exprs.specs.Named.{chosen_by};
ghost use Rattle.lv_extents.specs.Adds.{Adds, IsRun, IsFixed, AreFixed, spans_of, taken};
ghost use Rattle.lv_extents.specs.Extents.{AreExact};

use crate::constant::first_number;
use lv_bits::NoMemory;
use lv_flat::{FlatSelect, Signal};
use lv_lower_exprs::{count, is_clock, signal_of, signal_width};
use lv_spans::Span;
use lv_values::{Number, window_of};
use sqlite_items::Items;
use std::alloc::Global;

fn ones(n: u32) -> u128
    requires { n ≤ 128 }
    ensures { result ≡ 2 ^ n - 1 }
{
    if n == 128 {
        u128::MAX
    } else {
        (1u128 << n) - 1
    }
}

/// The mask with the bits of so many places from one on.
fn mask_of(low: u32, count: u32) -> u128
    requires { low + count ≤ 128 }
    ensures { result ≡ 2 ^ (low + count) - 2 ^ low }
{
    ones(low + count) - ones(low)
}

/// The places that selects with constant indices name of a word: the lowest, and how many there are (5.2).
fn run_of(
    alloc: Global,
    signals: &[Signal],
    signal: &Signal,
    ss: &[FlatSelect],
) -> Result<(u32, u32), NoMemory>
    requires { AreFixed (declared_all signals.now) ss.now }
    ensures run { IfOk result (λ r. IsRun (bits_of (declared signal.now) (map (chosen_by (declared_all signals.now)) ss.now) nowhere) (width_of (declared signal.now)) r.0 r.1) }
    ensures most { width_of (declared signal.now) ≤ 128 }
{
    let width = signal_width(signal);
    match ss {
        [] => Ok((0, width)),
        [s, ..] => {
            let z = first_number(alloc, signals, s)?;
            let w = window_of(signal.left, signal.right, z, count(signals, s));
            Ok((w.low, w.count))
        }
    }
}

/// Adds a span with these places of a cell, where there are some.
fn add_run(
    into: &mut Items<Span>,
    signal: u64,
    element: Option<u64>,
    low: u32,
    count: u32,
) -> Result<(), NoMemory>
    requires { low + count ≤ 128 }
    ensures { OnOk result (into.new ≡ into.old ++ spans_of signal element low count) }
{
    if count > 0 {
        into.push(Span {
            signal,
            element,
            mask: mask_of(low, count),
        })?;
    }
    Ok(())
}

/// Adds the bits of an element, if the array has it.
fn add_element(
    alloc: Global,
    signals: &[Signal],
    k: u64,
    s: &FlatSelect,
    rest: &[FlatSelect],
    into: &mut Items<Span>,
) -> Result<(), NoMemory>
    requires signal { is_signal_sort (signal_at (declared_all signals.now) k).sort ≡ true }
    requires first { IsFixed (declared_all signals.now) s.now }
    requires fixed { AreFixed (declared_all signals.now) rest.now }
    requires distinct { AreDistinct (all_cells (declared_all signals.now)) }
    ensures adds { OnOk result ((b : Bounds) → (signal_at (declared_all signals.now) k).array ≡ Some b → Adds (declared_all signals.now) into.old into.new (place_bits (place_by (Some b) (signal_at (declared_all signals.now) k) (map (chosen_by (declared_all signals.now)) (s.now ∷ rest.now)) nowhere))) }
    ensures once { OnOk result ((b : Bounds) → (signal_at (declared_all signals.now) k).array ≡ Some b → has_twice (place_bits (place_by (Some b) (signal_at (declared_all signals.now) k) (map (chosen_by (declared_all signals.now)) (s.now ∷ rest.now)) nowhere)) ≡ false) }
    ensures exact { OnOk result (AreExact (declared_all signals.now) into.old → AreExact (declared_all signals.now) into.new) }
{
    let signal = signal_of(signals, k);
    let Some((left, right)) = signal.array else {
        return Ok(());
    };
    let z = first_number(alloc, signals, s)?;
    if let Number::Above(i) = z {
        if u128::from(left.min(right)) <= i && i <= u128::from(left.max(right)) {
            let run = run_of(alloc, signals, signal, rest)?;
            add_run(into, k, Some(i as u64), run.0, run.1)?;
        }
    }
    Ok(())
}

/// Adds the bits that a name with selects may stand for: those that its selects name, where these are constant, and else all of
/// the signal. A clock has none.
pub(crate) fn add_named(
    alloc: Global,
    signals: &[Signal],
    k: u64,
    ss: &[FlatSelect],
    fixed: bool,
    into: &mut Items<Span>,
) -> Result<(), NoMemory>
    requires sort { is_declared_sort (signal_at (declared_all signals.now) k).sort ≡ true }
    requires good { good_selects (signal_at (declared_all signals.now) k) (map (judge_select (declared_all signals.now)) ss.now) ≡ true }
    requires fixed { fixed ≡ all_constant (taken (declared_all signals.now) ss.now) }
    requires distinct { AreDistinct (all_cells (declared_all signals.now)) }
    ensures adds { OnOk result (Adds (declared_all signals.now) into.old into.new (bits_named (signal_at (declared_all signals.now) k) (taken (declared_all signals.now) ss.now))) }
    ensures once { OnOk result (has_twice (bits_named (signal_at (declared_all signals.now) k) (taken (declared_all signals.now) ss.now)) ≡ false) }
    ensures exact { OnOk result (fixed ≡ true → AreExact (declared_all signals.now) into.old → AreExact (declared_all signals.now) into.new) }
{
    let signal = signal_of(signals, k);
    if is_clock(signal) {
        return Ok(());
    }
    if !fixed {
        add_run(into, k, None, 0, signal_width(signal))?;
        return Ok(());
    }
    match signal.array {
        None => {
            let run = run_of(alloc, signals, signal, ss)?;
            add_run(into, k, None, run.0, run.1)?;
            Ok(())
        }
        Some(_) => match ss {
            [] => Ok(()),
            [s, rest @ ..] => {
                add_element(alloc, signals, k, s, rest, into)?;
                Ok(())
            }
        },
    }
}
