ghost use Rattle.std.specs.Prelude.{◌≡◌, ◌≤◌, true, map, IfOk, pos, ◌-ℤ◌};
ghost use Rattle.lv_source.specs.Parts.{is_declared_sort};
ghost use Rattle.lv_source.specs.Places.{count_of, lowest, bit_selects};
ghost use Rattle.lv_source.specs.Values.{number_of};
ghost use Rattle.lv_flat.specs.Signals.{declared_all, signal_at};
ghost use Rattle.lv_flat.specs.Cells.{all_cells};
ghost use Rattle.lv_flat.specs.Judged.{meaning, is_good};
ghost use Rattle.lv_flat.specs.Executing.{pieces};
ghost use Rattle.lv_flat.specs.Good.{are_targets};
ghost use Rattle.lv_lower_exprs.specs.Tables.{IsTable, AreFirsts};
ghost use Rattle.lv_lower_exprs.specs.Named.{chosen_by, HasElement, is_good_select, are_good_selects};
ghost use Rattle.lv_lower_blocks.specs.Aimed.{Begins, Spots, Names, Aims, AreAims, AreNames, aim_width, aims_width, chosen_width};

use lv_bits::{NoMemory, Word};
use lv_flat::{FlatExpr, FlatSelect, FlatTarget, Signal};
use lv_lower_exprs::{count, own, signal_of, signal_width, value};
use lv_netlist::Builder;
use lv_values::{Value, zeros};
use std::alloc::Global;

/// A select of a target: it names so many numbers, from that of the index on, less `down`.
#[derive(Drop)]
pub(crate) struct Spot {
    pub index: Value,
    pub signed: bool,
    pub down: u32,
    pub count: u32,
}

/// A name of a target, with the values of its indices.
#[derive(Drop)]
pub(crate) struct Aim {
    pub signal: u64,
    /// Of an array.
    pub element: Option<Spot>,
    pub bits: Option<Spot>,
}

/// So many numbers from the value of an index on, less `down`.
fn indexed(
    alloc: Global,
    b: &mut Builder,
    signals: &[Signal],
    first: &[u64],
    table: &[u64],
    e: &FlatExpr,
    down: u32,
    count: u32,
) -> Result<Spot, NoMemory>
    requires good { is_good (declared_all signals.now) e.now ≡ true }
    requires near { down ≤ 128 }
    requires first { AreFirsts (declared_all signals.now) first.now }
    requires table { IsTable b.old (all_cells (declared_all signals.now)) table.now }
    ensures is { IfOk result (λ r. Begins b.old b.new (all_cells (declared_all signals.now)) table.now r (λ v. number_of (meaning (declared_all signals.now) e.now) v -ℤ pos down) count) }
    ensures down { IfOk result (λ r. r.down ≡ down) }
{
    let of = own(signals, e);
    let index = value(alloc, b, signals, first, table, e, of.0, of.1)?;
    Ok(Spot {
        index,
        signed: of.1,
        down,
        count,
    })
}

/// The numbers of a select.
fn spot_of(
    alloc: Global,
    b: &mut Builder,
    signals: &[Signal],
    first: &[u64],
    table: &[u64],
    s: &FlatSelect,
) -> Result<Spot, NoMemory>
    requires good { is_good_select (declared_all signals.now) s.now ≡ true }
    requires some { 1 ≤ count_of (chosen_by (declared_all signals.now) s.now) }
    requires most { count_of (chosen_by (declared_all signals.now) s.now) ≤ 128 }
    requires first { AreFirsts (declared_all signals.now) first.now }
    requires table { IsTable b.old (all_cells (declared_all signals.now)) table.now }
    ensures is { IfOk result (λ r. Begins b.old b.new (all_cells (declared_all signals.now)) table.now r (lowest (chosen_by (declared_all signals.now) s.now)) (count_of (chosen_by (declared_all signals.now) s.now))) }
    ensures down { IfOk result (λ r. count_of (chosen_by (declared_all signals.now) s.now) ≡ 1 → r.down ≡ 0) }
{
    match s {
        FlatSelect::Bit(e) => {
            let r = indexed(alloc, b, signals, first, table, e.get(), 0, 1)?;
            Ok(r)
        }
        FlatSelect::Part(left, right) => {
            let low = (*left).min(*right);
            let word = Word::new(32, u128::from(low));
            let _ = word.value();
            Ok(Spot {
                index: Value::Known(word),
                signed: false,
                down: 0,
                count: count(signals, s),
            })
        }
        FlatSelect::Up(e, n) => {
            let r = indexed(alloc, b, signals, first, table, e.get(), 0, *n)?;
            Ok(r)
        }
        FlatSelect::Down(e, n) => {
            let r = indexed(alloc, b, signals, first, table, e.get(), *n - 1, *n)?;
            Ok(r)
        }
    }
}

/// The first of the selects, if there is one.
fn first_spot(
    alloc: Global,
    b: &mut Builder,
    signals: &[Signal],
    first: &[u64],
    table: &[u64],
    ss: &[FlatSelect],
) -> Result<Option<Spot>, NoMemory>
    requires good { are_good_selects (declared_all signals.now) ss.now ≡ true }
    requires some { 1 ≤ chosen_width 1 (map (chosen_by (declared_all signals.now)) ss.now) }
    requires most { chosen_width 1 (map (chosen_by (declared_all signals.now)) ss.now) ≤ 128 }
    requires first { AreFirsts (declared_all signals.now) first.now }
    requires table { IsTable b.old (all_cells (declared_all signals.now)) table.now }
    ensures { IfOk result (λ o. Spots b.old b.new (all_cells (declared_all signals.now)) table.now o (map (chosen_by (declared_all signals.now)) ss.now)) }
{
    match ss {
        [] => Ok(None),
        [s, ..] => {
            let r = spot_of(alloc, b, signals, first, table, s)?;
            Ok(Some(r))
        }
    }
}

/// A name with its selects.
fn aim_at(
    alloc: Global,
    b: &mut Builder,
    signals: &[Signal],
    first: &[u64],
    table: &[u64],
    k: u64,
    ss: &[FlatSelect],
) -> Result<Aim, NoMemory>
    requires signal { is_declared_sort (signal_at (declared_all signals.now) k).sort ≡ true }
    requires good { are_good_selects (declared_all signals.now) ss.now ≡ true }
    requires shaped { HasElement (declared_all signals.now) (signal_at (declared_all signals.now) k).array ss.now }
    requires some { 1 ≤ chosen_width 1 (bit_selects (signal_at (declared_all signals.now) k).array (map (chosen_by (declared_all signals.now)) ss.now)) }
    requires most { chosen_width 1 (bit_selects (signal_at (declared_all signals.now) k).array (map (chosen_by (declared_all signals.now)) ss.now)) ≤ 128 }
    requires first { AreFirsts (declared_all signals.now) first.now }
    requires table { IsTable b.old (all_cells (declared_all signals.now)) table.now }
    ensures { IfOk result (λ a. Names b.old b.new (declared_all signals.now) (all_cells (declared_all signals.now)) table.now k (map (chosen_by (declared_all signals.now)) ss.now) a) }
{
    let signal = signal_of(signals, k);
    let _ = signal_width(signal);
    match signal.array {
        None => {
            let bits = first_spot(alloc, b, signals, first, table, ss)?;
            Ok(Aim {
                signal: k,
                element: None,
                bits,
            })
        }
        Some(_) => {
            match ss {
                [] => unreachable!(),
                [s, rest @ ..] => {
                    let element = spot_of(alloc, b, signals, first, table, s)?;
                    let bits = first_spot(alloc, b, signals, first, table, rest)?;
                    Ok(Aim {
                        signal: k,
                        element: Some(element),
                        bits,
                    })
                }
            }
        }
    }
}

/// Adds the names of a target, from left to right.
#[cycle(aiming)]
pub(crate) fn aims(
    alloc: Global,
    b: &mut Builder,
    signals: &[Signal],
    first: &[u64],
    table: &[u64],
    target: &FlatTarget,
    found: Vec<Aim>,
) -> Result<Vec<Aim>, NoMemory>
    requires target { are_targets (declared_all signals.now) target.now ≡ true }
    requires found { AreAims b.old (declared_all signals.now) found.items }
    requires first { AreFirsts (declared_all signals.now) first.now }
    requires table { IsTable b.old (all_cells (declared_all signals.now)) table.now }
    ensures { IfOk result (λ r. Aims b.old b.new (declared_all signals.now) (all_cells (declared_all signals.now)) table.now (pieces (declared_all signals.now) target.now) found.items r.items) }
{
    // The types of what is found, which the check of this cycle looks for here.
    let _ = Spot {
        index: zeros(1),
        signed: false,
        down: 0,
        count: 1,
    };
    match target {
        FlatTarget::Signal(name, ss) => {
            let a = aim_at(alloc, b, signals, first, table, name.signal, ss.as_slice())?;
            let mut found = found;
            found.reserve(1)?;
            found.push_reserved(a);
            Ok(found)
        }
        FlatTarget::Cat(ts) => {
            let mut found = found;
            let ts = ts.as_slice();
            for t in ts {
                found = aims(alloc, b, signals, first, table, t, found)?;
            }
            Ok(found)
        }
    }
}

/// How many bits an aim has.
pub(crate) fn aim_width(signals: &[Signal], aim: &Aim) -> u32
    requires signal { is_declared_sort (signal_at (declared_all signals.now) aim.now.signal).sort ≡ true }
    requires most { aim_width (declared_all signals.now) aim.now ≤ 128 }
    ensures { result ≡ aim_width (declared_all signals.now) aim.now }
{
    let width = signal_width(signal_of(signals, aim.signal));
    match &aim.bits {
        None => width,
        Some(spot) => spot.count,
    }
}

/// How many bits aims have together.
pub(crate) fn aims_width(signals: &[Signal], aims: &[Aim]) -> u32
    requires names { AreNames (declared_all signals.now) aims.now }
    requires most { aims_width (declared_all signals.now) aims.now ≤ 128 }
    ensures { result ≡ aims_width (declared_all signals.now) aims.now }
{
    let mut sum = 0u32;
    for aim in aims {
        sum += aim_width(signals, aim);
    }
    sum
}
