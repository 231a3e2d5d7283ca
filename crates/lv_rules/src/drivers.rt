// Bits that two parts drive.
ghost use Rattle.std.specs.Prelude.{◌≡◌, List, ◌&&◌, ◌||◌, if◌then◌else◌, IfOk};
ghost use Rattle.std.specs.List.{list_any};
ghost use Rattle.lv_source.specs.Names.{is_variable_sort, is_input_sort};
ghost use Rattle.lv_source.specs.Views.{View, is_edge, is_continuous, two_views};
ghost use Rattle.lv_flat.specs.Cells.{AreDistinct, all_cells};
ghost use Rattle.lv_flat.specs.Signals.{declared_all, signal_at};
ghost use Rattle.lv_extents.specs.Extents.{AreExtents, way_of};
ghost use Rattle.lv_rules.specs.Rules.{unclocked, IsToldBy};
ghost use Rattle.lv_rules.specs.Drives.{is_overdriven, is_mixed, IsShared};

use crate::marks::Class;
use crate::told::Told;
use crate::{marks, sets, ways};
use lv_bits::NoMemory;
use lv_extents::Extent;
use lv_flat::{Signal, Sort};
use lv_spans::{BitSet, Span};
use std::alloc::Global;

fn is_input(signals: &[Signal], s: Span) -> bool
    ensures { result ≡ is_input_sort (signal_at (declared_all signals.now) s.signal).sort }
{
    match ways::sort_at(signals, s.signal) {
        Some(Sort::Input) => true,
        _ => false,
    }
}

fn some_input(signals: &[Signal], spans: &[Span]) -> bool
    ensures { result ≡ list_any (λ s. is_input_sort (signal_at (declared_all signals.now) s.signal).sort) spans.now }
{
    for s in spans {
        if is_input(signals, *s) {
            return true;
        }
    }
    false
}

fn is_overdriven(signals: &[Signal], x: &Extent) -> bool
    ensures { result ≡ is_overdriven (declared_all signals.now) x.now }
{
    ways::is_continuous(x.way) && x.twice || some_input(signals, x.drives.as_slice())
}

fn is_mixed(signals: &[Signal], clocked: &[bool], unclocked: &[bool], x: &Extent) -> bool
    ensures { result ≡ is_mixed (declared_all signals.now) clocked.now unclocked.now x.now }
{
    if ways::is_edge(x.way) {
        marks::some_marked(signals, unclocked, x.drives.as_slice())
    } else {
        marks::some_marked(signals, clocked, x.drives.as_slice())
    }
}

fn is_told_alone(signals: &[Signal], clocked: &[bool], unclocked: &[bool], x: &Extent) -> bool
    ensures { result ≡ (is_overdriven (declared_all signals.now) x.now || is_mixed (declared_all signals.now) clocked.now unclocked.now x.now) }
{
    is_overdriven(signals, x) || is_mixed(signals, clocked, unclocked, x)
}

fn first_shared(
    alloc: Global,
    signals: &[Signal],
    clocked: &[bool],
    unclocked: &[bool],
    extents: &[Extent],
) -> Result<Option<Told>, NoMemory>
    ensures { IfOk result (λ r. IsShared (declared_all signals.now) clocked.now unclocked.now extents.now r) }
{
    let mut driven = BitSet::new(alloc);
    for (part, x) in extents.iter().enumerate() {
        let place = x.place;
        if is_told_alone(signals, clocked, unclocked, x) {
            return Ok(Some(Told { part, place }));
        }
        if sets::meets(&driven, x.drives.as_slice()) {
            return Ok(Some(Told { part, place }));
        }
        driven = sets::with_spans(driven, x.drives.as_slice())?;
    }
    Ok(None)
}

/// A part of which TwoDrivers is told, and where; none exactly where it is told of none.
pub fn first_two_drivers(
    alloc: Global,
    signals: &[Signal],
    extents: &[Extent],
) -> Result<Option<Told>, NoMemory>
    requires { AreDistinct (all_cells (declared_all signals.now)) }
    ensures { IfOk result (λ r. IsToldBy (declared_all signals.now) extents.now (two_views (unclocked (declared_all signals.now))) r) }
{
    let clocked = marks::driven_by(alloc, signals.len(), extents, Class::Clocked)?;
    let unclocked = marks::driven_by(alloc, signals.len(), extents, Class::Unclocked)?;
    let r = first_shared(
        alloc,
        signals,
        clocked.as_slice(),
        unclocked.as_slice(),
        extents,
    )?;
    Ok(r)
}
