// Blocking assignments of what is read elsewhere.
ghost use Rattle.std.specs.Prelude.{◌≡◌, List, ◌&&◌, IfOk};
ghost use Rattle.std.specs.List.{list_any};
ghost use Rattle.lv_source.specs.Views.{View, is_edge, blocking_views};
ghost use Rattle.lv_flat.specs.Cells.{AreDistinct, all_cells};
ghost use Rattle.lv_flat.specs.Signals.{declared_all};
ghost use Rattle.lv_extents.specs.Extents.{AreExtents, way_of};
ghost use Rattle.lv_rules.specs.Rules.{unclocked, IsToldBy, IsFound, step_place};
ghost use Rattle.lv_rules.specs.Reads.{is_sharing_span, is_sharing_aim, is_blocking_step, IsBlocked};

use crate::readers::Reader;
use crate::told::Told;
use crate::{late, marks, readers, ways};
use lv_bits::NoMemory;
use lv_extents::{Aim, Extent, Step};
use lv_flat::Signal;
use lv_spans::Span;
use std::alloc::Global;

fn is_sharing_span(
    signals: &[Signal],
    late: &[bool],
    readers: &[Reader],
    part: usize,
    s: Span,
) -> bool
    ensures { result ≡ is_sharing_span (declared_all signals.now) late.now readers.now part s }
{
    marks::is_variable(ways::sort_at(signals, s.signal))
        && (marks::is_marked(late, s.signal)
            || readers::reader_at(readers, s.signal).is_other(part))
}

fn is_sharing_aim(
    signals: &[Signal],
    late: &[bool],
    readers: &[Reader],
    part: usize,
    a: &Aim,
) -> bool
    ensures { result ≡ is_sharing_aim (declared_all signals.now) late.now readers.now part a.now }
{
    for s in a.bits.as_slice() {
        if is_sharing_span(signals, late, readers, part, *s) {
            return true;
        }
    }
    false
}

fn some_sharing(
    signals: &[Signal],
    late: &[bool],
    readers: &[Reader],
    part: usize,
    aims: &[Aim],
) -> bool
    ensures { result ≡ list_any (is_sharing_aim (declared_all signals.now) late.now readers.now part) aims.now }
{
    for a in aims {
        if is_sharing_aim(signals, late, readers, part, a) {
            return true;
        }
    }
    false
}

fn is_blocking_step(
    signals: &[Signal],
    late: &[bool],
    readers: &[Reader],
    part: usize,
    s: &Step,
) -> bool
    ensures { result ≡ is_blocking_step (declared_all signals.now) late.now readers.now part s.now }
{
    s.at_once && some_sharing(signals, late, readers, part, s.aims.as_slice())
}

fn blocking_step(
    signals: &[Signal],
    late: &[bool],
    readers: &[Reader],
    part: usize,
    steps: &[Step],
) -> Option<u64>
    ensures { IsFound (is_blocking_step (declared_all signals.now) late.now readers.now part) step_place steps.now result }
{
    for s in steps {
        if is_blocking_step(signals, late, readers, part, s) {
            return Some(s.place);
        }
    }
    None
}

fn blocking_place(
    signals: &[Signal],
    late: &[bool],
    readers: &[Reader],
    part: usize,
    x: &Extent,
) -> Option<u64>
    ensures { IsFound (λ s. is_edge (way_of x.now.way) && is_blocking_step (declared_all signals.now) late.now readers.now part s) step_place x.now.steps result }
{
    if ways::is_edge(x.way) {
        blocking_step(signals, late, readers, part, x.steps.as_slice())
    } else {
        None
    }
}

fn first_of(
    signals: &[Signal],
    late: &[bool],
    readers: &[Reader],
    extents: &[Extent],
) -> Option<Told>
    ensures { IsBlocked (declared_all signals.now) late.now readers.now extents.now result }
{
    for (part, x) in extents.iter().enumerate() {
        match blocking_place(signals, late, readers, part, x) {
            Some(place) => return Some(Told { part, place }),
            None => {}
        }
    }
    None
}

/// A part of which Blocking is told, and where; none exactly where it is told of none.
pub fn first_blocking(
    alloc: Global,
    signals: &[Signal],
    extents: &[Extent],
) -> Result<Option<Told>, NoMemory>
    requires { AreDistinct (all_cells (declared_all signals.now)) }
    ensures { IfOk result (λ r. IsToldBy (declared_all signals.now) extents.now (blocking_views (unclocked (declared_all signals.now))) r) }
{
    let late = late::late_signals(alloc, signals.len(), extents)?;
    let readers = readers::readers_of(alloc, signals.len(), extents)?;
    Ok(first_of(signals, late.as_slice(), readers.as_slice(), extents))
}
