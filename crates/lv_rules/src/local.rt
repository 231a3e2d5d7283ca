// Rules that look at one part alone.
ghost use Rattle.std.specs.Prelude.{◌≡◌, List, ◌&&◌, ◌||◌, if◌then◌else◌, Some, None, slice_get};
ghost use Rattle.std.specs.List.{list_any};
ghost use Rattle.lv_source.specs.Views.{View, is_combinational, is_continuous};
ghost use Rattle.lv_flat.specs.Cells.{AreDistinct, all_cells};
ghost use Rattle.lv_flat.specs.Signals.{declared_all, signal_at, sort_of};
ghost use Rattle.lv_extents.specs.Extents.{IsExtent, AreExtents, way_of, all_aims};
ghost use Rattle.lv_rules.specs.Rules.{unclocked, is_misaimed, is_misdriven, is_unsure, IsFound, is_late_step, step_place, local_at, local_views, IsPlace, IsToldBy, IsClockPlace};

use crate::told::Told;
use crate::{aims, ways};
use lv_extents::Extent;
use lv_flat::Signal;

/// The rules that look at one part alone.
#[derive(Clone, Copy)]
pub enum LocalRule {
    /// An index in the target of a continuous assignment.
    Unfixed,
    /// A continuous target that is a variable, or a block's that is none.
    WrongKind,
    /// An edge of a name that is no clock, or a clock in a target.
    ClockUse,
    /// A clock in an expression.
    NamedClock,
    /// `<=` in a combinational block.
    Nonblocking,
    /// A combinational block that leaves a bit as it was on some path.
    Latch,
    /// A combinational block that reads a bit before it writes it.
    ReadFirst,
}

fn told(holds: bool, place: u64) -> Option<u64>
    ensures { result ≡ (if holds then Some place else None) }
{
    if holds { Some(place) } else { None }
}

fn is_misdriven(signals: &[Signal], x: &Extent) -> bool
    ensures { result ≡ list_any (λ s. is_misdriven (way_of x.now.way) (signal_at (declared_all signals.now) s.signal).sort) x.now.drives }
{
    let way = x.way;
    for s in x.drives.as_slice() {
        if ways::is_misdriven(way, ways::sort_at(signals, s.signal)) {
            return true;
        }
    }
    false
}

fn is_wrong(signals: &[Signal], x: &Extent) -> bool
    ensures { result ≡ (list_any (λ a. is_misaimed (way_of x.now.way) (sort_of a.sort)) (all_aims x.now) || list_any (λ s. is_misdriven (way_of x.now.way) (signal_at (declared_all signals.now) s.signal).sort) x.now.drives) }
{
    aims::is_misaimed(x) || is_misdriven(signals, x)
}

fn is_unfixed(x: &Extent) -> bool
    ensures { result ≡ (is_continuous (way_of x.now.way) && list_any is_unsure (all_aims x.now)) }
{
    ways::is_continuous(x.way) && aims::is_unsure(x)
}

fn clock_place(x: &Extent) -> Option<u64>
    ensures { IsClockPlace x.now result }
{
    if ways::is_other_edge(x.way) {
        return Some(x.place);
    }
    aims::clock_aim(x)
}

fn late_place(x: &Extent) -> Option<u64>
    ensures { IsFound (λ s. is_combinational (way_of x.now.way) && is_late_step s) step_place x.now.steps result }
{
    if ways::is_combinational(x.way) {
        aims::late_step(x.steps.as_slice())
    } else {
        None
    }
}

fn named_place(x: &Extent) -> Option<u64>
    ensures { result ≡ slice_get x.now.clocks 0 }
{
    match x.clocks.get(0) {
        Some(place) => Some(*place),
        None => None,
    }
}

fn place_in(rule: LocalRule, signals: &[Signal], x: &Extent) -> Option<u64>
    requires { AreDistinct (all_cells (declared_all signals.now)) }
    ensures { (v : View) → IsExtent (declared_all signals.now) v x.now → IsPlace v (local_at rule (unclocked (declared_all signals.now)) v) result }
{
    match rule {
        LocalRule::Unfixed => told(is_unfixed(x), x.place),
        LocalRule::WrongKind => told(is_wrong(signals, x), x.place),
        LocalRule::ClockUse => clock_place(x),
        LocalRule::NamedClock => named_place(x),
        LocalRule::Nonblocking => late_place(x),
        LocalRule::Latch => told(ways::is_combinational(x.way) && x.latch, x.place),
        LocalRule::ReadFirst => told(ways::is_combinational(x.way) && x.exposed, x.place),
    }
}

/// A part of which the rule is told, and where; none exactly where it is told of none.
pub fn first_local(rule: LocalRule, signals: &[Signal], extents: &[Extent]) -> Option<Told>
    requires { AreDistinct (all_cells (declared_all signals.now)) }
    ensures { IsToldBy (declared_all signals.now) extents.now (local_views rule (unclocked (declared_all signals.now))) result }
{
    for (part, x) in extents.iter().enumerate() {
        match place_in(rule, signals, x) {
            Some(place) => return Some(Told { part, place }),
            None => {}
        }
    }
    None
}
