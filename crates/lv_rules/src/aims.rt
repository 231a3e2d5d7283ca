// Names in targets, and steps.
ghost use Rattle.std.specs.Prelude.{◌≡◌};
ghost use Rattle.std.specs.List.{list_any};
ghost use Rattle.lv_flat.specs.Signals.{sort_of};
ghost use Rattle.lv_extents.specs.Extents.{way_of, all_aims};
ghost use Rattle.lv_rules.specs.Rules.{is_misaimed, is_unsure, IsFound, is_clock_aim, is_late_step, aim_place, step_place, step_aims};

use crate::ways;
use lv_extents::{Aim, Extent, Step, Way};

fn some_misaimed(way: Way, aims: &[Aim]) -> bool
    ensures { result ≡ list_any (λ a. is_misaimed (way_of way) (sort_of a.sort)) aims.now }
{
    aims.iter().any(|a| ways::is_misaimed(way, a.sort))
}

fn some_step_misaimed(way: Way, steps: &[Step]) -> bool
    ensures { result ≡ list_any (λ s. list_any (λ a. is_misaimed (way_of way) (sort_of a.sort)) s.aims) steps.now }
{
    steps.iter().any(|s| some_misaimed(way, s.aims.as_slice()))
}

/// Some name in a target of the part can't be written in its way.
pub(crate) fn is_misaimed(x: &Extent) -> bool
    ensures { result ≡ list_any (λ a. is_misaimed (way_of x.now.way) (sort_of a.sort)) (all_aims x.now) }
{
    some_misaimed(x.way, x.aims.as_slice()) || some_step_misaimed(x.way, x.steps.as_slice())
}

fn some_unsure(aims: &[Aim]) -> bool
    ensures { result ≡ list_any is_unsure aims.now }
{
    aims.iter().any(|a| !a.sure)
}

fn some_step_unsure(steps: &[Step]) -> bool
    ensures { result ≡ list_any (λ s. list_any is_unsure s.aims) steps.now }
{
    steps.iter().any(|s| some_unsure(s.aims.as_slice()))
}

/// Some name in a target of the part has an index that isn't constant.
pub(crate) fn is_unsure(x: &Extent) -> bool
    ensures { result ≡ list_any is_unsure (all_aims x.now) }
{
    some_unsure(x.aims.as_slice()) || some_step_unsure(x.steps.as_slice())
}

fn clock_among(aims: &[Aim]) -> Option<u64>
    ensures { IsFound is_clock_aim aim_place aims.now result }
{
    for a in aims {
        if ways::is_clock(a.sort) {
            return Some(a.place);
        }
    }
    None
}

fn clock_in(steps: &[Step]) -> Option<u64>
    ensures { IsFound is_clock_aim aim_place (step_aims steps.now) result }
{
    for s in steps {
        match clock_among(s.aims.as_slice()) {
            Some(place) => return Some(place),
            None => {}
        }
    }
    None
}

/// The place of a clock's name in a target.
pub(crate) fn clock_aim(x: &Extent) -> Option<u64>
    ensures { IsFound is_clock_aim aim_place (all_aims x.now) result }
{
    match clock_among(x.aims.as_slice()) {
        Some(place) => Some(place),
        None => clock_in(x.steps.as_slice()),
    }
}

/// The place of a target that is written by `<=`.
pub(crate) fn late_step(steps: &[Step]) -> Option<u64>
    ensures { IsFound is_late_step step_place steps.now result }
{
    for s in steps {
        if !s.at_once {
            return Some(s.place);
        }
    }
    None
}
