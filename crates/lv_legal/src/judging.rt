ghost use Rattle.std.specs.Prelude.{◌≡◌, ℕ, List, IfOk};
ghost use Rattle.lv_source.specs.Views.{View};
ghost use Rattle.lv_flat.specs.Cells.{AreDistinct, all_cells};
ghost use Rattle.lv_flat.specs.Signals.{declared_all};
ghost use Rattle.lv_extents.specs.Extents.{AreExtents};
ghost use Rattle.lv_legal.specs.Legal.{AreBroken, IsJudged};

use crate::rule::{Rule, first_spot};
use lv_bits::{NoMemory, Text};
use lv_extents::Extent;
use lv_flat::Signal;
use lv_schedule::{Plan, schedule};
use std::alloc::Global;

/// Why the parts break the rules.
#[derive(Drop)]
pub enum Refused {
    /// A rule, and where it is told: the path of a scope, the top's empty, and a place of the text.
    Broken(Rule, Text, u64),
    /// Distinct parts by their numbers, the least first: each reads a bit that the next drives, and the last one a bit that the first drives.
    Cycle(Vec<u64>),
}

/// A rule that is told of something, the rules in their order.
fn first_broken(
    alloc: Global,
    signals: &[Signal],
    extents: &[Extent],
    clock: &Text,
) -> Result<Option<Refused>, NoMemory>
    requires { AreDistinct (all_cells (declared_all signals.now)) }
    ensures { IfOk result (λ r. (vs : List View) → AreExtents (declared_all signals.now) vs extents.now → AreBroken clock.now (declared_all signals.now) vs r) }
{
    let rules = [
        Rule::NotConstant,
        Rule::WrongKind,
        Rule::ClockUse,
        Rule::Blocking,
        Rule::Nonblocking,
        Rule::TwoDrivers,
        Rule::Undriven,
        Rule::Latch,
        Rule::ReadFirst,
    ];
    for rule in rules.iter() {
        match first_spot(*rule, alloc, signals, extents, clock)? {
            Some(spot) => return Ok(Some(Refused::Broken(*rule, spot.path, spot.place))),
            None => {}
        }
    }
    Ok(None)
}

/// The parts that have no clock, by their numbers, in an order in which none reads what a later one drives: exactly where no rule
/// is told of anything, and there is no cycle. Else a rule, and a place at which it is told, or a cycle.
pub fn check_rules(
    alloc: Global,
    signals: &[Signal],
    extents: &[Extent],
    clock: &Text,
) -> Result<Result<Vec<u64>, Refused>, NoMemory>
    requires { AreDistinct (all_cells (declared_all signals.now)) }
    ensures { IfOk result (λ r. (vs : List View) → AreExtents (declared_all signals.now) vs extents.now → IsJudged clock.now (declared_all signals.now) vs r) }
{
    match first_broken(alloc, signals, extents, clock)? {
        Some(refused) => return Ok(Err(refused)),
        None => {}
    }
    match schedule(alloc, signals, extents)? {
        Plan::Order(order) => Ok(Ok(order)),
        Plan::Cycle(parts) => Ok(Err(Refused::Cycle(parts))),
    }
}
