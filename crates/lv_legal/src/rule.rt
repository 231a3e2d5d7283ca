// The rules, one by one.
ghost use Rattle.std.specs.Prelude.{◌≡◌, List, ◌++◌, IfOk};
ghost use Rattle.lv_source.specs.Views.{View, clock_views, named_clocks};
ghost use Rattle.lv_flat.specs.Cells.{AreDistinct, all_cells};
ghost use Rattle.lv_flat.specs.Signals.{declared_all};
ghost use Rattle.lv_rules.specs.Rules.{IsToldBy};
ghost use Rattle.lv_legal.specs.Legal.{clock_uses, told_parts, lacks_clock, told_of, IsSpotOf};

use crate::spot::{Spot, placed};
use lv_bits::{NoMemory, Text};
use lv_extents::Extent;
use lv_flat::Signal;
use lv_rules::{
    LocalRule, Told, first_blocking, first_local, first_two_drivers, first_undriven, has_clock,
};
use std::alloc::Global;

/// The rules on parts, but for cycles (IEEE 1364-2005, 6.1, 9.2 and 9.7).
#[derive(Clone, Copy)]
pub enum Rule {
    /// An index in the target of a continuous assignment.
    NotConstant,
    /// A continuous target that is a variable, or a block's that is none.
    WrongKind,
    /// An edge of a name that is no clock, a clock in an expression or a target, or no clock of the top.
    ClockUse,
    /// `=` in a clocked block to a variable that is used elsewhere.
    Blocking,
    /// `<=` in a combinational block.
    Nonblocking,
    /// A bit that two parts drive, or that a part drives twice, or of an input; a variable of a clocked part and another.
    TwoDrivers,
    /// A bit of a net or of a combinational variable that is read and that no part drives.
    Undriven,
    /// A combinational block that leaves a bit as it was on some path.
    Latch,
    /// A combinational block that reads a bit before it writes it.
    ReadFirst,
}

fn first_clock_use(signals: &[Signal], extents: &[Extent]) -> Option<Told>
    requires { AreDistinct (all_cells (declared_all signals.now)) }
    ensures { IsToldBy (declared_all signals.now) extents.now clock_uses result }
{
    match first_local(LocalRule::ClockUse, signals, extents) {
        Some(told) => Some(told),
        None => first_local(LocalRule::NamedClock, signals, extents),
    }
}

/// A part of which a rule is told, and where; none exactly where it is told of none.
fn first_told(
    rule: Rule,
    alloc: Global,
    signals: &[Signal],
    extents: &[Extent],
) -> Result<Option<Told>, NoMemory>
    requires { AreDistinct (all_cells (declared_all signals.now)) }
    ensures { IfOk result (λ r. IsToldBy (declared_all signals.now) extents.now (told_parts rule (declared_all signals.now)) r) }
{
    match rule {
        Rule::NotConstant => Ok(first_local(LocalRule::Unfixed, signals, extents)),
        Rule::WrongKind => Ok(first_local(LocalRule::WrongKind, signals, extents)),
        Rule::ClockUse => Ok(first_clock_use(signals, extents)),
        Rule::Blocking => first_blocking(alloc, signals, extents),
        Rule::Nonblocking => Ok(first_local(LocalRule::Nonblocking, signals, extents)),
        Rule::TwoDrivers => first_two_drivers(alloc, signals, extents),
        Rule::Undriven => first_undriven(alloc, signals, extents),
        Rule::Latch => Ok(first_local(LocalRule::Latch, signals, extents)),
        Rule::ReadFirst => Ok(first_local(LocalRule::ReadFirst, signals, extents)),
    }
}

fn lacks_clock(rule: Rule, signals: &[Signal], clock: &Text) -> bool
    ensures { result ≡ lacks_clock rule clock.now (declared_all signals.now) }
{
    match rule {
        Rule::ClockUse => !has_clock(signals, clock),
        _ => false,
    }
}

/// Where a rule is told; nowhere exactly where it is told of nothing.
pub(crate) fn first_spot(
    rule: Rule,
    alloc: Global,
    signals: &[Signal],
    extents: &[Extent],
    clock: &Text,
) -> Result<Option<Spot>, NoMemory>
    requires { AreDistinct (all_cells (declared_all signals.now)) }
    ensures { IfOk result (λ r. IsSpotOf (declared_all signals.now) extents.now (told_of rule clock.now (declared_all signals.now)) r) }
{
    if lacks_clock(rule, signals, clock) {
        let path = Text::new(alloc, &[])?;
        return Ok(Some(Spot { path, place: 0 }));
    }
    let told = first_told(rule, alloc, signals, extents)?;
    let spot = placed(alloc, extents, told)?;
    Ok(spot)
}
