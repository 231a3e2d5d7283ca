ghost use Rattle.std.specs.Prelude.{◌≡◌, true, [], ◌∷◌, ◌++◌, map, OnOk, Bool};
ghost use Rattle.std.specs.List.{list_all};
ghost use Rattle.lv_source.specs.Flow.{write_flow};
ghost use Rattle.lv_source.specs.Views.{seen_of};
ghost use Rattle.lv_flat.specs.Cells.{AreDistinct, all_cells};
ghost use Rattle.lv_flat.specs.Signals.{declared_all};
ghost use Rattle.lv_flat.specs.Judged.{is_good, reading};
ghost use Rattle.lv_flat.specs.Executing.{pieces};
ghost use Rattle.lv_flat.specs.Flows.{flow};
ghost use Rattle.lv_flat.specs.Good.{good_stmt, are_targets};
ghost use Rattle.lv_extents.specs.Adds.{Adds, AddsSteps};
ghost use Rattle.lv_extents.specs.Blocks.{all_events, arm_flow, are_good_arms, label_reads, look_at};

use crate::extent::Step;
use crate::reads::{add_all, add_reads};
use crate::target::add_aims;
use lv_bits::NoMemory;
use lv_flat::{FlatArm, FlatExpr, FlatStmt, FlatTarget, Signal};
use lv_spans::Span;
use sqlite_items::Items;
use std::alloc::Global;

/// Adds the steps of a statement, in the order of the text.
#[cycle(steps)]
pub(crate) fn add_steps(
    alloc: Global,
    signals: &[Signal],
    s: &FlatStmt,
    steps: &mut Items<Step>,
) -> Result<(), NoMemory>
    requires good { good_stmt (declared_all signals.now) s.now ≡ true }
    requires distinct { AreDistinct (all_cells (declared_all signals.now)) }
    ensures { OnOk result (AddsSteps (declared_all signals.now) steps.old steps.new (map seen_of (flow (declared_all signals.now) s.now).events)) }
{
    match s {
        FlatStmt::Null => Ok(()),
        FlatStmt::Block(body) => {
            add_block(alloc, signals, body.as_slice(), steps)?;
            Ok(())
        }
        FlatStmt::If(x, a, b) => {
            add_look(alloc, signals, x.get(), &[], steps)?;
            add_steps(alloc, signals, a.get(), steps)?;
            if let Some(b) = b {
                add_steps(alloc, signals, b.get(), steps)?;
            }
            Ok(())
        }
        FlatStmt::Case(_, x, arms) => {
            add_look(alloc, signals, x.get(), arms.as_slice(), steps)?;
            add_arms(alloc, signals, arms.as_slice(), steps)?;
            Ok(())
        }
        FlatStmt::Now(t, x, place) => {
            add_write(alloc, signals, t, x.get(), true, *place, steps)?;
            Ok(())
        }
        FlatStmt::Later(t, x, place) => {
            add_write(alloc, signals, t, x.get(), false, *place, steps)?;
            Ok(())
        }
    }
}

#[cycle(steps)]
fn add_block(
    alloc: Global,
    signals: &[Signal],
    body: &[FlatStmt],
    steps: &mut Items<Step>,
) -> Result<(), NoMemory>
    requires good { list_all (λ (x : Bool). x) (map (good_stmt (declared_all signals.now)) body.now) ≡ true }
    requires distinct { AreDistinct (all_cells (declared_all signals.now)) }
    ensures { OnOk result (AddsSteps (declared_all signals.now) steps.old steps.new (map seen_of (all_events (map (flow (declared_all signals.now)) body.now)))) }
{
    for s in body {
        add_steps(alloc, signals, s, steps)?;
    }
    Ok(())
}

#[cycle(steps)]
fn add_arms(
    alloc: Global,
    signals: &[Signal],
    arms: &[FlatArm],
    steps: &mut Items<Step>,
) -> Result<(), NoMemory>
    requires good { are_good_arms (declared_all signals.now) arms.now ≡ true }
    requires distinct { AreDistinct (all_cells (declared_all signals.now)) }
    ensures { OnOk result (AddsSteps (declared_all signals.now) steps.old steps.new (map seen_of (all_events (map (arm_flow (declared_all signals.now)) arms.now)))) }
{
    for arm in arms {
        add_steps(alloc, signals, &arm.body, steps)?;
    }
    Ok(())
}

/// Adds a look at a condition, or at the selector and the labels of a `case`.
fn add_look(
    alloc: Global,
    signals: &[Signal],
    x: &FlatExpr,
    arms: &[FlatArm],
    steps: &mut Items<Step>,
) -> Result<(), NoMemory>
    requires good { is_good (declared_all signals.now) x.now ≡ true }
    requires labels { are_good_arms (declared_all signals.now) arms.now ≡ true }
    requires distinct { AreDistinct (all_cells (declared_all signals.now)) }
    ensures { OnOk result (AddsSteps (declared_all signals.now) steps.old steps.new (look_at ((reading (declared_all signals.now) x.now).reads ++ label_reads (declared_all signals.now) arms.now) ∷ [])) }
{
    let mut reads = Items::new(alloc);
    add_reads(alloc, signals, x, &mut reads)?;
    add_label_reads(alloc, signals, arms, &mut reads)?;
    steps.push(Step {
        reads,
        aims: Items::new(alloc),
        at_once: true,
        place: 0,
    })?;
    Ok(())
}

/// Adds what the labels of a `case` read.
fn add_label_reads(
    alloc: Global,
    signals: &[Signal],
    arms: &[FlatArm],
    reads: &mut Items<Span>,
) -> Result<(), NoMemory>
    requires labels { are_good_arms (declared_all signals.now) arms.now ≡ true }
    requires distinct { AreDistinct (all_cells (declared_all signals.now)) }
    ensures { OnOk result (Adds (declared_all signals.now) reads.old reads.new (label_reads (declared_all signals.now) arms.now)) }
{
    for arm in arms {
        add_all(alloc, signals, arm.labels.as_slice(), reads)?;
    }
    Ok(())
}

/// Adds an assignment.
fn add_write(
    alloc: Global,
    signals: &[Signal],
    t: &FlatTarget,
    x: &FlatExpr,
    at_once: bool,
    place: u64,
    steps: &mut Items<Step>,
) -> Result<(), NoMemory>
    requires good { is_good (declared_all signals.now) x.now ≡ true }
    requires target { are_targets (declared_all signals.now) t.now ≡ true }
    requires distinct { AreDistinct (all_cells (declared_all signals.now)) }
    ensures { OnOk result (AddsSteps (declared_all signals.now) steps.old steps.new (map seen_of (write_flow at_once (pieces (declared_all signals.now) t.now) (reading (declared_all signals.now) x.now) place).events)) }
{
    let mut reads = Items::new(alloc);
    let mut aims = Items::new(alloc);
    add_reads(alloc, signals, x, &mut reads)?;
    add_aims(alloc, signals, t, &mut aims, &mut reads)?;
    steps.push(Step {
        reads,
        aims,
        at_once,
        place,
    })?;
    Ok(())
}
