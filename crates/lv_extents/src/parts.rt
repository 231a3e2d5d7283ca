ghost use Rattle.std.specs.Prelude.{◌≡◌, ◌++◌, true, map, flat_map, IfOk, OnOk};
ghost use Rattle.lv_source.specs.Summary.{leaves_latch, exposes_own};
ghost use Rattle.lv_source.specs.PartRules.{has_twice};
ghost use Rattle.lv_source.specs.Flow.{writes_of};
ghost use Rattle.lv_flat.specs.declared.part.FlatBody.TheVariants as bodies;
ghost use Rattle.lv_flat.specs.Cells.{AreDistinct, all_cells};
ghost use Rattle.lv_flat.specs.Signals.{declared_all};
ghost use Rattle.lv_flat.specs.Executing.{pieces};
ghost use Rattle.lv_flat.specs.Flows.{summary};
ghost use Rattle.lv_flat.specs.FlatViews.{flat_view};
ghost use Rattle.lv_flat.specs.Good.{good_stmt, good_target};
ghost use Rattle.lv_flat.specs.Judged.{is_good};
ghost use Rattle.lv_extents.specs.Extents.{way_of, IsExtent};
ghost use Rattle.lv_extents.specs.Blocks.{aim_spans, step_aim_spans, step_spans, flat_way, IsBlock};

use crate::extent::{Aim, Extent, Step, Way};
use crate::reads::add_reads;
use crate::steps::add_steps;
use crate::target::add_aims;
use lv_bits::NoMemory;
use lv_flat::{FlatExpr, FlatPart, FlatStmt, FlatTarget, Signal};
use lv_spans::Span;
use sqlite_items::Items;
use std::alloc::Global;

fn add_spans(from: &[Span], into: &mut Items<Span>) -> Result<(), NoMemory>
    ensures { OnOk result (into.new ≡ into.old ++ from.now) }
{
    for span in from {
        into.push(*span)?;
    }
    Ok(())
}

/// The bits of aims.
fn add_bits(aims: &[Aim], into: &mut Items<Span>) -> Result<(), NoMemory>
    ensures { OnOk result (into.new ≡ into.old ++ aim_spans aims.now) }
{
    for aim in aims {
        add_spans(aim.bits.as_slice(), into)?;
    }
    Ok(())
}

/// The bits of the aims of steps.
fn step_bits(alloc: Global, steps: &[Step]) -> Result<Items<Span>, NoMemory>
    ensures { IfOk result (λ xs. xs ≡ step_aim_spans steps.now) }
{
    let mut into = Items::new(alloc);
    for step in steps {
        add_bits(step.aims.as_slice(), &mut into)?;
    }
    Ok(into)
}

/// What steps read.
fn step_reads(alloc: Global, steps: &[Step]) -> Result<Items<Span>, NoMemory>
    ensures { IfOk result (λ xs. xs ≡ step_spans steps.now) }
{
    let mut into = Items::new(alloc);
    for step in steps {
        add_spans(step.reads.as_slice(), &mut into)?;
    }
    Ok(into)
}

/// The extent of an assignment or of a connection, given whether it names one bit twice (IEEE 1364-2005, section 6.1).
pub fn continuous(
    alloc: Global,
    signals: &[Signal],
    p: &FlatPart,
    t: &FlatTarget,
    x: &FlatExpr,
    twice: bool,
) -> Result<Extent, NoMemory>
    requires is { p.now.body ≡ bodies.Assign t.now x.now }
    requires target { good_target (declared_all signals.now) t.now ≡ true }
    requires value { is_good (declared_all signals.now) x.now ≡ true }
    requires distinct { AreDistinct (all_cells (declared_all signals.now)) }
    requires twice { twice ≡ has_twice (writes_of (pieces (declared_all signals.now) t.now)) }
    ensures { IfOk result (λ e. IsExtent (declared_all signals.now) (flat_view (declared_all signals.now) p.now) e) }
{
    let mut reads = Items::new(alloc);
    let mut aims = Items::new(alloc);
    let mut drives = Items::new(alloc);
    add_reads(alloc, signals, x, &mut reads)?;
    add_aims(alloc, signals, t, &mut aims, &mut reads)?;
    add_bits(aims.as_slice(), &mut drives)?;
    let path = p.path.copy(alloc)?;
    let clocks = Items::from_slice(alloc, p.clocks.as_slice())?;
    Ok(Extent {
        way: Way::Continuous,
        path,
        place: p.place,
        clocks,
        drives,
        reads,
        aims,
        steps: Items::new(alloc),
        latch: false,
        exposed: false,
        twice,
    })
}

/// The extent of a block, given whether some path leaves a bit unwritten that it writes, and whether some path reads one first
/// (IEEE 1364-2005, section 9).
pub fn block(
    alloc: Global,
    signals: &[Signal],
    p: &FlatPart,
    way: Way,
    s: &FlatStmt,
    latch: bool,
    exposed: bool,
) -> Result<Extent, NoMemory>
    requires way { way_of way ≡ flat_way (declared_all signals.now) p.now.body }
    requires is { IsBlock p.now.body s.now }
    requires good { good_stmt (declared_all signals.now) s.now ≡ true }
    requires distinct { AreDistinct (all_cells (declared_all signals.now)) }
    requires latch { latch ≡ leaves_latch (summary (declared_all signals.now) s.now) }
    requires exposed { exposed ≡ exposes_own (summary (declared_all signals.now) s.now) }
    ensures { IfOk result (λ e. IsExtent (declared_all signals.now) (flat_view (declared_all signals.now) p.now) e) }
{
    let mut steps = Items::new(alloc);
    add_steps(alloc, signals, s, &mut steps)?;
    let drives = step_bits(alloc, steps.as_slice())?;
    let reads = step_reads(alloc, steps.as_slice())?;
    let path = p.path.copy(alloc)?;
    let clocks = Items::from_slice(alloc, p.clocks.as_slice())?;
    Ok(Extent {
        way,
        path,
        place: p.place,
        clocks,
        drives,
        reads,
        aims: Items::new(alloc),
        steps,
        latch,
        exposed,
        twice: false,
    })
}
