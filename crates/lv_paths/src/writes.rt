ghost use Rattle.std.specs.Prelude.{◌≡◌, ℕ, true, ◌++◌, ◌||◌, Bool, map, flat_map, IfOk, OnOk, All};
ghost use Rattle.std.specs.List.{list_all};
ghost use Rattle.lv_source.specs.Flow.{writes_of};
ghost use Rattle.lv_source.specs.Summary.{Summary};
ghost use Rattle.lv_flat.specs.Cells.{AreDistinct, all_cells};
ghost use Rattle.lv_flat.specs.Signals.{Signals, declared_all};
ghost use Rattle.lv_flat.specs.Executing.{pieces};
ghost use Rattle.lv_flat.specs.Flows.{summary};
ghost use Rattle.lv_flat.specs.Good.{good_stmt, are_targets};
ghost use Rattle.lv_spans.specs.Sets.{Cell, has};
ghost use Rattle.lv_spans.specs.Domain.{IsSpan, IsWithin, spans_have};
ghost use Rattle.lv_extents.specs.Adds.{Adds};
ghost use Rattle.lv_extents.specs.Blocks.{are_good_arms, aim_spans};
ghost use Rattle.lv_paths.specs.Ways.{arm_summary};

use lv_bits::NoMemory;
use lv_extents::{Aim, add_aims};
use lv_flat::{FlatArm, FlatStmt, FlatTarget, Signal};
use lv_spans::{BitSet, Span};
use sqlite_items::Items;
use std::alloc::Global;

/// Adds the bits that a statement may write.
#[cycle(writes)]
pub(crate) fn add_written(
    alloc: Global,
    signals: &[Signal],
    s: &FlatStmt,
    into: &mut Items<Span>,
) -> Result<(), NoMemory>
    requires good { good_stmt (declared_all signals.now) s.now ≡ true }
    requires distinct { AreDistinct (all_cells (declared_all signals.now)) }
    ensures { OnOk result (Adds (declared_all signals.now) into.old into.new (summary (declared_all signals.now) s.now).written) }
{
    match s {
        FlatStmt::Null => Ok(()),
        FlatStmt::Block(body) => {
            add_all_written(alloc, signals, body.as_slice(), into)?;
            Ok(())
        }
        FlatStmt::If(_, a, b) => {
            add_written(alloc, signals, a.get(), into)?;
            if let Some(b) = b {
                add_written(alloc, signals, b.get(), into)?;
            }
            Ok(())
        }
        FlatStmt::Case(_, _, arms) => {
            add_arms_written(alloc, signals, arms.as_slice(), into)?;
            Ok(())
        }
        FlatStmt::Now(t, _, _) => {
            add_target(alloc, signals, t, into)?;
            Ok(())
        }
        FlatStmt::Later(t, _, _) => {
            add_target(alloc, signals, t, into)?;
            Ok(())
        }
    }
}

#[cycle(writes)]
fn add_all_written(
    alloc: Global,
    signals: &[Signal],
    body: &[FlatStmt],
    into: &mut Items<Span>,
) -> Result<(), NoMemory>
    requires good { list_all (λ (x : Bool). x) (map (good_stmt (declared_all signals.now)) body.now) ≡ true }
    requires distinct { AreDistinct (all_cells (declared_all signals.now)) }
    ensures { OnOk result (Adds (declared_all signals.now) into.old into.new (flat_map (λ (p : Summary). p.written) (map (summary (declared_all signals.now)) body.now))) }
{
    for s in body {
        add_written(alloc, signals, s, into)?;
    }
    Ok(())
}

#[cycle(writes)]
fn add_arms_written(
    alloc: Global,
    signals: &[Signal],
    arms: &[FlatArm],
    into: &mut Items<Span>,
) -> Result<(), NoMemory>
    requires good { are_good_arms (declared_all signals.now) arms.now ≡ true }
    requires distinct { AreDistinct (all_cells (declared_all signals.now)) }
    ensures { OnOk result (Adds (declared_all signals.now) into.old into.new (flat_map (λ (p : Summary). p.written) (map (arm_summary (declared_all signals.now)) arms.now))) }
{
    for arm in arms {
        add_written(alloc, signals, &arm.body, into)?;
    }
    Ok(())
}

/// Adds the bits that a target may write.
fn add_target(
    alloc: Global,
    signals: &[Signal],
    t: &FlatTarget,
    into: &mut Items<Span>,
) -> Result<(), NoMemory>
    requires target { are_targets (declared_all signals.now) t.now ≡ true }
    requires distinct { AreDistinct (all_cells (declared_all signals.now)) }
    ensures { OnOk result (Adds (declared_all signals.now) into.old into.new (writes_of (pieces (declared_all signals.now) t.now))) }
{
    let mut reads = Items::new(alloc);
    let mut aims = Items::new(alloc);
    add_aims(alloc, signals, t, &mut aims, &mut reads)?;
    add_bits(aims.as_slice(), into)?;
    Ok(())
}

fn add_bits(aims: &[Aim], into: &mut Items<Span>) -> Result<(), NoMemory>
    ensures { OnOk result (into.new ≡ into.old ++ aim_spans aims.now) }
{
    for aim in aims {
        add_copies(aim.bits.as_slice(), into)?;
    }
    Ok(())
}

fn add_copies(from: &[Span], into: &mut Items<Span>) -> Result<(), NoMemory>
    ensures { OnOk result (into.new ≡ into.old ++ from.now) }
{
    for span in from {
        into.push(*span)?;
    }
    Ok(())
}

/// A set with the bits of these spans too.
pub(crate) fn with_spans(set: BitSet, spans: &[Span]) -> Result<BitSet, NoMemory>
    ensures added { IfOk result (λ r. (q : Cell) (i : ℕ) → has r q i ≡ (has set q i || spans_have spans.now q i)) }
    ensures within { IfOk result (λ r. (S : Signals) → IsWithin S set → All (IsSpan S) spans.now → IsWithin S r) }
{
    let mut made = set;
    for s in spans {
        made = made.add(*s)?;
    }
    Ok(made)
}
