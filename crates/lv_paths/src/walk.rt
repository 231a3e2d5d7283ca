ghost use Rattle.std.specs.Prelude.{◌≡◌, ℕ, true, ◌&&◌, ◌||◌, [], Bool, map, unwrap_or, IfOk, OnOk};
ghost use Rattle.std.specs.List.{list_all};
ghost use Rattle.lv_source.specs.Summary.{all_summaries, write_summary};
ghost use Rattle.lv_flat.specs.Cells.{AreDistinct, all_cells};
ghost use Rattle.lv_flat.specs.Signals.{declared_all};
ghost use Rattle.lv_flat.specs.Judged.{is_good, reading};
ghost use Rattle.lv_flat.specs.Executing.{pieces};
ghost use Rattle.lv_flat.specs.Flows.{summary};
ghost use Rattle.lv_flat.specs.Good.{good_stmt, are_targets};
ghost use Rattle.lv_extents.specs.Blocks.{are_good_arms};
ghost use Rattle.lv_spans.specs.Sets.{Cell};
ghost use Rattle.lv_paths.specs.Bits.{holds, cells_have, IsLogged};
ghost use Rattle.lv_paths.specs.Ways.{Walks, IsFork, arm_summary, first_shared};

use crate::done::{Done, add_spans, add_sure, leave};
use crate::full::may_miss;
use crate::look::{decide, look_at_case};
use crate::open::are_open;
use lv_bits::NoMemory;
use lv_extents::{add_aims, add_reads};
use lv_flat::{FlatArm, FlatExpr, FlatStmt, FlatTarget, Signal};
use lv_spans::{BitSet, Span};
use sqlite_items::Items;
use std::alloc::Global;

/// Behind the ways of a `case`: whether a bit has been read first, and the bits that all ways write, if there is one.
#[derive(Drop)]
struct Fork {
    exposed: bool,
    shared: Option<Items<Span>>,
}

/// Walks over a statement once, whatever the number of paths through it: adds to `done` and to the log the bits that each path
/// writes for sure, and answers whether some path reads one first that the block writes, or that was known before (`exposed`).
///
/// Of an `if` and a `case` each way is walked and undone by its log; what all ways have written is added then.
#[cycle(walk)]
pub(crate) fn walk(
    alloc: Global,
    signals: &[Signal],
    written: &BitSet,
    s: &FlatStmt,
    done: &mut Done,
    log: &mut Items<Span>,
    exposed: bool,
) -> Result<bool, NoMemory>
    requires good { good_stmt (declared_all signals.now) s.now ≡ true }
    requires distinct { AreDistinct (all_cells (declared_all signals.now)) }
    ensures { IfOk result (λ r. Walks (declared_all signals.now) written.now done.old.entries done.new.entries log.old log.new exposed r (summary (declared_all signals.now) s.now)) }
{
    match s {
        FlatStmt::Null => Ok(exposed),
        FlatStmt::Block(body) => {
            let r = walk_block(alloc, signals, written, body.as_slice(), done, log, exposed)?;
            Ok(r)
        }
        FlatStmt::If(x, a, b) => {
            let c = decide(alloc, signals, written, done, x.get(), exposed)?;
            match c.met {
                Some(true) => {
                    let r = walk(alloc, signals, written, a.get(), done, log, c.exposed)?;
                    Ok(r)
                }
                Some(false) => match b {
                    Some(b) => {
                        let r = walk(alloc, signals, written, b.get(), done, log, c.exposed)?;
                        Ok(r)
                    }
                    None => Ok(c.exposed),
                },
                None => {
                    let mut first = Items::new(alloc);
                    let r = walk(
                        alloc,
                        signals,
                        written,
                        a.get(),
                        done,
                        &mut first,
                        c.exposed,
                    )?;
                    let shared = leave(alloc, done, first, None)?;
                    match b {
                        Some(b) => {
                            let mut second = Items::new(alloc);
                            let r = walk(alloc, signals, written, b.get(), done, &mut second, r)?;
                            let shared = leave(alloc, done, second, Some(shared))?;
                            add_spans(done, log, shared.as_slice())?;
                            Ok(r)
                        }
                        None => Ok(r),
                    }
                }
            }
        }
        FlatStmt::Case(wild, x, arms) => {
            let x = x.get();
            let arms = arms.as_slice();
            let look = look_at_case(alloc, signals, written, done, x, arms, exposed)?;
            let can = may_miss(alloc, signals, *wild, x, arms, look.constant)?;
            let fork = walk_arms(alloc, signals, written, arms, done, can, look.exposed)?;
            let r = fork.exposed;
            settle(done, log, fork.shared)?;
            Ok(r)
        }
        FlatStmt::Now(t, x, _) => {
            let r = walk_write(alloc, signals, written, t, x.get(), done, log, exposed)?;
            Ok(r)
        }
        FlatStmt::Later(t, x, _) => {
            let r = walk_write(alloc, signals, written, t, x.get(), done, log, exposed)?;
            Ok(r)
        }
    }
}

#[cycle(walk)]
fn walk_block(
    alloc: Global,
    signals: &[Signal],
    written: &BitSet,
    body: &[FlatStmt],
    done: &mut Done,
    log: &mut Items<Span>,
    exposed: bool,
) -> Result<bool, NoMemory>
    requires good { list_all (λ (x : Bool). x) (map (good_stmt (declared_all signals.now)) body.now) ≡ true }
    requires distinct { AreDistinct (all_cells (declared_all signals.now)) }
    ensures { IfOk result (λ r. Walks (declared_all signals.now) written.now done.old.entries done.new.entries log.old log.new exposed r (all_summaries (map (summary (declared_all signals.now)) body.now))) }
{
    let mut r = exposed;
    for s in body {
        r = walk(alloc, signals, written, s, done, log, r)?;
    }
    Ok(r)
}

/// The arms of a `case`, each walked and undone. `can` says that none of them may be taken.
#[cycle(walk)]
fn walk_arms(
    alloc: Global,
    signals: &[Signal],
    written: &BitSet,
    arms: &[FlatArm],
    done: &mut Done,
    can: bool,
    exposed: bool,
) -> Result<Fork, NoMemory>
    requires good { are_good_arms (declared_all signals.now) arms.now ≡ true }
    requires distinct { AreDistinct (all_cells (declared_all signals.now)) }
    ensures { IfOk result (λ r. IsFork (declared_all signals.now) written.now done.old.entries done.new.entries exposed r.exposed r.shared can (map (arm_summary (declared_all signals.now)) arms.now)) }
{
    let mut fork = start(alloc, can, exposed);
    for arm in arms {
        let mut log = Items::new(alloc);
        let Fork { exposed, shared } = fork;
        let r = walk(alloc, signals, written, &arm.body, done, &mut log, exposed)?;
        let rest = leave(alloc, done, log, shared)?;
        fork = Fork {
            exposed: r,
            shared: Some(rest),
        };
    }
    Ok(fork)
}

/// Before the arms: where none may be taken, nothing is shared.
fn start(alloc: Global, can: bool, exposed: bool) -> Fork
    ensures exposed { result.exposed ≡ exposed }
    ensures shared { result.shared ≡ first_shared can }
{
    if can {
        Fork {
            exposed,
            shared: Some(Items::new(alloc)),
        }
    } else {
        Fork {
            exposed,
            shared: None,
        }
    }
}

/// Adds what all ways have written.
fn settle(
    done: &mut Done,
    log: &mut Items<Span>,
    shared: Option<Items<Span>>,
) -> Result<(), NoMemory>
    ensures done { OnOk result ((q : Cell) (i : ℕ) → holds done.new.entries q i ≡ (holds done.old.entries q i || cells_have (unwrap_or shared []) q i)) }
    ensures logged { OnOk result (IsLogged done.old.entries done.new.entries log.old log.new) }
{
    match shared {
        None => Ok(()),
        Some(spans) => {
            add_spans(done, log, spans.as_slice())?;
            Ok(())
        }
    }
}

/// An assignment: what it reads, its indices too, and then what it writes for sure (IEEE 1364-2005, 9.2).
fn walk_write(
    alloc: Global,
    signals: &[Signal],
    written: &BitSet,
    t: &FlatTarget,
    x: &FlatExpr,
    done: &mut Done,
    log: &mut Items<Span>,
    exposed: bool,
) -> Result<bool, NoMemory>
    requires good { is_good (declared_all signals.now) x.now ≡ true }
    requires target { are_targets (declared_all signals.now) t.now ≡ true }
    requires distinct { AreDistinct (all_cells (declared_all signals.now)) }
    ensures { IfOk result (λ r. Walks (declared_all signals.now) written.now done.old.entries done.new.entries log.old log.new exposed r (write_summary (pieces (declared_all signals.now) t.now) (reading (declared_all signals.now) x.now))) }
{
    let mut reads = Items::new(alloc);
    let mut aims = Items::new(alloc);
    add_reads(alloc, signals, x, &mut reads)?;
    add_aims(alloc, signals, t, &mut aims, &mut reads)?;
    let r = are_open(signals, written, done, reads.as_slice(), exposed);
    add_sure(done, log, aims.as_slice())?;
    Ok(r)
}
