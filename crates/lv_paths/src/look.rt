ghost use Rattle.std.specs.Prelude.{◌≡◌, ◌++◌, true, IfOk, OnOk};
ghost use Rattle.std.specs.List.{list_all};
ghost use Rattle.lv_source.specs.Effect.{Label};
ghost use Rattle.lv_flat.specs.Cells.{AreDistinct, all_cells};
ghost use Rattle.lv_flat.specs.Signals.{declared_all};
ghost use Rattle.lv_flat.specs.Judged.{is_good, reading};
ghost use Rattle.lv_extents.specs.Adds.{Adds};
ghost use Rattle.lv_extents.specs.Blocks.{are_good_arms, label_reads};
ghost use Rattle.lv_paths.specs.Bits.{IsExposed};
ghost use Rattle.lv_paths.specs.Fits.{all_labels};
ghost use Rattle.lv_paths.specs.Ways.{IsDecided};

use crate::done::Done;
use crate::open::are_open;
use lv_bits::NoMemory;
use lv_extents::{add_all, add_reads, constant_value};
use lv_flat::{FlatArm, FlatExpr, Signal};
use lv_lower_exprs::own;
use lv_spans::{BitSet, Span};
use sqlite_items::Items;
use std::alloc::Global;

/// Behind a look: whether a bit has been read first, and whether what was looked at is constant.
#[derive(Clone, Copy)]
pub(crate) struct Look {
    pub exposed: bool,
    pub constant: bool,
}

/// Adds what the labels of a `case` read, and answers whether all are constant.
fn add_label_reads(
    alloc: Global,
    signals: &[Signal],
    arms: &[FlatArm],
    reads: &mut Items<Span>,
) -> Result<bool, NoMemory>
    requires labels { are_good_arms (declared_all signals.now) arms.now ≡ true }
    requires distinct { AreDistinct (all_cells (declared_all signals.now)) }
    ensures reads { OnOk result (Adds (declared_all signals.now) reads.old reads.new (label_reads (declared_all signals.now) arms.now)) }
    ensures constant { IfOk result (λ c. c ≡ list_all (λ (l : Label). l.reading.constant) (all_labels (declared_all signals.now) arms.now)) }
{
    let mut all = true;
    for arm in arms {
        let x = add_all(alloc, signals, arm.labels.as_slice(), reads)?;
        all = all & x;
    }
    Ok(all)
}

/// Looks at a condition.
fn look_at_condition(
    alloc: Global,
    signals: &[Signal],
    written: &BitSet,
    done: &Done,
    x: &FlatExpr,
    exposed: bool,
) -> Result<Look, NoMemory>
    requires good { is_good (declared_all signals.now) x.now ≡ true }
    requires distinct { AreDistinct (all_cells (declared_all signals.now)) }
    ensures exposed { IfOk result (λ r. IsExposed (declared_all signals.now) written.now done.now.entries exposed r.exposed (reading (declared_all signals.now) x.now).reads) }
    ensures constant { IfOk result (λ r. r.constant ≡ (reading (declared_all signals.now) x.now).constant) }
{
    let mut reads = Items::new(alloc);
    let constant = add_reads(alloc, signals, x, &mut reads)?;
    let exposed = are_open(signals, written, done, reads.as_slice(), exposed);
    Ok(Look { exposed, constant })
}

/// Looks at the selector and the labels of a `case`. The answer is whether the labels are constant.
pub(crate) fn look_at_case(
    alloc: Global,
    signals: &[Signal],
    written: &BitSet,
    done: &Done,
    x: &FlatExpr,
    arms: &[FlatArm],
    exposed: bool,
) -> Result<Look, NoMemory>
    requires good { is_good (declared_all signals.now) x.now ≡ true }
    requires labels { are_good_arms (declared_all signals.now) arms.now ≡ true }
    requires distinct { AreDistinct (all_cells (declared_all signals.now)) }
    ensures exposed { IfOk result (λ r. IsExposed (declared_all signals.now) written.now done.now.entries exposed r.exposed ((reading (declared_all signals.now) x.now).reads ++ label_reads (declared_all signals.now) arms.now)) }
    ensures constant { IfOk result (λ r. r.constant ≡ list_all (λ (l : Label). l.reading.constant) (all_labels (declared_all signals.now) arms.now)) }
{
    let mut reads = Items::new(alloc);
    add_reads(alloc, signals, x, &mut reads)?;
    let constant = add_label_reads(alloc, signals, arms, &mut reads)?;
    let exposed = are_open(signals, written, done, reads.as_slice(), exposed);
    Ok(Look { exposed, constant })
}

/// Behind a condition: whether a bit has been read first, and whether the condition is met, where it is constant.
#[derive(Clone, Copy)]
pub(crate) struct Condition {
    pub exposed: bool,
    pub met: Option<bool>,
}

/// Looks at a condition, and decides it where it is constant (IEEE 1364-2005, 9.4).
pub(crate) fn decide(
    alloc: Global,
    signals: &[Signal],
    written: &BitSet,
    done: &Done,
    x: &FlatExpr,
    exposed: bool,
) -> Result<Condition, NoMemory>
    requires good { is_good (declared_all signals.now) x.now ≡ true }
    requires distinct { AreDistinct (all_cells (declared_all signals.now)) }
    ensures exposed { IfOk result (λ r. IsExposed (declared_all signals.now) written.now done.now.entries exposed r.exposed (reading (declared_all signals.now) x.now).reads) }
    ensures decided { IfOk result (λ r. IsDecided (reading (declared_all signals.now) x.now) r.met) }
{
    let look = look_at_condition(alloc, signals, written, done, x, exposed)?;
    if !look.constant {
        return Ok(Condition {
            exposed: look.exposed,
            met: None,
        });
    }
    let of = own(signals, x);
    let code = constant_value(alloc, signals, x, of.0, of.1)?;
    Ok(Condition {
        exposed: look.exposed,
        met: Some(code != 0),
    })
}
