ghost use Rattle.std.specs.Prelude.{◌≡◌, ℕ, true, false, ◌&&◌, IfOk, All};
ghost use Rattle.lv_source.specs.Flow.{writes_of};
ghost use Rattle.lv_source.specs.PartRules.{has_twice};
ghost use Rattle.lv_flat.specs.Cells.{AreDistinct, all_cells};
ghost use Rattle.lv_flat.specs.Signals.{Signals, declared_all};
ghost use Rattle.lv_flat.specs.Executing.{pieces};
ghost use Rattle.lv_flat.specs.Good.{good_target};
ghost use Rattle.lv_spans.specs.Sets.{Cell, has};
ghost use Rattle.lv_spans.specs.Domain.{IsSpan, IsWithin, spans_have};
ghost use Rattle.lv_paths.specs.Bits.{MeetsSome, IsTwice};

use crate::writes::with_spans;
use lv_bits::NoMemory;
use lv_extents::{Aim, add_aims};
use lv_flat::{FlatTarget, Signal};
use lv_spans::{BitSet, Span};
use sqlite_items::Items;
use std::alloc::Global;

/// Whether the set has some bit of these spans.
fn meets(set: &BitSet, spans: &[Span]) -> bool
    ensures meet { result ≡ true → (S : Signals) → IsWithin S set.now → All (IsSpan S) spans.now → MeetsSome S set.now spans.now }
    ensures apart { result ≡ false → (q : Cell) (i : ℕ) → (spans_have spans.now q i && has set.now q i) ≡ false }
{
    for s in spans {
        if set.meets(*s) {
            return true;
        }
    }
    false
}

/// Whether two of the aims have a bit in common.
fn share(alloc: Global, aims: &[Aim]) -> Result<bool, NoMemory>
    ensures { IfOk result (λ r. (S : Signals) → IsTwice S aims.now r) }
{
    let mut set = BitSet::new(alloc);
    for aim in aims {
        if meets(&set, aim.bits.as_slice()) {
            return Ok(true);
        }
        set = with_spans(set, aim.bits.as_slice())?;
    }
    Ok(false)
}

/// Whether a target names one bit twice (IEEE 1364-2005, section 6.1). Each of its names costs a look-up.
pub fn names_twice(alloc: Global, signals: &[Signal], target: &FlatTarget) -> Result<bool, NoMemory>
    requires target { good_target (declared_all signals.now) target.now ≡ true }
    requires distinct { AreDistinct (all_cells (declared_all signals.now)) }
    ensures { IfOk result (λ r. r ≡ has_twice (writes_of (pieces (declared_all signals.now) target.now))) }
{
    let mut reads = Items::new(alloc);
    let mut aims = Items::new(alloc);
    add_aims(alloc, signals, target, &mut aims, &mut reads)?;
    let r = share(alloc, aims.as_slice())?;
    Ok(r)
}
