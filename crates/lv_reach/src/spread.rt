ghost use Rattle.std.specs.Prelude.{◌≡◌, Bool, true, false, List, length, map, All, IfOk};
ghost use Rattle.lv_source.specs.Names.{Declared};
ghost use Rattle.lv_source.specs.Views.{View};
ghost use Rattle.lv_flat.specs.Cells.{AreDistinct, all_cells};
ghost use Rattle.lv_flat.specs.Signals.{Signals, declared_all};
ghost use Rattle.lv_flat.specs.Judged.{is_good, reading};
ghost use Rattle.lv_spans.specs.Domain.{AreSpansOf, IsSpan, IsWithin};
ghost use Rattle.lv_extents.specs.Extents.{AreExtents};
ghost use Rattle.lv_settles.specs.Orders.{IsOrder};
ghost use Rattle.lv_settles.specs.Rules.{AreRight, signals_in};
ghost use Rattle.lv_reach.specs.Fanout.{IsFanout, DependsOn};
ghost use Rattle.lv_reach.specs.Spreading.{Spreads, IsSpreadAt, IsOrdered, IsStart, IsPassed};

use crate::marked::start;
use crate::sets::{meets, with_spans};
use lv_bits::NoMemory;
use lv_extents::{Extent, add_reads};
use lv_flat::{FlatExpr, Signal};
use lv_spans::{BitSet, Span};
use sqlite_items::Items;
use std::alloc::Global;

/// With what a part drives where it reads a bit of the set.
fn spread(set: BitSet, x: &Extent) -> Result<BitSet, NoMemory>
    ensures { IfOk result (λ r. (S : Signals) → IsWithin S set → All (IsSpan S) x.now.reads → All (IsSpan S) x.now.drives → Spreads S set x.now.reads x.now.drives r) }
{
    if meets(&set, x.reads.as_slice()) {
        let made = with_spans(set, x.drives.as_slice())?;
        Ok(made)
    } else {
        Ok(set)
    }
}

fn spread_at(set: BitSet, extents: &[Extent], k: u64) -> Result<BitSet, NoMemory>
    ensures { IfOk result (λ r. (S : Signals) (vs : List View) → AreExtents S vs extents.now → IsWithin S set → IsSpreadAt S vs k set r) }
{
    match extents.get(k as usize) {
        None => Ok(set),
        Some(x) => {
            let made = spread(set, x)?;
            Ok(made)
        }
    }
}

/// The parts one after another.
fn pass(start: BitSet, extents: &[Extent], order: &[u64]) -> Result<BitSet, NoMemory>
    ensures { IfOk result (λ r. (S : Signals) (vs : List View) (is : Declared → Bool) (marks : List Bool) → AreDistinct (all_cells S) → IsOrdered S vs extents.now order.now →
        IsStart S marks start → marks ≡ map is S → IsPassed S vs is order.now start r (length order.now)) }
{
    let mut set = start;
    for k in order {
        set = spread_at(set, extents, *k)?;
    }
    Ok(set)
}

/// The bits that depend on marked signals through parts without a clock, these signals' own among them. One pass over the parts in
/// an order in which none reads what a later one drives.
pub fn fanout(
    alloc: Global,
    signals: &[Signal],
    extents: &[Extent],
    order: &[u64],
    marks: &[bool],
) -> Result<BitSet, NoMemory>
    requires { AreDistinct (all_cells (declared_all signals.now)) }
    ensures { IfOk result (λ set. (vs : List View) (is : Declared → Bool) → AreExtents (declared_all signals.now) vs extents.now →
        AreRight (signals_in (declared_all signals.now)) vs → IsOrder vs order.now → marks.now ≡ map is (declared_all signals.now) →
        IsFanout (declared_all signals.now) vs is set) }
{
    let first = start(alloc, signals, marks)?;
    let set = pass(first, extents, order)?;
    Ok(set)
}

/// The bits that an expression reads.
fn reads_of(alloc: Global, signals: &[Signal], e: &FlatExpr) -> Result<Items<Span>, NoMemory>
    requires good { is_good (declared_all signals.now) e.now ≡ true }
    requires distinct { AreDistinct (all_cells (declared_all signals.now)) }
    ensures { IfOk result (λ xs. AreSpansOf (declared_all signals.now) (reading (declared_all signals.now) e.now).reads xs) }
{
    let mut spans = Items::new(alloc);
    add_reads(alloc, signals, e, &mut spans)?;
    Ok(spans)
}

/// Whether the expression reads a bit of the set.
pub fn is_dependent(
    alloc: Global,
    signals: &[Signal],
    e: &FlatExpr,
    set: &BitSet,
) -> Result<bool, NoMemory>
    requires good { is_good (declared_all signals.now) e.now ≡ true }
    requires distinct { AreDistinct (all_cells (declared_all signals.now)) }
    ensures yes { IfOk result (λ r. r ≡ true → (vs : List View) (is : Declared → Bool) → IsFanout (declared_all signals.now) vs is set.now →
        DependsOn (signals_in (declared_all signals.now)) vs is (reading (declared_all signals.now) e.now).reads) }
    ensures no { IfOk result (λ r. r ≡ false → (vs : List View) (is : Declared → Bool) → IsFanout (declared_all signals.now) vs is set.now →
        DependsOn (signals_in (declared_all signals.now)) vs is (reading (declared_all signals.now) e.now).reads → ⊥) }
{
    let spans = reads_of(alloc, signals, e)?;
    let r = meets(set, spans.as_slice());
    Ok(r)
}
