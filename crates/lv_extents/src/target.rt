ghost use Rattle.std.specs.Prelude.{◌≡◌, true, [], ◌∷◌, map, flat_map, OnOk, Bool, List};
ghost use Rattle.std.specs.List.{list_all};
ghost use Rattle.lv_source.specs.Meaning.{index_reads};
ghost use Rattle.lv_source.specs.Effect.{Piece};
ghost use Rattle.lv_source.specs.Views.{aim_of};
ghost use Rattle.lv_flat.specs.Cells.{AreDistinct, all_cells};
ghost use Rattle.lv_source.specs.Parts.{is_declared_sort};
ghost use Rattle.lv_flat.specs.Signals.{declared_all, signal_at};
ghost use Rattle.lv_flat.specs.Judged.{good_selects, judge_select};
ghost use Rattle.lv_flat.specs.Executing.{pieces};
ghost use Rattle.lv_flat.specs.Good.{are_targets};
ghost use Rattle.lv_extents.specs.Adds.{Adds, AddsAims, piece_of, taken};

use crate::extent::Aim;
use crate::reads::add_index_reads;
use crate::run::add_named;
use lv_bits::NoMemory;
use lv_flat::{FlatName, FlatSelect, FlatTarget, Signal};
use lv_lower_exprs::signal_of;
use lv_spans::Span;
use sqlite_items::Items;
use std::alloc::Global;

/// Adds a name with selects to the aims, and what its indices read.
fn add_aim(
    alloc: Global,
    signals: &[Signal],
    name: FlatName,
    ss: &[FlatSelect],
    aims: &mut Items<Aim>,
    reads: &mut Items<Span>,
) -> Result<(), NoMemory>
    requires sort { is_declared_sort (signal_at (declared_all signals.now) name.signal).sort ≡ true }
    requires good { good_selects (signal_at (declared_all signals.now) name.signal) (map (judge_select (declared_all signals.now)) ss.now) ≡ true }
    requires distinct { AreDistinct (all_cells (declared_all signals.now)) }
    ensures aims { OnOk result (AddsAims (declared_all signals.now) aims.old aims.new (aim_of (piece_of (declared_all signals.now) name ss.now) ∷ [])) }
    ensures reads { OnOk result (Adds (declared_all signals.now) reads.old reads.new (index_reads (taken (declared_all signals.now) ss.now))) }
{
    let mut bits = Items::new(alloc);
    let sure = add_index_reads(alloc, signals, ss, reads)?;
    add_named(alloc, signals, name.signal, ss, sure, &mut bits)?;
    let sort = signal_of(signals, name.signal).sort;
    aims.push(Aim {
        sort,
        bits,
        sure,
        place: name.place,
    })?;
    Ok(())
}

/// Adds the names of a target to the aims, from left to right, and what their indices read.
#[cycle(targets)]
pub fn add_aims(
    alloc: Global,
    signals: &[Signal],
    t: &FlatTarget,
    aims: &mut Items<Aim>,
    reads: &mut Items<Span>,
) -> Result<(), NoMemory>
    requires good { are_targets (declared_all signals.now) t.now ≡ true }
    requires distinct { AreDistinct (all_cells (declared_all signals.now)) }
    ensures aims { OnOk result (AddsAims (declared_all signals.now) aims.old aims.new (map aim_of (pieces (declared_all signals.now) t.now))) }
    ensures reads { OnOk result (Adds (declared_all signals.now) reads.old reads.new (flat_map (λ (p : Piece). index_reads p.choices) (pieces (declared_all signals.now) t.now))) }
{
    match t {
        FlatTarget::Signal(name, ss) => {
            add_aim(alloc, signals, *name, ss.as_slice(), aims, reads)?;
            Ok(())
        }
        FlatTarget::Cat(ts) => {
            add_all_aims(alloc, signals, ts.as_slice(), aims, reads)?;
            Ok(())
        }
    }
}

#[cycle(targets)]
fn add_all_aims(
    alloc: Global,
    signals: &[Signal],
    ts: &[FlatTarget],
    aims: &mut Items<Aim>,
    reads: &mut Items<Span>,
) -> Result<(), NoMemory>
    requires good { list_all (λ (x : Bool). x) (map (are_targets (declared_all signals.now)) ts.now) ≡ true }
    requires distinct { AreDistinct (all_cells (declared_all signals.now)) }
    ensures aims { OnOk result (AddsAims (declared_all signals.now) aims.old aims.new (map aim_of (flat_map (λ (ps : List Piece). ps) (map (pieces (declared_all signals.now)) ts.now)))) }
    ensures reads { OnOk result (Adds (declared_all signals.now) reads.old reads.new (flat_map (λ (p : Piece). index_reads p.choices) (flat_map (λ (ps : List Piece). ps) (map (pieces (declared_all signals.now)) ts.now)))) }
{
    for t in ts {
        add_aims(alloc, signals, t, aims, reads)?;
    }
    Ok(())
}
