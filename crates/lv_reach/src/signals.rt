ghost use Rattle.std.specs.Prelude.{◌≡◌, ℕ, ◌&&◌, ◌||◌, map, List, All, IfOk};
ghost use Rattle.lv_source.specs.Names.{is_input_sort, is_variable_sort};
ghost use Rattle.lv_source.specs.Views.{View, is_register_view, is_combinational};
ghost use Rattle.lv_flat.specs.Cells.{AreDistinct, all_cells};
ghost use Rattle.lv_flat.specs.Signals.{Signals, declared, declared_all, signal_at};
ghost use Rattle.lv_spans.specs.Sets.{Cell, has};
ghost use Rattle.lv_spans.specs.Domain.{IsSpan, IsWithin, spans_have};
ghost use Rattle.lv_extents.specs.declared.extent.Extent.{Extent};
ghost use Rattle.lv_extents.specs.Extents.{AreExtents, way_of};
ghost use Rattle.lv_reach.specs.Spreading.{IsDrivenSet};

use crate::marked::whole;
use crate::sets::with_spans;
use lv_bits::NoMemory;
use lv_extents::{Extent, Way};
use lv_flat::{Signal, Sort};
use lv_spans::BitSet;
use std::alloc::Global;

/// Of each signal or clock whether it is an input.
pub fn inputs(alloc: Global, signals: &[Signal]) -> Result<Vec<bool>, NoMemory>
    ensures { IfOk result (λ r. r.items ≡ map (λ x. is_input_sort x.sort) (declared_all signals.now)) }
{
    let mut flags = Vec::new(alloc);
    for signal in signals {
        flags.push(is_input(signal))?;
    }
    Ok(flags)
}

fn is_input(signal: &Signal) -> bool
    ensures { result ≡ is_input_sort (declared signal.now).sort }
{
    matches!(signal.sort, Sort::Input)
}

fn is_variable(signal: &Signal) -> bool
    ensures { result ≡ is_variable_sort (declared signal.now).sort }
{
    matches!(signal.sort, Sort::Variable)
}

fn is_combinational(way: Way) -> bool
    ensures { result ≡ is_combinational (way_of way) }
{
    matches!(way, Way::Combinational)
}

fn with_drives(set: BitSet, x: &Extent) -> Result<BitSet, NoMemory>
    ensures added { IfOk result (λ r. (q : Cell) (i : ℕ) → has r q i ≡ (has set q i || (is_combinational (way_of x.now.way) && spans_have x.now.drives q i))) }
    ensures within { IfOk result (λ r. (S : Signals) → IsWithin S set → All (IsSpan S) x.now.drives → IsWithin S r) }
{
    if is_combinational(x.way) {
        let made = with_spans(set, x.drives.as_slice())?;
        Ok(made)
    } else {
        Ok(set)
    }
}

/// The bits that combinational blocks drive.
fn driven(alloc: Global, extents: &[Extent]) -> Result<BitSet, NoMemory>
    ensures { IfOk result (IsDrivenSet extents.now) }
{
    let mut set = BitSet::new(alloc);
    for x in extents {
        set = with_drives(set, x)?;
    }
    Ok(set)
}

fn is_register(driven: &BitSet, k: u64, signal: &Signal) -> bool
    ensures { (S : Signals) (vs : List View) (xs : List Extent) → AreDistinct (all_cells S) → AreExtents S vs xs → IsDrivenSet xs driven.now →
        signal_at S k ≡ declared signal.now → result ≡ is_register_view vs (declared signal.now) }
{
    if is_variable(signal) {
        let met = driven.meets(whole(k, signal));
        !met
    } else {
        false
    }
}

/// Of each signal or clock whether it is a register: a variable that no combinational block drives.
pub fn registers(
    alloc: Global,
    signals: &[Signal],
    extents: &[Extent],
) -> Result<Vec<bool>, NoMemory>
    requires { AreDistinct (all_cells (declared_all signals.now)) }
    ensures { IfOk result (λ r. (vs : List View) → AreExtents (declared_all signals.now) vs extents.now → r.items ≡ map (is_register_view vs) (declared_all signals.now)) }
{
    let set = driven(alloc, extents)?;
    let mut flags = Vec::new(alloc);
    for (k, signal) in signals.iter().enumerate() {
        flags.push(is_register(&set, k as u64, signal))?;
    }
    Ok(flags)
}
