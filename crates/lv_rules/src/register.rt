// Which signals are registers.
ghost use Rattle.std.specs.Prelude.{◌≡◌, List, not, ◌&&◌, map, IfOk};
ghost use Rattle.lv_source.specs.Names.{is_variable_sort};
ghost use Rattle.lv_source.specs.Views.{View, is_register_view};
ghost use Rattle.lv_flat.specs.Cells.{AreDistinct, all_cells};
ghost use Rattle.lv_flat.specs.Signals.{declared_all, sort_of};
ghost use Rattle.lv_extents.specs.Extents.{AreExtents};
ghost use Rattle.lv_rules.specs.Drives.{AreUnmarked};

use crate::marks;
use crate::marks::Class;
use lv_bits::NoMemory;
use lv_extents::Extent;
use lv_flat::{Signal, Sort};
use std::alloc::Global;

/// A variable that isn't marked.
fn is_unmarked(sort: Sort, marked: bool) -> bool
    ensures { result ≡ (is_variable_sort (sort_of sort) && not marked) }
{
    match sort {
        Sort::Variable => !marked,
        _ => false,
    }
}

/// Of each signal whether it is a variable that isn't marked.
fn unmarked(alloc: Global, signals: &[Signal], marks: &[bool]) -> Result<Vec<bool>, NoMemory>
    ensures { IfOk result (λ r. AreUnmarked (declared_all signals.now) marks.now r.items) }
{
    let mut flags = Vec::new(alloc);
    for (k, signal) in signals.iter().enumerate() {
        flags.push(is_unmarked(signal.sort, marks::is_marked(marks, k as u64)))?;
    }
    Ok(flags)
}

/// Of each signal and clock whether it is a register, a variable that no combinational block drives.
pub fn registers(
    alloc: Global,
    signals: &[Signal],
    extents: &[Extent],
) -> Result<Vec<bool>, NoMemory>
    requires { AreDistinct (all_cells (declared_all signals.now)) }
    ensures { IfOk result (λ r. (vs : List View) → AreExtents (declared_all signals.now) vs extents.now → r.items ≡ map (is_register_view vs) (declared_all signals.now)) }
{
    let driven = marks::driven_by(alloc, signals.len(), extents, Class::Combinational)?;
    let flags = unmarked(alloc, signals, driven.as_slice())?;
    Ok(flags)
}
