ghost use Rattle.std.specs.Prelude.{◌≡◌, true, IfOk, OnOk};
ghost use Rattle.lv_flat.specs.Signals.{declared_all};
ghost use Rattle.lv_flat.specs.Cells.{all_cells};
ghost use Rattle.lv_flat.specs.Good.{good_body};
ghost use Rattle.lv_lower_exprs.specs.Tables.{IsTable, AreFirsts};
ghost use Rattle.lv_overlays.specs.Writes.{writes_on, all_writes_on};
ghost use Rattle.lv_lower.specs.Slots.{names_of};
ghost use Rattle.lv_lower.specs.Clocking.{Overwrites, Follows};

use lv_bits::NoMemory;
use lv_flat::{Flat, FlatBody, FlatPart, Signal};
use lv_lower_blocks::clocked;
use lv_netlist::Builder;
use std::alloc::Global;

/// Carries out a part on `done` if it has a clock.
fn clock_one(
    alloc: Global,
    b: &mut Builder,
    signals: &[Signal],
    first: &[u64],
    table: &[u64],
    done: &mut [u64],
    part: &FlatPart,
) -> Result<(), NoMemory>
    requires good { good_body (declared_all signals.now) part.now.body ≡ true }
    requires first { AreFirsts (declared_all signals.now) first.now }
    requires table { IsTable b.old (all_cells (declared_all signals.now)) table.now }
    requires done { IsTable b.old (all_cells (declared_all signals.now)) done.old }
    ensures { OnOk result (Overwrites b.old b.new (declared_all signals.now) table.now done.old done.new (writes_on (declared_all signals.now) part.now.body)) }
{
    match &part.body {
        FlatBody::Clocked(_, s) => {
            clocked(alloc, b, signals, first, table, done, s.get())?;
            Ok(())
        }
        FlatBody::Assign(_, _) => Ok(()),
        FlatBody::Combinational(_) => Ok(()),
    }
}

/// Carries out all parts with a clock, one after another: `table` has the nodes of what all read, `done` gets what they write.
/// After `NoMemory` the graph may have more nodes, and `done` be any.
fn clock(
    alloc: Global,
    b: &mut Builder,
    flat: &Flat,
    first: &[u64],
    table: &[u64],
    done: &mut [u64],
) -> Result<(), NoMemory>
    requires first { AreFirsts (names_of flat.now) first.now }
    requires table { IsTable b.old (all_cells (names_of flat.now)) table.now }
    requires done { IsTable b.old (all_cells (names_of flat.now)) done.old }
    ensures { OnOk result (Overwrites b.old b.new (names_of flat.now) table.now done.old done.new (all_writes_on (names_of flat.now) flat.now.parts)) }
{
    for part in flat.parts.as_slice() {
        clock_one(alloc, b, flat.signals.as_slice(), first, table, done, part)?;
    }
    Ok(())
}

/// The table that the parts with a clock leave of one. After `NoMemory` the graph may have more nodes.
pub fn clocked_table(
    alloc: Global,
    b: &mut Builder,
    flat: &Flat,
    first: &[u64],
    table: &[u64],
) -> Result<Vec<u64>, NoMemory>
    requires first { AreFirsts (names_of flat.now) first.now }
    requires table { IsTable b.old (all_cells (names_of flat.now)) table.now }
    ensures { IfOk result (λ r. Follows b.old b.new (names_of flat.now) table.now r.items (λ v. all_writes_on (names_of flat.now) flat.now.parts v v)) }
{
    let mut done = Vec::new(alloc);
    done.extend_from_slice(table)?;
    clock(alloc, b, flat, first, table, done.as_mut_slice())?;
    Ok(done)
}
