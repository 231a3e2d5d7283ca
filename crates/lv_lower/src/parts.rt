ghost use Rattle.std.specs.Prelude.{◌≡◌, ◌<◌, true, length, slice_index_or, OnOk};
ghost use Rattle.lv_flat.specs.Signals.{declared_all};
ghost use Rattle.lv_flat.specs.Cells.{all_cells};
ghost use Rattle.lv_flat.specs.Good.{good_body};
ghost use Rattle.lv_lower_exprs.specs.Tables.{IsTable, AreFirsts};
ghost use Rattle.lv_settles.specs.Orders.{IsOrder};
ghost use Rattle.lv_settles.specs.Rules.{AreRight, signals_in};
ghost use Rattle.lv_lower.specs.Slots.{names_of, views_of};
ghost use Rattle.lv_lower.specs.Carrying.{is_plain, Leaves, Carries};

use lv_bits::NoMemory;
use lv_flat::{Flat, FlatBody, FlatPart, Signal};
use lv_lower_blocks::{assign, combinational};
use lv_netlist::Builder;
use std::alloc::Global;

/// Carries out a part without a clock.
fn carry_one(
    alloc: Global,
    b: &mut Builder,
    signals: &[Signal],
    first: &[u64],
    table: &mut [u64],
    part: &FlatPart,
) -> Result<(), NoMemory>
    requires good { good_body (declared_all signals.now) part.now.body ≡ true }
    requires plain { is_plain (declared_all signals.now) part.now.body ≡ true }
    requires first { AreFirsts (declared_all signals.now) first.now }
    requires table { IsTable b.old (all_cells (declared_all signals.now)) table.old }
    ensures { OnOk result (Leaves b.old b.new (declared_all signals.now) table.old table.new part.now.body) }
{
    match &part.body {
        FlatBody::Assign(target, e) => {
            assign(alloc, b, signals, first, table, target, e.get())?;
            Ok(())
        }
        FlatBody::Combinational(s) => {
            combinational(alloc, b, signals, first, table, s.get())?;
            Ok(())
        }
        FlatBody::Clocked(_, _) => unreachable!(),
    }
}

/// Carries out the parts of an order, one after another. `first` has the number of the first cell of each signal, `table` the node
/// of each cell. After `NoMemory` the graph may have more nodes, and the table be any.
pub fn carry(
    alloc: Global,
    b: &mut Builder,
    flat: &Flat,
    first: &[u64],
    table: &mut [u64],
    order: &[u64],
) -> Result<(), NoMemory>
    requires first { AreFirsts (names_of flat.now) first.now }
    requires table { IsTable b.old (all_cells (names_of flat.now)) table.old }
    requires right { AreRight (signals_in (names_of flat.now)) (views_of flat.now) }
    requires order { IsOrder (views_of flat.now) order.now }
    ensures { OnOk result (Carries b.old b.new (names_of flat.now) (views_of flat.now) table.old table.new order.now) }
{
    for k in order {
        let part = &flat.parts.as_slice()[*k as usize];
        carry_one(alloc, b, flat.signals.as_slice(), first, table, part)?;
    }
    Ok(())
}
