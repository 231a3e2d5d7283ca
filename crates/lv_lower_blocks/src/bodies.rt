ghost use Rattle.std.specs.Prelude.{◌≡◌, true, OnOk};
ghost use Rattle.std.specs.List.{list_all};
ghost use Rattle.lv_source.specs.Flow.{Event};
ghost use Rattle.lv_flat.specs.Signals.{declared_all};
ghost use Rattle.lv_flat.specs.Cells.{all_cells};
ghost use Rattle.lv_flat.specs.Flows.{flow};
ghost use Rattle.lv_flat.specs.Good.{good_stmt};
ghost use Rattle.lv_lower_exprs.specs.Tables.{IsTable, AreFirsts};
ghost use Rattle.lv_lower_blocks.specs.Running.{Settles, Clocks};

use crate::blocks::execute;
use crate::merge::copy;
use lv_bits::NoMemory;
use lv_flat::{FlatStmt, Signal};
use lv_netlist::Builder;
use std::alloc::Global;

/// Carries out a combinational block (IEEE 1364-2005, 9.9), which has no `<=`.
///
/// `first` has the number of the first cell of each signal, `table` the node of each cell. After `NoMemory` the graph may have more
/// nodes, and the table be any.
pub fn combinational(
    alloc: Global,
    b: &mut Builder,
    signals: &[Signal],
    first: &[u64],
    table: &mut [u64],
    s: &FlatStmt,
) -> Result<(), NoMemory>
    requires good { good_stmt (declared_all signals.now) s.now ≡ true }
    requires once { list_all (λ (e : Event). e.at_once) (flow (declared_all signals.now) s.now).events ≡ true }
    requires first { AreFirsts (declared_all signals.now) first.now }
    requires table { IsTable b.old (all_cells (declared_all signals.now)) table.old }
    ensures { OnOk result (Settles b.old b.new (declared_all signals.now) (all_cells (declared_all signals.now)) table.old table.new s.now) }
{
    let mut none = Vec::new(alloc);
    execute(alloc, b, signals, first, table, none.as_mut_slice(), s)
}

/// Carries out a clocked block on what blocks before it left: `now` has the nodes of the settled values, `done` begins as any table
/// and gets the writes of the block.
///
/// After `NoMemory` the graph may have more nodes, and `done` be any.
pub fn clocked(
    alloc: Global,
    b: &mut Builder,
    signals: &[Signal],
    first: &[u64],
    now: &[u64],
    done: &mut [u64],
    s: &FlatStmt,
) -> Result<(), NoMemory>
    requires good { good_stmt (declared_all signals.now) s.now ≡ true }
    requires first { AreFirsts (declared_all signals.now) first.now }
    requires now { IsTable b.old (all_cells (declared_all signals.now)) now.now }
    requires done { IsTable b.old (all_cells (declared_all signals.now)) done.old }
    ensures { OnOk result (Clocks b.old b.new (declared_all signals.now) (all_cells (declared_all signals.now)) now.now done.old done.new s.now) }
{
    let mut seen = copy(alloc, now)?;
    execute(alloc, b, signals, first, seen.as_mut_slice(), done, s)
}
