ghost use Rattle.std.specs.Prelude.{◌≡◌, ℕ, ◌+◌, ◌<◌, length, map, slice_index, IfOk};
ghost use Rattle.lv_unroll.specs.Slots.{GivesNumbers, AreSlots};
ghost use Rattle.lv_unroll.specs.Entries.{numbers_by, entry_length, entries_with, ArePacked, ArePorts, IsTable, GivesEntries};

use crate::copies::at;
use crate::slots::{Slot, append};
use crate::wires::wide;
use lv_bits::NoMemory;
use lv_netlist::Builder;
use std::alloc::Global;

/// A node that says whether the port retires, and the nodes of what it then shows.
pub struct Port {
    pub retire: u64,
    pub contract: Vec<u64>,
}

impl Drop for Port {
    fn drop(self) {
        let Port {
            retire: _,
            contract,
        } = self;
        drop(contract);
    }
}

/// Nodes of 128 bits with the numbers of these nodes of a graph, by the table of their copies.
pub fn wide_values(
    alloc: Global,
    b: &mut Builder,
    nodes: &[u64],
    table: &[u64],
) -> Result<Vec<u64>, NoMemory>
    requires table { IsTable b.old table.now }
    requires nodes { (i : ℕ) → i < length nodes.now → slice_index nodes.now i < length table.now }
    ensures { IfOk result (λ vs.
        GivesNumbers b.old b.new (length nodes.now) vs.items (λ ws. map (numbers_by b.old ws table.now) nodes.now)) }
{
    let mut values = Vec::new(alloc);
    for k in 0..nodes.len() as u64 {
        let node = at(nodes, k);
        let value = wide(b, at(table, node))?;
        values.reserve(1)?;
        values.push_reserved(value);
    }
    Ok(values)
}

/// The entries with those of one more cycle behind them: one of each port whose `retire` isn't 0 in it, in the order of the ports.
///
/// The table has the copies of the cycle. As many places more as there are ports. All ports show equally many nodes.
pub fn append_row(
    alloc: Global,
    b: &mut Builder,
    slots: Vec<Slot>,
    ports: &[Port],
    table: &[u64],
) -> Result<Vec<Slot>, NoMemory>
    requires slots { AreSlots b.old (entry_length ports.now) slots.items }
    requires packed { ArePacked b.old slots.items }
    requires ports { ArePorts (length table.now) ports.now }
    requires table { IsTable b.old table.now }
    ensures { IfOk result (λ out.
        GivesEntries b.old b.new (entry_length ports.now) (length slots.items + length ports.now) out.items
        (entries_with b.old slots.items ports.now table.now)) }
{
    let mut all = slots;
    for port in ports {
        let values = wide_values(alloc, b, port.contract.as_slice(), table)?;
        let on = at(table, port.retire);
        all = append(alloc, b, all.as_slice(), on, values.as_slice())?;
    }
    Ok(all)
}
