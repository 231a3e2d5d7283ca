ghost use Rattle.std.specs.Prelude.{◌≡◌, ◌<◌, ◌≤◌, length, take, IfOk, OnOk};
ghost use Rattle.std.specs.List.{range_with_len};
ghost use Rattle.lv_netlist.specs.Net.{IsNew, IsWidth, no_nodes};
ghost use Rattle.lv_lower.specs.Started.{add_slot, net_from, AreSlots};

use crate::slot::{Kind, Slot};
use lv_bits::{NoMemory, Word};
use lv_netlist::{Builder, Node};
use std::alloc::Global;

/// The node of a cell.
fn add(alloc: Global, b: &mut Builder, slot: &Slot) -> Result<u64, NoMemory>
    requires new { IsNew b.old slot.now.name }
    requires width { IsWidth slot.now.width }
    ensures is { OnOk result (b.new ≡ add_slot b.old slot.now) }
    ensures number { IfOk result (λ at. at ≡ length b.old.nodes) }
{
    match slot.kind {
        Kind::Input => b.input(slot.name.copy(alloc)?, slot.width),
        Kind::Register => b.register(slot.name.copy(alloc)?, slot.width),
        Kind::Zero => b.node(Node::Const(Word::new(slot.width, 0))),
    }
}

/// A node for each cell, by the number of the cell.
pub fn start(alloc: Global, b: &mut Builder, slots: &[Slot]) -> Result<Vec<u64>, NoMemory>
    requires empty { b.old ≡ no_nodes }
    requires slots { AreSlots slots.now }
    ensures is { OnOk result (b.new ≡ net_from no_nodes slots.now) }
    ensures table { IfOk result (λ r. r.items ≡ range_with_len 0 (length slots.now)) }
{
    let mut table = Vec::new(alloc);
    for slot in slots {
        let k = add(alloc, b, slot)?;
        table.push(k)?;
    }
    Ok(table)
}
