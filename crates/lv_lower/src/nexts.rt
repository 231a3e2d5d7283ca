ghost use Rattle.std.specs.Prelude.{◌≡◌, ◌<◌, true, false, map, length, IsSome, IfSome};
ghost use Rattle.lv_netlist.specs.Net.{no_nodes, node_at, width_at, register_of, with_next};
ghost use Rattle.lv_values.specs.Worlds.{Grows};
ghost use Rattle.lv_lower_exprs.specs.Tables.{IsTable};
ghost use Rattle.lv_lower.specs.Started.{net_from, cell_in};
ghost use Rattle.lv_lower.specs.Nexts.{with_nexts, is_held};

use crate::slot::{Kind, Slot};
use lv_netlist::Builder;

/// Makes the node the next of a register's cell.
fn set_next(b: &mut Builder, slot: &Slot, k: u64, node: u64)
    requires register { is_held slot.now.kind ≡ true → (k < length b.old.nodes) × IsSome (register_of (node_at b.old.nodes k).node) }
    requires within { node < length b.old.nodes }
    requires same { width_at b.old.nodes k ≡ width_at b.old.nodes node }
    ensures held { is_held slot.now.kind ≡ true → IfSome (register_of (node_at b.old.nodes k).node) (λ i. b.new ≡ with_next b.old i node) }
    ensures free { is_held slot.now.kind ≡ false → b.new ≡ b.old }
{
    match slot.kind {
        Kind::Register => b.next(k, node),
        Kind::Input | Kind::Zero => {}
    }
}

/// Makes the node of each register's cell its next.
pub fn set_nexts(b: &mut Builder, slots: &[Slot], done: &[u64])
    requires grown { Grows (net_from no_nodes slots.now) b.old }
    requires table { IsTable b.old (map cell_in slots.now) done.now }
    ensures { b.new ≡ with_nexts b.old slots.now done.now }
{
    for (k, slot) in slots.iter().enumerate() {
        set_next(b, slot, k as u64, done[k]);
    }
}
