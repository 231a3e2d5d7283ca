ghost use Rattle.std.specs.Prelude.{◌≡◌};
ghost use Rattle.lv_flat.specs.Signals.{declared_all};
ghost use Rattle.lv_resolve.specs.Indices.{Throughout};
ghost use Rattle.lv_parts.specs.Items.{ItemAnswer, AddsNothing};

use crate::always::always;
use crate::assign::assigns_at;
use crate::error::PartsError;
use crate::net::nets_at;
use lv_ast::Item;
use lv_bits::Text;
use lv_const::Consts;
use lv_flat::{FlatPart, Signal};
use lv_resolve::Indices;
use std::alloc::Global;

/// Adds the parts of an item of the scope with this path: the nets that have values, each at the width of the net, the continuous
/// assignments, or the block (IEEE 1364-2005, sections 6.1 and 9.9). Ok exactly where the item has no fault, but for those of the header
/// of a generate loop; an error is a fault of the item at its place. Instances and generate loops have no parts of their own. `NoMemory`
/// may come at any time.
pub fn item_parts<B: Indices>(
    alloc: Global,
    path: &Text,
    signals: &[Signal],
    bindings: &B,
    all: &mut Consts,
    early: &mut Consts,
    item: &Item,
    into: &mut Vec<FlatPart>,
) -> Result<(), PartsError>
    ensures all { all.new ≡ all.old }
    ensures early { early.new ≡ early.old }
    ensures none { AddsNothing item.now into.old.items into.new.items result }
    ensures right { Throughout (declared_all signals.now) (B.numbers bindings.now) (B.indices bindings.now) all.old early.old (λ here.
        ItemAnswer (declared_all signals.now) here path.now item.now into.old.items into.new.items result) }
{
    match item {
        Item::Wire(_, _, names) => nets_at(
            alloc,
            path,
            signals,
            bindings,
            all,
            early,
            names.as_slice(),
            into,
        ),
        Item::Assign(list) => assigns_at(
            alloc,
            path,
            signals,
            bindings,
            all,
            early,
            list.as_slice(),
            into,
        ),
        Item::Always(watch, stmt, at) => always(
            alloc, path, signals, bindings, all, early, watch, stmt, *at, into,
        ),
        _ => Ok(()),
    }
}
