ghost use Rattle.std.specs.Prelude.{IfOk, IfErr, OnOk};
ghost use Rattle.lv_source.specs.Declarations.{port_names};
ghost use Rattle.lv_flat.specs.Signals.{declared_all};
ghost use Rattle.lv_resolve.specs.Forms.{Anywhere};
ghost use Rattle.lv_links.specs.Linking.{AreLinked};
ghost use Rattle.lv_connections.specs.Joined.{IsPortFault, Joins, JoinsNot};

use crate::connect::add_links;
use crate::told::of_link;
use lv_ast::{Inst, Module};
use lv_bindings::Table;
use lv_bits::Text;
use lv_faults::ScopeError;
use lv_flat::FlatPart;
use lv_links::{Linked, link, list_ports};
use lv_resolve::{Bindings, Place};
use lv_scopes::NameTable;
use std::alloc::Global;

/// The connections of an instance with their ports.
fn linked<'a>(alloc: Global, of: &'a Module, inst: &'a Inst) -> Result<Vec<Linked<'a>>, ScopeError>
    ensures right { IfOk result (λ ls. AreLinked (port_names of.now.ports) inst.now.conns ls.items) }
    ensures wrong { IfErr result (IsPortFault (port_names of.now.ports) inst.now.conns) }
{
    let Ok(names) = list_ports(alloc, &of.ports) else {
        return Err(ScopeError::NoMemory);
    };
    match link(alloc, &names, inst.conns.as_slice()) {
        Err(error) => Err(of_link(error)),
        Ok(links) => Ok(links),
    }
}

/// Adds the parts that the connections of an instance are (IEEE 1364-2005, section 12.3.9), in the scope with this path: `of` is its
/// module, the table has the names of its scope, and `outputs` its outputs. Ok exactly where each connection has a port that no other one
/// has, no node of a connection has a fault UnknownName, NotConstant, ZeroDivisor or Range, and what an output drives is a target; an error
/// is such a fault at its place. `NoMemory` may come at any time, and comes where the table binds a port to no number.
pub fn instance_parts<B: Bindings>(
    alloc: Global,
    path: &Text,
    place: &Place<B>,
    of: &Module,
    inst: &Inst,
    table: &Table,
    outputs: &NameTable,
    into: &mut Vec<FlatPart>,
) -> Result<(), ScopeError>
    ensures right { OnOk result (Anywhere (declared_all place.now.signals.now) (B.numbers place.now.bindings.now) place.now.all.now place.now.early.now (λ here.
        Joins (declared_all place.now.signals.now) here path.now of.now inst.now table.now outputs.now into.old.items into.new.items)) }
    ensures wrong { IfErr result (λ z. Anywhere (declared_all place.now.signals.now) (B.numbers place.now.bindings.now) place.now.all.now place.now.early.now (λ here.
        JoinsNot (declared_all place.now.signals.now) here path.now of.now inst.now table.now outputs.now z)) }
{
    match linked(alloc, of, inst) {
        Err(error) => Err(error),
        Ok(links) => add_links(alloc, path, place, table, outputs, &links, into),
    }
}
