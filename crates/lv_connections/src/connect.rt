ghost use Rattle.std.specs.Prelude.{◌≡◌, IfErr, OnOk};
ghost use Rattle.lv_flat.specs.Signals.{declared_all};
ghost use Rattle.lv_resolve.specs.Forms.{Anywhere};
ghost use Rattle.lv_links.specs.Linking.{link_of, all_links};
ghost use Rattle.lv_connections.specs.Joined.{bound_port, JoinsOne, JoinsNotOne, JoinsAll, JoinsNone};

use crate::told::of_part;
use lv_bindings::{Binding, Table};
use lv_bits::Text;
use lv_faults::ScopeError;
use lv_flat::FlatPart;
use lv_links::Linked;
use lv_resolve::{Bindings, Place};
use lv_scopes::NameTable;
use lv_sinks::{Port, link_part};
use std::alloc::Global;

/// The port of this name, where it is bound to a signal or a clock.
fn port_of(table: &Table, outputs: &NameTable, name: &[u8]) -> Option<Port>
    ensures { result ≡ bound_port table.now outputs.now name.now }
{
    match table.find(name) {
        Some(Binding::Signal(signal)) => Some(Port {
            signal,
            output: outputs.find(name).is_some(),
        }),
        Some(Binding::Constant) => None,
        Some(Binding::Index(_)) => None,
        Some(Binding::Other) => None,
        None => None,
    }
}

/// Adds the part that a connection is.
fn add_link<B: Bindings>(
    alloc: Global,
    path: &Text,
    place: &Place<B>,
    port: Port,
    link: &Linked,
    into: &mut Vec<FlatPart>,
) -> Result<(), ScopeError>
    ensures right { OnOk result (Anywhere (declared_all place.now.signals.now) (B.numbers place.now.bindings.now) place.now.all.now place.now.early.now (λ here.
        JoinsOne (declared_all place.now.signals.now) here path.now port (link_of link.now) into.old.items into.new.items)) }
    ensures wrong { IfErr result (λ z. Anywhere (declared_all place.now.signals.now) (B.numbers place.now.bindings.now) place.now.all.now place.now.early.now (λ here.
        JoinsNotOne (declared_all place.now.signals.now) here path.now port (link_of link.now) z)) }
{
    match link_part(alloc, path, place, port, link) {
        Err(error) => Err(of_part(error)),
        Ok(None) => Ok(()),
        Ok(Some(part)) => {
            let Ok(_) = into.push(part) else {
                return Err(ScopeError::NoMemory);
            };
            Ok(())
        }
    }
}

/// Adds the parts that these connections are.
pub fn add_links<B: Bindings>(
    alloc: Global,
    path: &Text,
    place: &Place<B>,
    table: &Table,
    outputs: &NameTable,
    links: &[Linked],
    into: &mut Vec<FlatPart>,
) -> Result<(), ScopeError>
    ensures right { OnOk result (Anywhere (declared_all place.now.signals.now) (B.numbers place.now.bindings.now) place.now.all.now place.now.early.now (λ here.
        JoinsAll (declared_all place.now.signals.now) here path.now table.now outputs.now (all_links links.now) into.old.items into.new.items)) }
    ensures wrong { IfErr result (λ z. Anywhere (declared_all place.now.signals.now) (B.numbers place.now.bindings.now) place.now.all.now place.now.early.now (λ here.
        JoinsNone (declared_all place.now.signals.now) here path.now table.now outputs.now (all_links links.now) z)) }
{
    for link in links {
        let Some(port) = port_of(table, outputs, link.port.name.bytes()) else {
            return Err(ScopeError::NoMemory);
        };
        if let Err(error) = add_link(alloc, path, place, port, link, into) {
            return Err(error);
        }
    }
    Ok(())
}
