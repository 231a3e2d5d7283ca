ghost use Rattle.std.specs.Prelude.{◌≡◌, map, flat_map, IfOk, OnOk, ◌++◌};
ghost use Rattle.lv_source.specs.Declarations.{port_names};
ghost use Rattle.lv_source.specs.Scopes.{settable};
ghost use Rattle.lv_declared.specs.Listing.{all_declared};
ghost use Rattle.lv_links.specs.Linking.{idents};

use lv_ast::{Aport, Ident, Ports};
use lv_bits::NoMemory;
use lv_declared::{Declaration, Thing};
use std::alloc::Global;

/// The parameters among these declarations that an instance can set, in order (IEEE 1364-2005, section 12.2).
pub fn list_settable<'a>(
    alloc: Global,
    declarations: &[Declaration<'a>],
) -> Result<Vec<&'a Ident>, NoMemory>
    ensures { IfOk result (λ v. idents v.items ≡ flat_map settable (all_declared declarations.now)) }
{
    let mut names = Vec::new(alloc);
    for declaration in declarations {
        match declaration.thing {
            Thing::Parameter(false, _, _, _) => names.push(declaration.name)?,
            _ => {}
        }
    }
    Ok(names)
}

fn add_names<'a>(list: &mut Vec<&'a Ident>, names: &'a [Ident]) -> Result<(), NoMemory>
    ensures { OnOk result (idents list.new.items ≡ idents list.old.items ++ names.now) }
{
    for name in names {
        list.push(name)?;
    }
    Ok(())
}

fn add_ports<'a>(list: &mut Vec<&'a Ident>, ports: &'a [Aport]) -> Result<(), NoMemory>
    ensures { OnOk result (idents list.new.items ≡ idents list.old.items ++ flat_map (λ a. a.names) ports.now) }
{
    for port in ports {
        add_names(list, port.names.as_slice())?;
    }
    Ok(())
}

/// The ports of a module, in the order of its header (IEEE 1364-2005, section 12.3).
pub fn list_ports<'a>(alloc: Global, ports: &'a Ports) -> Result<Vec<&'a Ident>, NoMemory>
    ensures { IfOk result (λ v. idents v.items ≡ port_names ports.now) }
{
    let mut names = Vec::new(alloc);
    match ports {
        Ports::Absent => {}
        Ports::Empty => {}
        Ports::Names(list) => add_names(&mut names, list.as_slice())?,
        Ports::Declared(list) => add_ports(&mut names, list.as_slice())?,
    }
    Ok(names)
}
