ghost use Rattle.std.specs.Prelude.{◌≡◌, List, ◌++◌, ◌∷◌, [], bytes_eq, IfOk, OnOk};
ghost use Rattle.std.specs.List.{list_any};
ghost use Rattle.lv_ast.specs.Names.{Name};
ghost use Rattle.lv_source.specs.Declarations as s;
ghost use Rattle.lv_source.specs.Declarations.{declared_as};
ghost use Rattle.lv_source.specs.ScopeRules.{listed_ports};
ghost use Rattle.lv_source.specs.Scopes as scopes;
ghost use Rattle.lv_scopes.specs.NameLists.{listed};
ghost use Rattle.lv_declared.specs.Listing.{declared, all_declared};
ghost use Rattle.lv_repeats.specs.Named.{AreOutputs, AreListed, ident_names};

use lv_ast::{Ident, Ports};
use lv_bits::NoMemory;
use lv_declared::{Declaration, Thing};
use lv_scopes::NameTable;
use std::alloc::Global;

fn is_output(declaration: &Declaration) -> bool
    ensures { result ≡ scopes.is_output (declared declaration.now) }
{
    match declaration.thing {
        Thing::Direction(output, _, _, _) => output,
        _ => false,
    }
}

/// The name of one more declaration, if it is an output.
fn add_output(
    names: &mut NameTable,
    alloc: Global,
    declaration: &Declaration,
) -> Result<(), NoMemory>
    ensures { OnOk result ((ds : List s.Declaration) → AreOutputs ds names.old → AreOutputs (ds ++ declared declaration.now ∷ []) names.new) }
{
    if !is_output(declaration) {
        return Ok(());
    }
    match names.add(alloc, declaration.name.name.bytes()) {
        Err(_) => Err(NoMemory),
        Ok(_) => Ok(()),
    }
}

/// The names of the outputs among the declarations of a scope.
pub fn outputs(alloc: Global, declarations: &[Declaration]) -> Result<NameTable, NoMemory>
    ensures { IfOk result (λ t. (name : Name) → list_any (bytes_eq name) (listed t) ≡
        list_any scopes.is_output (declared_as name (all_declared declarations.now))) }
{
    let mut names = NameTable::new(alloc);
    for declaration in declarations {
        add_output(&mut names, alloc, declaration)?;
    }
    Ok(names)
}

/// One more name.
fn add_name(names: &mut NameTable, alloc: Global, name: &Ident) -> Result<(), NoMemory>
    ensures { OnOk result ((ns : List Name) → AreListed ns names.old → AreListed (ns ++ name.now.name ∷ []) names.new) }
{
    match names.add(alloc, name.name.bytes()) {
        Err(_) => Err(NoMemory),
        Ok(_) => Ok(()),
    }
}

/// A table of these names.
fn table_of(alloc: Global, list: &[Ident]) -> Result<NameTable, NoMemory>
    ensures { IfOk result (AreListed (ident_names list.now)) }
{
    let mut names = NameTable::new(alloc);
    for name in list {
        add_name(&mut names, alloc, name)?;
    }
    Ok(names)
}

/// The names that are listed as ports, of which the directions stand among the declarations.
pub(crate) fn listed_names(alloc: Global, ports: &Ports) -> Result<NameTable, NoMemory>
    ensures { IfOk result (AreListed (listed_ports ports.now)) }
{
    match ports {
        Ports::Names(names) => table_of(alloc, names.as_slice()),
        _ => Ok(NameTable::new(alloc)),
    }
}

/// Whether the table has a name.
pub(crate) fn has_name(names: &NameTable, name: &[u8]) -> bool
    ensures { result ≡ list_any (bytes_eq name.now) (listed names.now) }
{
    match names.find(name) {
        None => false,
        Some(_) => true,
    }
}
