ghost use Rattle.std.specs.Prelude.{◌≡◌, ◌++◌, ◌∷◌, [], map, flat_map, Some, OnOk};
ghost use Rattle.lv_ast.specs.Names.{Name};
ghost use Rattle.lv_source.specs.Constants.{hidden, index_entry};
ghost use Rattle.lv_const.specs.Constants.{declared_entry};
ghost use Rattle.lv_declared.specs.Listing.{declared, all_declared};
ghost use Rattle.lv_entries.specs.Entries.{declared_entries, value_entry};

use lv_bits::{NoMemory, Text, Word};
use lv_const::{Const, Consts, Entry};
use lv_declared::{Declaration, Thing};
use std::alloc::Global;

/// Adds each declared name without a value: it hides what stands around, before it has a value too.
pub fn hide(
    alloc: Global,
    declarations: &[Declaration],
    into: &mut Vec<Entry>,
) -> Result<(), NoMemory>
    ensures { OnOk result (declared_entries into.new.items ≡ declared_entries into.old.items ++ map hidden (all_declared declarations.now)) }
{
    for declaration in declarations {
        let name = declaration.name.name.copy(alloc)?;
        into.push(Entry { name, value: None })?;
    }
    Ok(())
}

fn add_parameter(
    alloc: Global,
    declaration: &Declaration,
    consts: &Consts,
    into: &mut Vec<Entry>,
) -> Result<(), NoMemory>
    ensures { OnOk result (into.new.items ≡ into.old.items ++ value_entry consts.now (declared declaration.now)) }
{
    match declaration.thing {
        Thing::Parameter(_, _, _, _) => {
            let name = declaration.name.name.copy(alloc)?;
            let value = consts.get(&declaration.name.name);
            into.push(Entry { name, value })?;
            Ok(())
        }
        _ => Ok(()),
    }
}

/// Adds each parameter with the value that its name has among these constants.
pub fn add_parameters(
    alloc: Global,
    declarations: &[Declaration],
    consts: &Consts,
    into: &mut Vec<Entry>,
) -> Result<(), NoMemory>
    ensures { OnOk result (into.new.items ≡ into.old.items ++ flat_map (value_entry consts.now) (all_declared declarations.now)) }
{
    for declaration in declarations {
        add_parameter(alloc, declaration, consts, into)?;
    }
    Ok(())
}

/// The constant that an index with this value stands for.
fn index_constant(value: u32) -> Const
    ensures { (name : Name) → declared_entry (record { name = name; value = Some result }) ≡ index_entry name value }
{
    Const {
        word: Word::new(32, u128::from(value)),
        signed: true,
        left: 31,
        right: 0,
    }
}

/// Adds the index of a loop with its value in a turn (IEEE 1364-2005, section 12.4.1).
pub fn add_index(
    alloc: Global,
    index: &Text,
    value: u32,
    into: &mut Vec<Entry>,
) -> Result<(), NoMemory>
    ensures { OnOk result (declared_entries into.new.items ≡ declared_entries into.old.items ++ index_entry index.now value ∷ []) }
{
    let name = index.copy(alloc)?;
    let value = Some(index_constant(value));
    into.push(Entry { name, value })?;
    Ok(())
}
