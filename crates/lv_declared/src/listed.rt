ghost use Rattle.std.specs.Prelude.{◌≡◌, ◌++◌, ◌∷◌, [], flat_map, IfOk, OnOk};
ghost use Rattle.lv_ast.specs.Trees.{spread};
ghost use Rattle.lv_source.specs.Declarations.{of_item, of_ports};
ghost use Rattle.lv_declared.specs.Listing.{all_declared};
ghost use Rattle.lv_declared.specs.Lists.{Adds, IsModule, IsBlock};

use crate::add::{
    add_groups, add_insts, add_names, add_nets, add_params, add_port, add_ports, add_regs,
};
use crate::declaration::{Declaration, Thing};
use crate::labels::add_labels;
use lv_ast::{Item, Module, Ports};
use lv_bits::NoMemory;
use std::alloc::Global;

/// An item, and how many declarations stand before it.
#[derive(Clone, Copy)]
pub struct Counted<'a> {
    pub before: usize,
    pub item: &'a Item,
}

/// The declarations and the items of a module, or of a generate block, with those of `generate` in their place.
pub struct Listed<'a> {
    /// How many of the declarations stand before the items.
    pub header: usize,
    pub declarations: Vec<Declaration<'a>>,
    pub items: Vec<Counted<'a>>,
}

impl<'a> Drop for Listed<'a> {
    fn drop(self) {
        let Listed {
            header: _,
            declarations,
            items,
        } = self;
        drop(declarations);
        drop(items);
    }
}

/// What an item declares.
fn add_item<'a>(list: &mut Vec<Declaration<'a>>, item: &'a Item) -> Result<(), NoMemory>
    ensures { OnOk result (all_declared list.new.items ≡ all_declared list.old.items ++ of_item item.now) }
{
    match item {
        Item::Port(port) => add_port(list, port),
        Item::Wire(signed, range, names) => add_nets(list, *signed, range, names.as_slice()),
        Item::Reg(signed, range, names) => add_regs(list, *signed, range, names.as_slice()),
        Item::Index(genvar, names) => add_names(list, Thing::Index(*genvar), names.as_slice()),
        Item::Params(local, params) => add_params(list, *local, params),
        Item::Assign(_) => Ok(()),
        Item::Always(_, stmt, _) => add_labels(list, stmt),
        Item::Instance(_, _, insts) => add_insts(list, insts.as_slice()),
        Item::Generate(_) => Ok(()),
        Item::Loop(_, _, _, _, _, label, _) => {
            list.push(Declaration {
                name: label,
                thing: Thing::Label,
            })?;
            Ok(())
        }
    }
}

/// An item behind those that stand there.
fn add_counted<'a>(listed: &mut Listed<'a>, item: &'a Item) -> Result<(), NoMemory>
    ensures { OnOk result (Adds listed.old listed.new (item.now ∷ [])) }
{
    let before = listed.declarations.len();
    listed.items.push(Counted { before, item })?;
    add_item(&mut listed.declarations, item)
}

/// An item, or those of a `generate` in its place.
#[cycle(spread)]
fn add_spread<'a>(listed: &mut Listed<'a>, item: &'a Item) -> Result<(), NoMemory>
    ensures { OnOk result (Adds listed.old listed.new (spread item.now)) }
{
    match item {
        Item::Generate(items) => add_all(listed, items.as_slice()),
        _ => add_counted(listed, item),
    }
}

#[cycle(spread)]
fn add_all<'a>(listed: &mut Listed<'a>, items: &'a [Item]) -> Result<(), NoMemory>
    ensures { OnOk result (Adds listed.old listed.new (flat_map spread items.now)) }
{
    for item in items {
        add_spread(listed, item)?;
    }
    Ok(())
}

/// The ports that a header declares.
fn add_header<'a>(list: &mut Vec<Declaration<'a>>, ports: &'a Ports) -> Result<(), NoMemory>
    ensures { OnOk result (all_declared list.new.items ≡ all_declared list.old.items ++ of_ports ports.now) }
{
    match ports {
        Ports::Absent => Ok(()),
        Ports::Empty => Ok(()),
        Ports::Names(_) => Ok(()),
        Ports::Declared(ports) => add_ports(list, ports.as_slice()),
    }
}

/// The declarations and the items of a module, in the order of the text (IEEE 1364-2005, section 12.1).
pub fn list_module<'a>(alloc: Global, of: &'a Module) -> Result<Listed<'a>, NoMemory>
    ensures { IfOk result (IsModule of.now) }
{
    let mut declarations = Vec::new(alloc);
    add_groups(&mut declarations, of.params.as_slice())?;
    add_header(&mut declarations, &of.ports)?;
    let header = declarations.len();
    let mut listed = Listed {
        header,
        declarations,
        items: Vec::new(alloc),
    };
    add_all(&mut listed, of.items.as_slice())?;
    Ok(listed)
}

/// The declarations and the items of a generate block (IEEE 1364-2005, section 12.4).
pub fn list_items<'a>(alloc: Global, items: &'a [Item]) -> Result<Listed<'a>, NoMemory>
    ensures { IfOk result (IsBlock items.now) }
{
    let mut listed = Listed {
        header: 0,
        declarations: Vec::new(alloc),
        items: Vec::new(alloc),
    };
    add_all(&mut listed, items)?;
    Ok(listed)
}
