ghost use Rattle.std.specs.Prelude.{◌≡◌, ◌++◌, List, Some, map, slice_get, IfOk, OnOk};
ghost use Rattle.std.specs.Option.{option_map};
ghost use Rattle.lv_source.specs.Declarations as s;
ghost use Rattle.lv_scopes.specs.NameLists.{listed};
ghost use Rattle.lv_declared.specs.Listing.{declared, all_declared};
ghost use Rattle.lv_flat.specs.Signals as f;
ghost use Rattle.lv_bindings.specs.Grouping.{AreGrouped, group_for};
ghost use Rattle.lv_bindings.specs.Made.{AreNarrow};
ghost use Rattle.lv_bindings.specs.Order.{in_order, in_order_seen, seen, standing_at, all_standing, group_standing, signal_by, outside};

use crate::around::Around;
use crate::group::Group;
use crate::groups::Groups;
use crate::signals::signal_of;
use lv_ast::Ident;
use lv_bits::NoMemory;
use lv_declared::Declaration;
use lv_flat::Signal;
use lv_symbols::Symbol;
use std::alloc::Global;

/// A signal, with the place where it stands in the text and the number of its name.
pub struct Standing {
    pub place: u64,
    pub number: usize,
    pub signal: Signal,
}

impl Drop for Standing {
    fn drop(self) {
        let Standing {
            place: _,
            number: _,
            signal,
        } = self;
        drop(signal);
    }
}

impl Standing {
    pub fn into_signal(self) -> Signal
        ensures { result ≡ self.signal }
    {
        let Standing {
            place: _,
            number: _,
            signal,
        } = self;
        signal
    }
}

/// The group of a declaration, if its signal stands there.
fn group_at(groups: &Groups, index: usize) -> Option<Group>
    ensures { (ds : List s.Declaration) (d : s.Declaration) → AreGrouped ds groups.now → slice_get ds index ≡ Some d →
        result ≡ group_standing (group_for ds d.name.name) index }
{
    match groups.at(index) {
        None => None,
        Some(group) => {
            if group.place() == index {
                Some(group)
            } else {
                None
            }
        }
    }
}

/// The signal of a group, by the symbol of its first declaration.
fn signal_at(
    alloc: Global,
    around: &Around,
    name: &Ident,
    symbols: &[Symbol],
    group: Option<Group>,
) -> Result<Option<Signal>, NoMemory>
    requires { AreNarrow symbols.now }
    ensures { IfOk result (λ o. option_map f.declared o ≡ signal_by (outside around.now) name.now.name symbols.now group) }
{
    match group {
        None => Ok(None),
        Some(group) => match symbols.get(group.first).copied() {
            None => Ok(None),
            Some(symbol) => signal_of(alloc, around, name, group, symbol),
        },
    }
}

/// The signal that stands at a declaration, if there is one, behind the others.
fn add(
    alloc: Global,
    around: &Around,
    groups: &Groups,
    symbols: &[Symbol],
    declaration: &Declaration,
    index: usize,
    list: &mut Vec<Standing>,
) -> Result<(), NoMemory>
    requires { AreNarrow symbols.now }
    ensures { OnOk result ((ds : List s.Declaration) → AreGrouped ds groups.now → slice_get ds index ≡ Some (declared declaration.now) →
        map seen list.new.items ≡ map seen list.old.items ++ standing_at (listed groups.now.names) (outside around.now) ds symbols.now (index, declared declaration.now)) }
{
    let place = declaration.name.place;
    let group = group_at(groups, index);
    match signal_at(alloc, around, declaration.name, symbols, group)? {
        None => Ok(()),
        Some(signal) => match groups.number(index) {
            None => Ok(()),
            Some(number) => {
                list.push(Standing {
                    place,
                    number,
                    signal,
                })?;
                Ok(())
            }
        },
    }
}

/// The signals of a scope in the order of their declarations.
fn collected(
    alloc: Global,
    around: &Around,
    groups: &Groups,
    declarations: &[Declaration],
    symbols: &[Symbol],
) -> Result<Vec<Standing>, NoMemory>
    requires grouped { AreGrouped (all_declared declarations.now) groups.now }
    requires narrow { AreNarrow symbols.now }
    ensures { IfOk result (λ v. map seen v.items ≡
        all_standing (listed groups.now.names) (outside around.now) (all_declared declarations.now) symbols.now) }
{
    let mut list = Vec::new(alloc);
    for index in 0..declarations.len() {
        add(
            alloc,
            around,
            groups,
            symbols,
            &declarations[index],
            index,
            &mut list,
        )?;
    }
    Ok(list)
}

/// In the order of their places; of equal ones the first that stands there.
fn sort(list: &mut Vec<Standing>) -> Result<(), NoMemory>
    ensures { OnOk result (list.new.items ≡ in_order list.old.items) }
{
    list.sort_by_key(|standing| standing.place)?;
    Ok(())
}

/// The signals of a scope in the order of their places.
pub(crate) fn order(
    alloc: Global,
    around: &Around,
    groups: &Groups,
    declarations: &[Declaration],
    symbols: &[Symbol],
) -> Result<Vec<Standing>, NoMemory>
    requires grouped { AreGrouped (all_declared declarations.now) groups.now }
    requires narrow { AreNarrow symbols.now }
    ensures { IfOk result (λ v. map seen v.items ≡
        in_order_seen (all_standing (listed groups.now.names) (outside around.now) (all_declared declarations.now) symbols.now)) }
{
    let mut list = collected(alloc, around, groups, declarations, symbols)?;
    sort(&mut list)?;
    Ok(list)
}
