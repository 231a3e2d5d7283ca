ghost use Rattle.std.specs.Prelude.{◌≡◌, ◌∷◌, [], ◌++◌, List, Some, None, slice_get, slice_set, bytes_eq, IfOk, OnOk};
ghost use Rattle.std.specs.List.{position_or_len};
ghost use Rattle.lv_scopes.specs.NameLists.{listed};
ghost use Rattle.lv_source.specs.Declarations as s;
ghost use Rattle.lv_declared.specs.Listing.{declared, all_declared};
ghost use Rattle.lv_bindings.specs.Grouping.{AreGrouped, group_for};
ghost use Rattle.lv_bindings.specs.Grouping as g;

use crate::group::{Group, grown, single};
use lv_bits::NoMemory;
use lv_declared::Declaration;
use lv_scopes::NameTable;
use std::alloc::Global;

/// The declarations of a scope by name.
pub struct Groups {
    /// Each name once.
    pub names: NameTable,
    /// The number of the name of each declaration.
    pub numbers: Vec<usize>,
    pub groups: Vec<Group>,
}

impl Drop for Groups {
    fn drop(self) {
        let Groups {
            names,
            numbers,
            groups,
        } = self;
        drop(names);
        drop(numbers);
        drop(groups);
    }
}

/// A declaration in the group of its name, or in a new one behind the others.
fn put(
    groups: &mut Vec<Group>,
    number: usize,
    index: usize,
    declaration: &Declaration,
) -> Result<(), NoMemory>
    ensures known { OnOk result ((x : Group) → slice_get groups.old.items number ≡ Some x →
        groups.new.items ≡ slice_set groups.old.items number (g.grown x (index, declared declaration.now))) }
    ensures fresh { OnOk result (slice_get groups.old.items number ≡ None →
        groups.new.items ≡ groups.old.items ++ g.single (index, declared declaration.now) ∷ []) }
{
    match groups.get(number).copied() {
        Some(group) => {
            groups[number] = grown(group, index, declaration);
        }
        None => {
            groups.push(single(index, declaration))?;
        }
    }
    Ok(())
}

impl Groups {
    /// The declarations of a scope, in the order of the text.
    pub fn new(alloc: Global, declarations: &[Declaration]) -> Result<Groups, NoMemory>
        ensures { IfOk result (AreGrouped (all_declared declarations.now)) }
    {
        let mut groups = Groups {
            names: NameTable::new(alloc),
            numbers: Vec::new(alloc),
            groups: Vec::new(alloc),
        };
        for declaration in declarations {
            groups.add(alloc, declaration)?;
        }
        Ok(groups)
    }

    fn add(&mut self, alloc: Global, declaration: &Declaration) -> Result<(), NoMemory>
        ensures { OnOk result ((ds : List s.Declaration) → AreGrouped ds self.old → AreGrouped (ds ++ declared declaration.now ∷ []) self.new) }
    {
        let (number, _) = self.names.add(alloc, declaration.name.name.bytes())?;
        let index = self.numbers.len();
        self.numbers.push(number)?;
        put(&mut self.groups, number, index, declaration)
    }

    /// The names alone.
    pub(crate) fn into_names(self) -> NameTable
        ensures { result ≡ self.names }
    {
        let Groups {
            names,
            numbers,
            groups,
        } = self;
        drop(numbers);
        drop(groups);
        names
    }

    /// The group of the declaration with this number.
    pub fn at(&self, index: usize) -> Option<Group>
        ensures { (ds : List s.Declaration) (d : s.Declaration) → AreGrouped ds self.now → slice_get ds index ≡ Some d →
            result ≡ group_for ds d.name.name }
    {
        let number = *self.numbers.get(index)?;
        self.groups.get(number).copied()
    }

    /// The number of the name of the declaration with this number.
    pub fn number(&self, index: usize) -> Option<usize>
        ensures { (ds : List s.Declaration) (d : s.Declaration) → AreGrouped ds self.now → slice_get ds index ≡ Some d →
            result ≡ Some (position_or_len (bytes_eq d.name.name) (listed self.now.names)) }
    {
        self.numbers.get(index).copied()
    }

    /// The declarations of a name.
    pub fn find(&self, name: &[u8]) -> Option<Group>
        ensures { (ds : List s.Declaration) → AreGrouped ds self.now → result ≡ group_for ds name.now }
    {
        match self.names.find(name) {
            None => None,
            Some(number) => self.groups.get(number).copied(),
        }
    }
}
