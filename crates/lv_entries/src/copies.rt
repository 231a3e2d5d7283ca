ghost use Rattle.std.specs.Prelude.{◌≡◌, ◌≤◌, ◌++◌, ◌∷◌, [], length, take, IfOk, OnOk};

use lv_bits::NoMemory;
use lv_const::{Consts, Entry};
use std::alloc::Global;

fn copy_entry(alloc: Global, entry: &Entry) -> Result<Entry, NoMemory>
    ensures { IfOk result (λ r. r ≡ entry.now) }
{
    let name = entry.name.copy(alloc)?;
    let value = entry.value;
    Ok(Entry { name, value })
}

/// Adds the first so many entries behind others.
pub fn copy_entries(
    alloc: Global,
    entries: &[Entry],
    count: usize,
    into: &mut Vec<Entry>,
) -> Result<(), NoMemory>
    requires { count ≤ length entries.now }
    ensures { OnOk result (into.new.items ≡ into.old.items ++ take count entries.now) }
{
    for entry in &entries[..count] {
        let entry = copy_entry(alloc, entry)?;
        into.push(entry)?;
    }
    Ok(())
}

/// The first so many entries as constants.
pub fn constants_of(alloc: Global, entries: &[Entry], count: usize) -> Result<Consts, NoMemory>
    requires { count ≤ length entries.now }
    ensures { IfOk result (λ c. c ≡ take count entries.now) }
{
    let mut consts = Consts::new(alloc);
    for entry in &entries[..count] {
        consts.put(&entry.name, entry.value)?;
    }
    Ok(consts)
}
