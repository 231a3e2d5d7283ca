ghost use Rattle.std.specs.Prelude.{◌≡◌, ℕ, ◌<◌, length, map, IfOk};
ghost use Rattle.lv_unroll.specs.Wires.{number_in, is_on, GivesTest};
ghost use Rattle.lv_unroll.specs.Slots.{AreWide, IsSlot, AreSlots, AreBeside, GivesNumbers, GivesSlot, GivesSlots, place_in, places_in};
ghost use Rattle.lv_unroll.specs.Slots.{chosen_numbers, filled_in, appended_in, same_values, same_flag, same_place, same_places};
ghost use Rattle.lv_unroll.specs.Entries.{ArePacked, equally_many};

use crate::copies::at;
use crate::wires::{always, both, chosen, either, equal, negated};
use lv_bits::NoMemory;
use lv_netlist::Builder;
use std::alloc::Global;

/// An entry that is there where its first node isn't 0, and its values, all of 128 bits.
pub struct Slot {
    pub on: u64,
    pub values: Vec<u64>,
}

impl Drop for Slot {
    fn drop(self) {
        let Slot { on: _, values } = self;
        drop(values);
    }
}

// Where c isn't 0 the first values, else the second.
fn chosen_values(
    alloc: Global,
    b: &mut Builder,
    c: u64,
    xs: &[u64],
    ys: &[u64],
) -> Result<Vec<u64>, NoMemory>
    requires test { c < length b.old.nodes }
    requires left { AreWide b.old (length ys.now) xs.now }
    requires right { AreWide b.old (length ys.now) ys.now }
    ensures { IfOk result (λ vs. GivesNumbers b.old b.new (length ys.now) vs.items (chosen_numbers b.old c xs.now ys.now)) }
{
    let mut values = Vec::new(alloc);
    for k in 0..ys.len() as u64 {
        let value = chosen(b, c, at(xs, k), at(ys, k))?;
        values.reserve(1)?;
        values.push_reserved(value);
    }
    Ok(values)
}

// The entry at this place once one more comes, where `on`; `before` says whether the place before is taken.
fn filled(
    alloc: Global,
    b: &mut Builder,
    before: u64,
    slot: &Slot,
    on: u64,
    values: &[u64],
) -> Result<Slot, NoMemory>
    requires before { before < length b.old.nodes }
    requires on { on < length b.old.nodes }
    requires values { AreWide b.old (length values.now) values.now }
    requires slot { IsSlot b.old (length values.now) slot.now }
    ensures { IfOk result (λ s. GivesSlot b.old b.new (length values.now) s (filled_in b.old before on values.now slot.now)) }
{
    let free = both(b, before, on)?;
    let there = either(b, slot.on, free)?;
    let values = chosen_values(alloc, b, slot.on, slot.values.as_slice(), values)?;
    Ok(Slot { on: there, values })
}

/// The entries with one more behind those that are there, where `on` isn't 0.
///
/// One place more than `slots` has. All values have 128 bits, and each entry as many of them as the new one.
pub fn append(
    alloc: Global,
    b: &mut Builder,
    slots: &[Slot],
    on: u64,
    values: &[u64],
) -> Result<Vec<Slot>, NoMemory>
    requires on { on < length b.old.nodes }
    requires values { AreWide b.old (length values.now) values.now }
    requires slots { AreSlots b.old (length values.now) slots.now }
    ensures { IfOk result (λ out. GivesSlots b.old b.new (length values.now) out.items (appended_in b.old on values.now slots.now)) }
{
    let mut before = always(b)?;
    let mut out = Vec::new(alloc);
    for slot in slots {
        let next = filled(alloc, b, before, slot, on, values)?;
        out.reserve(1)?;
        out.push_reserved(next);
        before = slot.on;
    }
    let last = both(b, before, on)?;
    let values = Vec::from_slice(alloc, values)?;
    out.reserve(1)?;
    out.push_reserved(Slot { on: last, values });
    Ok(out)
}

/// A node that is 1 where both lists have the same numbers, else 0.
///
/// Both are equally long, and all their nodes have 128 bits.
pub fn same_numbers(b: &mut Builder, xs: &[u64], ys: &[u64]) -> Result<u64, NoMemory>
    requires left { AreWide b.old (length ys.now) xs.now }
    requires right { AreWide b.old (length ys.now) ys.now }
    ensures { IfOk result (λ at.
        GivesTest b.old b.new at (λ ws. same_values (map (number_in b.old ws) xs.now) (map (number_in b.old ws) ys.now))) }
{
    let mut all = always(b)?;
    for k in 0..ys.len() as u64 {
        let one = equal(b, at(xs, k), at(ys, k))?;
        all = both(b, all, one)?;
    }
    Ok(all)
}

// A node that is 1 where one of both entries isn't there, or they are the same.
fn same_slot(b: &mut Builder, left: &Slot, right: &Slot) -> Result<u64, NoMemory>
    requires left { IsSlot b.old (length right.now.values.items) left.now }
    requires right { IsSlot b.old (length right.now.values.items) right.now }
    ensures { IfOk result (λ at. GivesTest b.old b.new at (λ ws. same_place (place_in b.old ws left.now) (place_in b.old ws right.now))) }
{
    let two = both(b, left.on, right.on)?;
    let apart = negated(b, two)?;
    let same = same_numbers(b, left.values.as_slice(), right.values.as_slice())?;
    let at = either(b, apart, same)?;
    Ok(at)
}

/// A node that is 1 where no two entries at one place differ, else 0.
///
/// Both lists have equally many places, and each entry equally many values.
pub fn agree(b: &mut Builder, left: &[Slot], right: &[Slot]) -> Result<u64, NoMemory>
    requires beside { AreBeside b.old left.now right.now }
    requires same { length left.now ≡ length right.now }
    ensures { IfOk result (λ at.
        GivesTest b.old b.new at (λ ws. same_places (places_in b.old ws left.now) (places_in b.old ws right.now))) }
{
    let mut all = always(b)?;
    for k in 0..left.len() {
        let one = same_slot(b, &left[k], &right[k])?;
        all = both(b, all, one)?;
    }
    Ok(all)
}

// A node that is 1 where both entries are there, or neither is.
fn same_on(b: &mut Builder, left: &Slot, right: &Slot) -> Result<u64, NoMemory>
    requires left { left.now.on < length b.old.nodes }
    requires right { right.now.on < length b.old.nodes }
    ensures { IfOk result (λ at. GivesTest b.old b.new at (λ ws. same_flag (is_on b.old ws left.now.on) (is_on b.old ws right.now.on))) }
{
    let free = negated(b, left.on)?;
    let other = negated(b, right.on)?;
    let at = equal(b, free, other)?;
    Ok(at)
}

/// A node that is 1 where both lists have equally many entries, else 0.
///
/// Both have equally many places, and no entry stands behind a free one. The values are not looked at.
pub fn same_count(b: &mut Builder, left: &[Slot], right: &[Slot]) -> Result<u64, NoMemory>
    requires beside { AreBeside b.old left.now right.now }
    requires same { length left.now ≡ length right.now }
    requires left { ArePacked b.old left.now }
    requires right { ArePacked b.old right.now }
    ensures { IfOk result (λ at. GivesTest b.old b.new at (equally_many b.old left.now right.now)) }
{
    let mut all = always(b)?;
    for k in 0..left.len() {
        let one = same_on(b, &left[k], &right[k])?;
        all = both(b, all, one)?;
    }
    Ok(all)
}
