// Drivers by what they drive.
ghost use Rattle.std.specs.Prelude.{◌≡◌, [], ℕ, Bool, ◌&&◌, ◌||◌, Some, None, IfOk};
ghost use Rattle.std.specs.List.{list_any};
ghost use Rattle.std.specs.BTreeMap.{is_at};
ghost use Rattle.lv_spans.specs.Sets.{Cell, order};
ghost use Rattle.lv_schedule.specs.declared.drivers.Driver.{Driver};
ghost use Rattle.lv_schedule.specs.Drivers.{is_element_of_both, shares, is_met};
ghost use Rattle.lv_schedule.specs.Tables.{listed, IsAdded, AddsMet, AddsLive, AreLive};

use crate::drivers::Driver;
use lv_bits::NoMemory;
use lv_spans::Span;
use std::alloc::Global;
use std::collections::BTreeMap;

/// Lists of drivers by key.
#[derive(Drop)]
pub(crate) struct Table {
    lists: BTreeMap<(u64, Option<u64>), Vec<Driver>>,
}

/// Who reads: a part, and whether what it drives itself doesn't count.
#[derive(Clone, Copy)]
pub(crate) struct Reader {
    pub part: usize,
    pub alone: bool,
}

fn is_element_of_both(a: Option<u64>, b: Option<u64>) -> bool
    ensures { result ≡ is_element_of_both a b }
{
    match (a, b) {
        (Some(k), Some(j)) => k == j,
        _ => true,
    }
}

pub(crate) fn shares(r: Span, t: Span) -> bool
    ensures { result ≡ shares r t }
{
    r.signal == t.signal && is_element_of_both(r.element, t.element) && r.mask & t.mask != 0
}

fn is_met(reader: Reader, r: Span, d: Driver) -> bool
    ensures { result ≡ is_met reader.part reader.alone r d }
{
    shares(r, d.span) && !(reader.alone && d.part == reader.part)
}

/// With the parts of which the span is read.
fn with_met(
    row: Vec<usize>,
    reader: Reader,
    r: Span,
    drivers: &[Driver],
) -> Result<Vec<usize>, NoMemory>
    ensures { IfOk result (λ w. AddsMet reader.part reader.alone r drivers.now row.items w.items) }
{
    let mut made = row;
    for d in drivers {
        if is_met(reader, r, *d) {
            made.push(d.part)?;
        }
    }
    Ok(made)
}

/// With the parts that drive some bit.
fn with_live(row: Vec<usize>, drivers: &[Driver]) -> Result<Vec<usize>, NoMemory>
    ensures { IfOk result (λ w. AddsLive drivers.now row.items w.items) }
{
    let mut made = row;
    for d in drivers {
        if d.span.mask != 0 {
            made.push(d.part)?;
        }
    }
    Ok(made)
}

impl Table {
    pub(crate) fn new(alloc: Global) -> Table
        ensures { (q : Cell) → listed result.lists.entries q ≡ [] }
    {
        Table {
            lists: BTreeMap::new(alloc),
        }
    }

    pub(crate) fn add(
        self,
        alloc: Global,
        cell: (u64, Option<u64>),
        d: Driver,
    ) -> Result<Table, NoMemory>
        ensures { IfOk result (λ r. IsAdded cell d self.lists.entries r.lists.entries) }
    {
        let Table { mut lists } = self;
        let mut list = match lists.remove(&cell) {
            Some(list) => list,
            None => Vec::new(alloc),
        };
        list.push(d)?;
        lists.insert(cell, list)?;
        Ok(Table { lists })
    }

    /// With the parts of this key of which the span is read.
    pub(crate) fn with_met(
        &self,
        row: Vec<usize>,
        reader: Reader,
        r: Span,
        cell: (u64, Option<u64>),
    ) -> Result<Vec<usize>, NoMemory>
        ensures { IfOk result (λ w. AddsMet reader.part reader.alone r (listed self.now.lists.entries cell) row.items w.items) }
    {
        match self.lists.get(&cell) {
            Some(list) => with_met(row, reader, r, list.as_slice()),
            None => Ok(row),
        }
    }

    /// The parts of this key that drive some bit.
    pub(crate) fn live(
        &self,
        alloc: Global,
        cell: (u64, Option<u64>),
    ) -> Result<Vec<usize>, NoMemory>
        ensures { IfOk result (λ w. AreLive (listed self.now.lists.entries cell) w.items) }
    {
        let none = Vec::new(alloc);
        match self.lists.get(&cell) {
            Some(list) => with_live(none, list.as_slice()),
            None => Ok(none),
        }
    }
}
