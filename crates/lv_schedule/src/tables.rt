// The tables in which the drivers of a span are found.
ghost use Rattle.std.specs.Prelude.{◌≡◌, ◌<◌, ◌^◌, ℕ, Bool, true, false, ◌&&◌, ◌||◌, Some, None, IfOk, List};
ghost use Rattle.std.specs.List.{list_any};
ghost use Rattle.std.specs.BTreeMap.{is_at};
ghost use Rattle.lv_spans.specs.Sets.{Cell, order, has, is_set, is_under};
ghost use Rattle.lv_schedule.specs.declared.drivers.Driver.{Driver};
ghost use Rattle.lv_schedule.specs.Drivers.{is_met};
ghost use Rattle.lv_schedule.specs.Tables.{AreUnder, cell_of, signal_of, drives_bit, is_wide, AreTables, IsCovering, AddsMet, AreLiveAt};

use crate::drivers::Driver;
use crate::table::{Reader, Table};
use lv_bits::NoMemory;
use lv_spans::{BitSet, Span};
use std::alloc::Global;

/// Drivers by the cells that they drive, drivers by signals, and all bits that are driven.
#[derive(Drop)]
pub(crate) struct Tables {
    cells: Table,
    signals: Table,
    driven: BitSet,
}

fn by_cell(alloc: Global, drivers: &[Driver]) -> Result<Table, NoMemory>
    ensures { IfOk result (λ r. AreUnder cell_of drivers.now r.lists.entries) }
{
    let mut table = Table::new(alloc);
    for d in drivers {
        table = table.add(alloc, (d.span.signal, d.span.element), *d)?;
    }
    Ok(table)
}

fn by_signal(alloc: Global, drivers: &[Driver]) -> Result<Table, NoMemory>
    ensures { IfOk result (λ r. AreUnder signal_of drivers.now r.lists.entries) }
{
    let mut table = Table::new(alloc);
    for d in drivers {
        table = table.add(alloc, (d.span.signal, None), *d)?;
    }
    Ok(table)
}

/// With these places of a cell too.
fn with_places(
    set: BitSet,
    signal: u64,
    element: Option<u64>,
    mask: u128,
) -> Result<BitSet, NoMemory>
    ensures added { IfOk result (λ r. (q : Cell) (i : ℕ) → has r q i ≡ (has set q i || (is_under signal element q && is_set mask i))) }
    ensures narrow { mask < 2 ^ 128 }
{
    let more = set.add(Span {
        signal,
        element,
        mask,
    })?;
    Ok(more)
}

/// The places that a mask lacks.
fn rest_of(mask: u128) -> u128
    ensures { (i : ℕ) → i < 128 → is_set mask i ≡ false → is_set result i ≡ true }
{
    !mask
}

fn bits_of(alloc: Global, drivers: &[Driver]) -> Result<BitSet, NoMemory>
    ensures bits { IfOk result (λ r. (q : Cell) (i : ℕ) → has r q i ≡ list_any (drives_bit q i) drivers.now) }
    ensures narrow { IfOk result (λ r. list_any is_wide drivers.now ≡ false) }
{
    let mut set = BitSet::new(alloc);
    for d in drivers {
        set = with_places(set, d.span.signal, d.span.element, d.span.mask)?;
    }
    Ok(set)
}

impl Tables {
    pub(crate) fn new(alloc: Global, drivers: &[Driver]) -> Result<Tables, NoMemory>
        ensures { IfOk result (λ r. AreTables drivers.now r) }
    {
        let cells = by_cell(alloc, drivers)?;
        let signals = by_signal(alloc, drivers)?;
        let driven = bits_of(alloc, drivers)?;
        Ok(Tables {
            cells,
            signals,
            driven,
        })
    }

    /// Whether the span has each place at which some cell of its signal is driven.
    pub(crate) fn covers(&self, r: Span) -> bool
        ensures { result ≡ true → (D : List Driver) → AreTables D self.now → IsCovering D r }
    {
        let rest = Span {
            signal: r.signal,
            element: None,
            mask: rest_of(r.mask),
        };
        !self.driven.meets(rest)
    }

    /// With each part of which the span is read.
    pub(crate) fn with_met(
        &self,
        row: Vec<usize>,
        reader: Reader,
        r: Span,
    ) -> Result<Vec<usize>, NoMemory>
        ensures { IfOk result (λ w. (D : List Driver) → AreTables D self.now → AddsMet reader.part reader.alone r D row.items w.items) }
    {
        match r.element {
            None => {
                let all = self.signals.with_met(row, reader, r, (r.signal, None))?;
                Ok(all)
            }
            Some(k) => {
                let some = self.cells.with_met(row, reader, r, (r.signal, Some(k)))?;
                let all = self.cells.with_met(some, reader, r, (r.signal, None))?;
                Ok(all)
            }
        }
    }

    /// The parts that drive some bit of a signal.
    pub(crate) fn live(&self, alloc: Global, signal: u64) -> Result<Vec<usize>, NoMemory>
        ensures { IfOk result (λ w. (D : List Driver) → AreTables D self.now → AreLiveAt signal D w.items) }
    {
        let row = self.signals.live(alloc, (signal, None))?;
        Ok(row)
    }
}
