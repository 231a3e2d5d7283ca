// The edges of parts and of hubs.
ghost use Rattle.std.specs.Prelude.{◌≡◌, ℕ, Bool, ◌+◌, ◌<◌, ◌^◌, true, ◌&&◌, ◌||◌, Some, IfOk, List, length, slice_get, vec_len};
ghost use Rattle.std.specs.List.{list_any};
ghost use Rattle.lv_spans.specs.Sets.{Cell, has};
ghost use Rattle.lv_spans.specs.Domain.{spans_have};
ghost use Rattle.lv_order.specs.Graphs.{graph};
ghost use Rattle.lv_schedule.specs.declared.drivers.Driver.{Driver};
ghost use Rattle.lv_schedule.specs.Drivers.{drivers_of};
ghost use Rattle.lv_schedule.specs.Hubs.{IsHubGraph};
ghost use Rattle.lv_schedule.specs.Tables.{AreTables, IsOwn, IsWhole, AddsSpan, AddsSpans, IsRow, ArePartRows, hubs_of};

use crate::drivers::{is_combinational, is_edge};
use crate::table::Reader;
use crate::tables::Tables;
use lv_bits::NoMemory;
use lv_extents::Extent;
use lv_spans::{BitSet, Span};
use std::alloc::Global;

fn with_spans(set: BitSet, spans: &[Span]) -> Result<BitSet, NoMemory>
    ensures { IfOk result (λ r. (q : Cell) (i : ℕ) → has r q i ≡ (has set q i || spans_have spans.now q i)) }
{
    let mut made = set;
    for s in spans {
        made = made.add(*s)?;
    }
    Ok(made)
}

/// What a part drives, if what it drives itself doesn't count.
fn own_bits(alloc: Global, alone: bool, spans: &[Span]) -> Result<BitSet, NoMemory>
    ensures { IfOk result (λ r. (q : Cell) (i : ℕ) → has r q i ≡ (alone && spans_have spans.now q i)) }
{
    let none = BitSet::new(alloc);
    if alone {
        with_spans(none, spans)
    } else {
        Ok(none)
    }
}

/// Whether the span is read of all parts that its signal's hub leads to.
fn is_whole(count: usize, tables: &Tables, own: &BitSet, r: Span) -> bool
    ensures { result ≡ true → (D : List Driver) (part : ℕ) (alone : Bool) → AreTables D tables.now → IsOwn D part alone own.now → IsWhole D count part alone r }
{
    match r.element {
        None => r.signal < count as u64 && tables.covers(r) && !own.meets(r),
        Some(_) => false,
    }
}

/// With an edge to the signal's hub where the span is read of all its parts, and else to each of which it is read.
fn with_span(
    extents: &[Extent],
    count: usize,
    tables: &Tables,
    own: &BitSet,
    row: Vec<usize>,
    reader: Reader,
    r: Span,
) -> Result<Vec<usize>, NoMemory>
    requires tables { AreTables (drivers_of 0 extents.now) tables.now }
    requires own { IsOwn (drivers_of 0 extents.now) reader.part reader.alone own.now }
    requires small { length extents.now + count < 2 ^ 64 }
    ensures { IfOk result (λ w. AddsSpan extents.now count reader.part reader.alone r row.items w.items) }
{
    if is_whole(count, tables, own, r) {
        let mut made = row;
        made.push(extents.len() + r.signal as usize)?;
        return Ok(made);
    }
    let made = tables.with_met(row, reader, r)?;
    Ok(made)
}

fn with_reads(
    extents: &[Extent],
    count: usize,
    tables: &Tables,
    own: &BitSet,
    row: Vec<usize>,
    reader: Reader,
    reads: &[Span],
) -> Result<Vec<usize>, NoMemory>
    requires tables { AreTables (drivers_of 0 extents.now) tables.now }
    requires own { IsOwn (drivers_of 0 extents.now) reader.part reader.alone own.now }
    requires small { length extents.now + count < 2 ^ 64 }
    ensures { IfOk result (λ w. AddsSpans extents.now count reader.part reader.alone reads.now row.items w.items) }
{
    let mut made = row;
    for r in reads {
        made = with_span(extents, count, tables, own, made, reader, *r)?;
    }
    Ok(made)
}

/// The edges of a part.
fn part_row(
    alloc: Global,
    extents: &[Extent],
    count: usize,
    tables: &Tables,
    part: usize,
) -> Result<Vec<usize>, NoMemory>
    requires tables { AreTables (drivers_of 0 extents.now) tables.now }
    requires small { length extents.now + count < 2 ^ 64 }
    requires there { part < length extents.now }
    ensures { IfOk result (λ w. IsRow extents.now count part w.items) }
{
    let x = &extents[part];
    let none = Vec::new(alloc);
    if is_edge(x.way) {
        return Ok(none);
    }
    let alone = is_combinational(x.way);
    let own = own_bits(alloc, alone, x.drives.as_slice())?;
    let reader = Reader { part, alone };
    let row = with_reads(
        extents,
        count,
        tables,
        &own,
        none,
        reader,
        x.reads.as_slice(),
    )?;
    Ok(row)
}

fn part_rows(
    alloc: Global,
    extents: &[Extent],
    count: usize,
    tables: &Tables,
) -> Result<Vec<Vec<usize>>, NoMemory>
    requires tables { AreTables (drivers_of 0 extents.now) tables.now }
    requires small { length extents.now + count < 2 ^ 64 }
    ensures { IfOk result (λ w. ArePartRows extents.now count (length extents.now) (graph w.items)) }
{
    let mut rows = Vec::new(alloc);
    for part in 0..extents.len() {
        let row = part_row(alloc, extents, count, tables, part)?;
        rows.push(row)?;
    }
    Ok(rows)
}

/// With the edges of the hubs.
fn with_hubs(
    alloc: Global,
    extents: &[Extent],
    count: usize,
    tables: &Tables,
    rows: Vec<Vec<usize>>,
) -> Result<Vec<Vec<usize>>, NoMemory>
    requires tables { AreTables (drivers_of 0 extents.now) tables.now }
    requires rows { ArePartRows extents.now count (length extents.now) (graph rows.items) }
    ensures { IfOk result (λ w. IsHubGraph (hubs_of extents.now count) (graph w.items)) }
{
    let mut made = rows;
    for s in 0..count {
        let row = tables.live(alloc, s as u64)?;
        made.push(row)?;
    }
    Ok(made)
}

/// The edges of all parts, and behind them those of a hub for each signal.
pub(crate) fn rows(
    alloc: Global,
    extents: &[Extent],
    count: usize,
    tables: &Tables,
) -> Result<Vec<Vec<usize>>, NoMemory>
    requires tables { AreTables (drivers_of 0 extents.now) tables.now }
    requires small { length extents.now + count < 2 ^ 64 }
    ensures { IfOk result (λ w. IsHubGraph (hubs_of extents.now count) (graph w.items)) }
{
    let parts = part_rows(alloc, extents, count, tables)?;
    let all = with_hubs(alloc, extents, count, tables, parts)?;
    Ok(all)
}
