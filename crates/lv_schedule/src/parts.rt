ghost use Rattle.std.specs.Prelude.{◌≡◌, ℕ, List, IfOk, filter, length, nat_lt};
ghost use Rattle.lv_source.specs.Views.{View};
ghost use Rattle.lv_flat.specs.Signals.{declared_all};
ghost use Rattle.lv_extents.specs.Extents.{AreExtents};
ghost use Rattle.lv_schedule.specs.Drivers.{is_unclocked};
ghost use Rattle.lv_schedule.specs.Plans.{IsPlan};

use crate::drivers::{drivers, is_edge};
use crate::rows::rows;
use crate::tables::Tables;
use lv_bits::NoMemory;
use lv_extents::Extent;
use lv_flat::Signal;
use lv_order::{Sorting, order};
use std::alloc::Global;

/// How the parts without a clock stand to one another.
#[derive(Drop)]
pub enum Plan {
    /// Each by its number once, and none reads a bit that a later one drives, or that it drives itself, but a combinational block its own.
    Order(Vec<u64>),
    /// Distinct parts, the least first: each reads a bit that the next drives, and the last one a bit that the first drives.
    Cycle(Vec<u64>),
}

fn is_unclocked(extents: &[Extent], part: usize) -> bool
    ensures { result ≡ is_unclocked extents.now part }
{
    match extents.get(part) {
        Some(x) => !is_edge(x.way),
        None => false,
    }
}

/// Without the hubs and the clocked parts.
fn unclocked(alloc: Global, extents: &[Extent], list: &[usize]) -> Result<Vec<u64>, NoMemory>
    ensures { IfOk result (λ r. r.items ≡ filter (is_unclocked extents.now) list.now) }
{
    let mut kept = Vec::new(alloc);
    for v in list {
        if is_unclocked(extents, *v) {
            kept.push(*v as u64)?;
        }
    }
    Ok(kept)
}

/// Without the hubs.
fn parts_of(alloc: Global, count: usize, list: &[usize]) -> Result<Vec<u64>, NoMemory>
    ensures { IfOk result (λ r. r.items ≡ filter (λ v. nat_lt v count) list.now) }
{
    let mut kept = Vec::new(alloc);
    for v in list {
        if *v < count {
            kept.push(*v as u64)?;
        }
    }
    Ok(kept)
}

/// The parts without a clock in an order in which none reads what a later one drives; or a cycle, exactly where there is one.
pub fn schedule(alloc: Global, signals: &[Signal], extents: &[Extent]) -> Result<Plan, NoMemory>
    ensures { IfOk result (λ r. (vs : List View) → AreExtents (declared_all signals.now) vs extents.now → IsPlan vs r) }
{
    let all = drivers(alloc, extents)?;
    let tables = Tables::new(alloc, all.as_slice())?;
    let edges = rows(alloc, extents, signals.len(), &tables)?;
    match order(alloc, edges.as_slice())? {
        Sorting::Sorted(list) => {
            let parts = unclocked(alloc, extents, list.as_slice())?;
            Ok(Plan::Order(parts))
        }
        Sorting::Cycle(list) => {
            let parts = parts_of(alloc, extents.len(), list.as_slice())?;
            Ok(Plan::Cycle(parts))
        }
    }
}
