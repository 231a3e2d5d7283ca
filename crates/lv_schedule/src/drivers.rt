// The spans that parts without a clock drive.
ghost use Rattle.std.specs.Prelude.{◌≡◌, IfOk, ◌++◌, map};
ghost use Rattle.lv_schedule.specs.Drivers.{driver, part_drivers, drivers_of};
ghost use Rattle.lv_source.specs.Views.{is_edge, is_combinational};
ghost use Rattle.lv_extents.specs.Extents.{way_of};

use lv_bits::NoMemory;
use lv_extents::{Extent, Way};
use lv_spans::Span;
use std::alloc::Global;

/// A span, and the part that drives it.
#[derive(Clone, Copy)]
pub(crate) struct Driver {
    pub part: usize,
    pub span: Span,
}

pub(crate) fn is_edge(way: Way) -> bool
    ensures { result ≡ is_edge (way_of way) }
{
    match way {
        Way::Continuous => false,
        Way::Combinational => false,
        Way::Edge(_, _) => true,
    }
}

pub(crate) fn is_combinational(way: Way) -> bool
    ensures { result ≡ is_combinational (way_of way) }
{
    match way {
        Way::Continuous => false,
        Way::Combinational => true,
        Way::Edge(_, _) => false,
    }
}

fn with_spans(list: Vec<Driver>, part: usize, spans: &[Span]) -> Result<Vec<Driver>, NoMemory>
    ensures { IfOk result (λ r. r.items ≡ list.items ++ map (driver part) spans.now) }
{
    let mut made = list;
    for s in spans {
        made.push(Driver { part, span: *s })?;
    }
    Ok(made)
}

fn with_part(list: Vec<Driver>, part: usize, x: &Extent) -> Result<Vec<Driver>, NoMemory>
    ensures { IfOk result (λ r. r.items ≡ list.items ++ part_drivers part x.now) }
{
    if is_edge(x.way) {
        return Ok(list);
    }
    with_spans(list, part, x.drives.as_slice())
}

/// What the parts without a clock drive, span by span.
pub(crate) fn drivers(alloc: Global, extents: &[Extent]) -> Result<Vec<Driver>, NoMemory>
    ensures { IfOk result (λ r. r.items ≡ drivers_of 0 extents.now) }
{
    let mut list = Vec::new(alloc);
    for (part, x) in extents.iter().enumerate() {
        list = with_part(list, part, x)?;
    }
    Ok(list)
}
