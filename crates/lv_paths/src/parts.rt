ghost use Rattle.std.specs.Prelude.{◌≡◌, true, IfOk};
ghost use Rattle.lv_flat.specs.Cells.{AreDistinct, all_cells};
ghost use Rattle.lv_flat.specs.Signals.{declared_all};
ghost use Rattle.lv_flat.specs.Good.{good_body};
ghost use Rattle.lv_flat.specs.FlatViews.{flat_view, flat_views};
ghost use Rattle.lv_flat.specs.declared.part.FlatBody.TheVariants as bodies;
ghost use Rattle.lv_extents.specs.Extents.{IsExtent, AreExtents, way_of};
ghost use Rattle.lv_extents.specs.Blocks.{flat_way, IsBlock};

use crate::judge::judge_paths;
use crate::twice::names_twice;
use lv_bits::NoMemory;
use lv_extents::{Extent, Way, block, continuous};
use lv_flat::{Flat, FlatBody, FlatExpr, FlatPart, FlatStmt, FlatTarget, Signal};
use lv_lower_exprs::signal_of;
use std::alloc::Global;

/// The extent of an assignment or of a connection.
fn assignment(
    alloc: Global,
    signals: &[Signal],
    part: &FlatPart,
    target: &FlatTarget,
    value: &FlatExpr,
) -> Result<Extent, NoMemory>
    requires is { part.now.body ≡ bodies.Assign target.now value.now }
    requires good { good_body (declared_all signals.now) part.now.body ≡ true }
    requires distinct { AreDistinct (all_cells (declared_all signals.now)) }
    ensures { IfOk result (λ e. IsExtent (declared_all signals.now) (flat_view (declared_all signals.now) part.now) e) }
{
    let twice = names_twice(alloc, signals, target)?;
    let r = continuous(alloc, signals, part, target, value, twice)?;
    Ok(r)
}

/// The extent of a block.
fn process(
    alloc: Global,
    signals: &[Signal],
    part: &FlatPart,
    way: Way,
    stmt: &FlatStmt,
) -> Result<Extent, NoMemory>
    requires way { way_of way ≡ flat_way (declared_all signals.now) part.now.body }
    requires is { IsBlock part.now.body stmt.now }
    requires good { good_body (declared_all signals.now) part.now.body ≡ true }
    requires distinct { AreDistinct (all_cells (declared_all signals.now)) }
    ensures { IfOk result (λ e. IsExtent (declared_all signals.now) (flat_view (declared_all signals.now) part.now) e) }
{
    let paths = judge_paths(alloc, signals, stmt)?;
    let r = block(alloc, signals, part, way, stmt, paths.latch, paths.exposed)?;
    Ok(r)
}

/// The extent of a part.
fn extent(alloc: Global, signals: &[Signal], part: &FlatPart) -> Result<Extent, NoMemory>
    requires good { good_body (declared_all signals.now) part.now.body ≡ true }
    requires distinct { AreDistinct (all_cells (declared_all signals.now)) }
    ensures { IfOk result (λ e. IsExtent (declared_all signals.now) (flat_view (declared_all signals.now) part.now) e) }
{
    match &part.body {
        FlatBody::Assign(target, value) => {
            let r = assignment(alloc, signals, part, target, value.get())?;
            Ok(r)
        }
        FlatBody::Combinational(stmt) => {
            let r = process(alloc, signals, part, Way::Combinational, stmt.get())?;
            Ok(r)
        }
        FlatBody::Clocked(edge, stmt) => {
            let sort = signal_of(signals, edge.signal).sort;
            let way = Way::Edge(sort, edge.place);
            let r = process(alloc, signals, part, way, stmt.get())?;
            Ok(r)
        }
    }
}

/// The extents of all parts of a flat design, in order.
pub fn extents(alloc: Global, flat: &Flat) -> Result<Vec<Extent>, NoMemory>
    ensures { IfOk result (λ r. AreExtents (declared_all flat.now.signals) (flat_views (declared_all flat.now.signals) flat.now.parts) r.items) }
{
    let signals = flat.signals.as_slice();
    let mut made = Vec::new(alloc);
    for part in flat.parts.as_slice() {
        let r = extent(alloc, signals, part)?;
        made.push(r)?;
    }
    Ok(made)
}
