ghost use Rattle.std.specs.Prelude.{◌≡◌, true, IfOk};
ghost use Rattle.lv_source.specs.Summary.{leaves_latch, exposes_own};
ghost use Rattle.lv_flat.specs.Cells.{AreDistinct, all_cells};
ghost use Rattle.lv_flat.specs.Signals.{declared_all};
ghost use Rattle.lv_flat.specs.Flows.{summary};
ghost use Rattle.lv_flat.specs.Good.{good_stmt};

use crate::open::are_open;
use crate::walk::walk;
use crate::writes::{add_written, with_spans};
use lv_bits::NoMemory;
use lv_flat::{FlatStmt, Signal};
use lv_spans::BitSet;
use sqlite_items::Items;
use std::alloc::Global;
use std::collections::BTreeMap;

/// What the paths through a block have in common.
#[derive(Clone, Copy)]
pub struct Paths {
    /// A bit that the block writes is not written on every path.
    pub latch: bool,
    /// A bit that the block writes is read first on some path.
    pub exposed: bool,
}

/// Judges the paths through a block without going through each of them (IEEE 1364-2005, section 9).
///
/// The statement is gone through twice: for the bits that it may write, and for those that each path writes for sure.
pub fn judge_paths(alloc: Global, signals: &[Signal], stmt: &FlatStmt) -> Result<Paths, NoMemory>
    requires good { good_stmt (declared_all signals.now) stmt.now ≡ true }
    requires distinct { AreDistinct (all_cells (declared_all signals.now)) }
    ensures latch { IfOk result (λ r. r.latch ≡ leaves_latch (summary (declared_all signals.now) stmt.now)) }
    ensures exposed { IfOk result (λ r. r.exposed ≡ exposes_own (summary (declared_all signals.now) stmt.now)) }
{
    let mut spans = Items::new(alloc);
    add_written(alloc, signals, stmt, &mut spans)?;
    let written = with_spans(BitSet::new(alloc), spans.as_slice())?;
    let mut done = BTreeMap::new(alloc);
    let mut log = Items::new(alloc);
    let exposed = walk(alloc, signals, &written, stmt, &mut done, &mut log, false)?;
    let latch = are_open(signals, &written, &done, spans.as_slice(), false);
    Ok(Paths { latch, exposed })
}
