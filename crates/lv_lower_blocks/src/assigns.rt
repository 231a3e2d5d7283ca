ghost use Rattle.std.specs.Prelude.{◌≡◌, ◌≤◌, true, IfOk, OnOk};
ghost use Rattle.lv_source.specs.Effect.{assigned};
ghost use Rattle.lv_flat.specs.Signals.{declared_all};
ghost use Rattle.lv_flat.specs.Cells.{all_cells};
ghost use Rattle.lv_flat.specs.Judged.{reading, meaning, is_good};
ghost use Rattle.lv_flat.specs.Good.{good_target};
ghost use Rattle.lv_values.specs.Worlds.{IsIn, width_of as wide_of};
ghost use Rattle.lv_lower_exprs.specs.Tables.{IsTable, AreFirsts, Means};
ghost use Rattle.lv_lower_blocks.specs.Aimed.{Prepares, target_bits};
ghost use Rattle.lv_lower_blocks.specs.Running.{Stores, Assigns};

use crate::aims::{Aim, aims, aims_width};
use crate::puts::write;
use lv_bits::NoMemory;
use lv_flat::{FlatExpr, FlatTarget, Signal};
use lv_lower_exprs::{own, value};
use lv_netlist::Builder;
use lv_values::{Value, cut};
use std::alloc::Global;

/// The value that is assigned to so many bits.
fn assigned(
    alloc: Global,
    b: &mut Builder,
    signals: &[Signal],
    first: &[u64],
    table: &[u64],
    e: &FlatExpr,
    width: u32,
) -> Result<Value, NoMemory>
    requires good { is_good (declared_all signals.now) e.now ≡ true }
    requires some { 1 ≤ width }
    requires most { width ≤ 128 }
    requires first { AreFirsts (declared_all signals.now) first.now }
    requires table { IsTable b.old (all_cells (declared_all signals.now)) table.now }
    ensures { IfOk result (λ r. Means b.old b.new r (all_cells (declared_all signals.now)) table.now width (λ v. assigned v width (meaning (declared_all signals.now) e.now))) }
{
    let of = own(signals, e);
    let wide = width.max(of.0);
    let x = value(alloc, b, signals, first, table, e, wide, of.1)?;
    let r = cut(b, x, 0, width)?;
    Ok(r)
}

/// The places of a target, and the value that is assigned to it.
#[derive(Drop)]
pub(crate) struct Prepared {
    pub aims: Vec<Aim>,
    pub value: Value,
}

pub(crate) fn prepare(
    alloc: Global,
    b: &mut Builder,
    signals: &[Signal],
    first: &[u64],
    table: &[u64],
    target: &FlatTarget,
    e: &FlatExpr,
) -> Result<Prepared, NoMemory>
    requires target { good_target (declared_all signals.now) target.now ≡ true }
    requires good { is_good (declared_all signals.now) e.now ≡ true }
    requires first { AreFirsts (declared_all signals.now) first.now }
    requires table { IsTable b.old (all_cells (declared_all signals.now)) table.now }
    ensures { IfOk result (λ r. Prepares b.old b.new (declared_all signals.now) (all_cells (declared_all signals.now)) table.now target.now e.now r.aims.items r.value) }
{
    let aims = aims(alloc, b, signals, first, table, target, Vec::new(alloc))?;
    let width = aims_width(signals, aims.as_slice());
    let value = assigned(alloc, b, signals, first, table, e, width)?;
    Ok(Prepared { aims, value })
}

/// Writes a value to a target (IEEE 1364-2005, 6.1.1), the indices of which are what the table showed before.
///
/// `first` has the number of the first cell of each signal, `table` the node of each cell. The value has the width of the target.
/// After `NoMemory` the graph may have more nodes, and the table be any.
pub fn store(
    alloc: Global,
    b: &mut Builder,
    signals: &[Signal],
    first: &[u64],
    table: &mut [u64],
    target: &FlatTarget,
    x: Value,
) -> Result<(), NoMemory>
    requires target { good_target (declared_all signals.now) target.now ≡ true }
    requires x_in { IsIn b.old x }
    requires width { wide_of x ≡ target_bits (declared_all signals.now) target.now }
    requires first { AreFirsts (declared_all signals.now) first.now }
    requires table { IsTable b.old (all_cells (declared_all signals.now)) table.old }
    ensures { OnOk result (Stores b.old b.new (declared_all signals.now) (all_cells (declared_all signals.now)) table.old table.new target.now x) }
{
    let aims = aims(alloc, b, signals, first, table, target, Vec::new(alloc))?;
    write(alloc, b, signals, first, table, aims.as_slice(), x)
}

/// Carries out a continuous assignment (IEEE 1364-2005, 6.1). The value is taken at the greater of both widths, by the sign of the
/// right side alone.
///
/// After `NoMemory` the graph may have more nodes, and the table be any.
pub fn assign(
    alloc: Global,
    b: &mut Builder,
    signals: &[Signal],
    first: &[u64],
    table: &mut [u64],
    target: &FlatTarget,
    e: &FlatExpr,
) -> Result<(), NoMemory>
    requires target { good_target (declared_all signals.now) target.now ≡ true }
    requires good { is_good (declared_all signals.now) e.now ≡ true }
    requires first { AreFirsts (declared_all signals.now) first.now }
    requires table { IsTable b.old (all_cells (declared_all signals.now)) table.old }
    ensures { OnOk result (Assigns b.old b.new (declared_all signals.now) (all_cells (declared_all signals.now)) table.old table.new target.now e.now) }
{
    let p = prepare(alloc, b, signals, first, table, target, e)?;
    write(
        alloc,
        b,
        signals,
        first,
        table,
        p.aims.as_slice(),
        p.value.same(),
    )
}
