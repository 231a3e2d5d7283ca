ghost use Rattle.std.specs.Prelude.{◌≡◌, true, map, flat_map, IfOk, OnOk, Bool};
ghost use Rattle.std.specs.List.{list_all};
ghost use Rattle.lv_source.specs.Meaning.{Reading, index_reads, all_constant, parts_of};
ghost use Rattle.lv_flat.specs.Cells.{AreDistinct, all_cells};
ghost use Rattle.lv_flat.specs.Signals.{declared_all};
ghost use Rattle.lv_flat.specs.Judged.{is_good, reading, judge_select};
ghost use Rattle.lv_lower_exprs.specs.Named.{is_good_select, are_good_selects};
ghost use Rattle.lv_extents.specs.Adds.{Adds, taken};

use crate::run::add_named;
use lv_bits::NoMemory;
use lv_flat::{FlatExpr, FlatSelect, Signal};
use lv_spans::Span;
use sqlite_items::Items;
use std::alloc::Global;

/// Adds the bits that an expression reads, and answers whether it is constant.
#[cycle(reads)]
pub fn add_reads(
    alloc: Global,
    signals: &[Signal],
    e: &FlatExpr,
    into: &mut Items<Span>,
) -> Result<bool, NoMemory>
    requires good { is_good (declared_all signals.now) e.now ≡ true }
    requires distinct { AreDistinct (all_cells (declared_all signals.now)) }
    ensures reads { OnOk result (Adds (declared_all signals.now) into.old into.new (reading (declared_all signals.now) e.now).reads) }
    ensures constant { IfOk result (λ c. c ≡ (reading (declared_all signals.now) e.now).constant) }
{
    match e {
        FlatExpr::Lit(_) => Ok(true),
        FlatExpr::Const(_, ss) => {
            let fixed = add_index_reads(alloc, signals, ss.as_slice(), into)?;
            Ok(fixed)
        }
        FlatExpr::Signal(k, ss) => {
            let ss = ss.as_slice();
            let fixed = add_index_reads(alloc, signals, ss, into)?;
            add_named(alloc, signals, *k, ss, fixed, into)?;
            Ok(false)
        }
        FlatExpr::Un(_, a) => {
            let x = add_reads(alloc, signals, a.get(), into)?;
            Ok(x)
        }
        FlatExpr::Bin(_, a, b) => {
            let x = add_reads(alloc, signals, a.get(), into)?;
            let y = add_reads(alloc, signals, b.get(), into)?;
            Ok(x & y)
        }
        FlatExpr::Div(a, b) => {
            let x = add_reads(alloc, signals, a.get(), into)?;
            let y = add_reads(alloc, signals, b.get(), into)?;
            Ok(x & y)
        }
        FlatExpr::Rem(a, b) => {
            let x = add_reads(alloc, signals, a.get(), into)?;
            let y = add_reads(alloc, signals, b.get(), into)?;
            Ok(x & y)
        }
        FlatExpr::Cond(c, a, b) => {
            let x = add_reads(alloc, signals, c.get(), into)?;
            let y = add_reads(alloc, signals, a.get(), into)?;
            let z = add_reads(alloc, signals, b.get(), into)?;
            Ok(x & (y & z))
        }
        FlatExpr::Cat(es) => {
            let x = add_all(alloc, signals, es.as_slice(), into)?;
            Ok(x)
        }
        FlatExpr::Rep(_, es) => {
            let x = add_all(alloc, signals, es.as_slice(), into)?;
            Ok(x)
        }
        FlatExpr::Cast(_, a) => {
            let x = add_reads(alloc, signals, a.get(), into)?;
            Ok(x)
        }
    }
}

/// Adds what expressions read, and answers whether all are constant.
#[cycle(reads)]
pub fn add_all(
    alloc: Global,
    signals: &[Signal],
    es: &[FlatExpr],
    into: &mut Items<Span>,
) -> Result<bool, NoMemory>
    requires good { list_all (λ (x : Bool). x) (map (is_good (declared_all signals.now)) es.now) ≡ true }
    requires distinct { AreDistinct (all_cells (declared_all signals.now)) }
    ensures reads { OnOk result (Adds (declared_all signals.now) into.old into.new (flat_map (λ (r : Reading). r.reads) (map (reading (declared_all signals.now)) es.now))) }
    ensures constant { IfOk result (λ c. c ≡ list_all (λ (r : Reading). r.constant) (map (reading (declared_all signals.now)) es.now)) }
{
    let mut all = true;
    for e in es {
        let x = add_reads(alloc, signals, e, into)?;
        all = all & x;
    }
    Ok(all)
}

/// Adds what the indices of selects read, and answers whether all of these are constant.
#[cycle(reads)]
pub(crate) fn add_index_reads(
    alloc: Global,
    signals: &[Signal],
    ss: &[FlatSelect],
    into: &mut Items<Span>,
) -> Result<bool, NoMemory>
    requires good { are_good_selects (declared_all signals.now) ss.now ≡ true }
    requires distinct { AreDistinct (all_cells (declared_all signals.now)) }
    ensures reads { OnOk result (Adds (declared_all signals.now) into.old into.new (index_reads (taken (declared_all signals.now) ss.now))) }
    ensures constant { IfOk result (λ c. c ≡ all_constant (taken (declared_all signals.now) ss.now)) }
{
    let mut all = true;
    for s in ss {
        let x = add_select_reads(alloc, signals, s, into)?;
        all = all & x;
    }
    Ok(all)
}

/// Adds what the index of a select reads, and answers whether it is constant.
#[cycle(reads)]
fn add_select_reads(
    alloc: Global,
    signals: &[Signal],
    s: &FlatSelect,
    into: &mut Items<Span>,
) -> Result<bool, NoMemory>
    requires good { is_good_select (declared_all signals.now) s.now ≡ true }
    requires distinct { AreDistinct (all_cells (declared_all signals.now)) }
    ensures reads { OnOk result (Adds (declared_all signals.now) into.old into.new (flat_map (λ (r : Reading). r.reads) (parts_of (judge_select (declared_all signals.now) s.now).choice))) }
    ensures constant { IfOk result (λ c. c ≡ list_all (λ (r : Reading). r.constant) (parts_of (judge_select (declared_all signals.now) s.now).choice)) }
{
    match s {
        FlatSelect::Bit(e) => {
            let x = add_reads(alloc, signals, e.get(), into)?;
            Ok(x)
        }
        FlatSelect::Part(_, _) => Ok(true),
        FlatSelect::Up(e, _) => {
            let x = add_reads(alloc, signals, e.get(), into)?;
            Ok(x)
        }
        FlatSelect::Down(e, _) => {
            let x = add_reads(alloc, signals, e.get(), into)?;
            Ok(x)
        }
    }
}
