ghost use Rattle.std.specs.Prelude.{◌≡◌, ◌≤◌, ◌<◌, ◌^◌, ◌==◌, Bool, true, map, length, flat_map, bit_or, if◌then◌else◌, IfOk};
ghost use Rattle.std.specs.List.{list_all, list_any};
ghost use Rattle.lv_bits.specs.Values.{bit};
ghost use Rattle.lv_source.specs.Effect.{common_of, free_of, fits_label};
ghost use Rattle.lv_flat.specs.Signals.{declared_all};
ghost use Rattle.lv_flat.specs.Cells.{all_cells};
ghost use Rattle.lv_flat.specs.Judged.{judge, reading, meaning, is_good};
ghost use Rattle.lv_flat.specs.Executing.{label_of};
ghost use Rattle.lv_values.specs.Worlds.{World, IsIn, width_of, number, Gives};
ghost use Rattle.lv_lower_exprs.specs.Tables.{IsTable, AreFirsts};
ghost use Rattle.lv_lower_blocks.specs.Cased.{common_width, common_more, labels_of, good_labels, AreWithin, Fits, IsDefault};

use crate::puts::is_zero;
use lv_bits::{NoMemory, Op, Word};
use lv_flat::{FlatArm, FlatExpr, Signal};
use lv_lower_exprs::{own, value};
use lv_netlist::Builder;
use lv_values::{Value, binary_value, cut, extend, zeros};
use std::alloc::Global;

/// The longest width of a `case`, and whether all are signed.
#[derive(Clone, Copy)]
pub(crate) struct Common {
    pub width: u32,
    pub signed: bool,
}

/// That of labels before others.
fn common_labels(signals: &[Signal], labels: &[FlatExpr], rest: Common) -> Common
    requires good { list_all (is_good (declared_all signals.now)) labels.now ≡ true }
    requires most { rest.width ≤ 128 }
    ensures is { common_width result ≡ common_more (map (label_of (declared_all signals.now)) labels.now) (common_width rest) }
    ensures most { result.width ≤ 128 }
{
    let mut c = rest;
    let mut i = labels.len();
    while i > 0 {
        i -= 1;
        let of = own(signals, &labels[i]);
        c = Common {
            width: of.0.max(c.width),
            signed: of.1 & c.signed,
        };
    }
    c
}

/// That of a selector and all labels.
pub(crate) fn common_case(signals: &[Signal], x: &FlatExpr, arms: &[FlatArm]) -> Common
    requires good { is_good (declared_all signals.now) x.now ≡ true }
    requires labels { list_all (good_labels (declared_all signals.now)) arms.now ≡ true }
    ensures is { common_width result ≡ common_of (reading (declared_all signals.now) x.now) (flat_map (labels_of (declared_all signals.now)) arms.now) }
    ensures most { result.width ≤ 128 }
{
    let of = own(signals, x);
    let mut c = Common {
        width: of.0,
        signed: of.1,
    };
    let mut i = arms.len();
    while i > 0 {
        i -= 1;
        c = common_labels(signals, arms[i].labels.as_slice(), c);
    }
    c
}

/// The free bits of a label (IEEE 1364-2005, 9.5.1).
fn free(
    b: &mut Builder,
    signals: &[Signal],
    wild: bool,
    c: &Common,
    label: &FlatExpr,
) -> Result<Value, NoMemory>
    requires good { is_good (declared_all signals.now) label.now ≡ true }
    requires wide { (meaning (declared_all signals.now) label.now).width ≤ c.now.width }
    requires most { c.now.width ≤ 128 }
    ensures { IfOk result (λ r. Gives b.old b.new r c.now.width (λ w. if wild then free_of c.now.signed c.now.width (judge (declared_all signals.now) label.now).literal else 0)) }
{
    let of = own(signals, label);
    if !wild {
        return Ok(zeros(c.width));
    }
    match label {
        FlatExpr::Lit(l) => {
            let word = Value::Known(Word::new(128, l.wild));
            let low = cut(b, word.same(), 0, c.width)?;
            let x = cut(b, word, 0, of.0)?;
            let y = extend(b, x, c.width, c.signed)?;
            let r = binary_value(b, Op::Or, false, low, y)?;
            Ok(r)
        }
        _ => Ok(zeros(c.width)),
    }
}

/// Whether two values agree outside of the free bits.
fn agree(b: &mut Builder, x: Value, y: Value, free: Value) -> Result<Value, NoMemory>
    requires x_in { IsIn b.old x }
    requires y_in { IsIn b.old y }
    requires free_in { IsIn b.old free }
    requires same { width_of y ≡ width_of x }
    requires wide { width_of free ≡ width_of x }
    ensures { IfOk result (λ r. Gives b.old b.new r 1 (λ w. bit (bit_or (number w x) (number w free) == bit_or (number w y) (number w free)))) }
{
    if is_zero(&free) {
        let r = binary_value(b, Op::Eq, false, x, y)?;
        return Ok(r);
    }
    let p = binary_value(b, Op::Or, false, x, free.same())?;
    let q = binary_value(b, Op::Or, false, y, free)?;
    let r = binary_value(b, Op::Eq, false, p, q)?;
    Ok(r)
}

/// Whether a label fits the selector.
fn fits_label(
    alloc: Global,
    b: &mut Builder,
    signals: &[Signal],
    first: &[u64],
    table: &[u64],
    wild: bool,
    c: &Common,
    selector: &Value,
    label: &FlatExpr,
) -> Result<Value, NoMemory>
    requires good { is_good (declared_all signals.now) label.now ≡ true }
    requires wide { (meaning (declared_all signals.now) label.now).width ≤ c.now.width }
    requires most { c.now.width ≤ 128 }
    requires selector_in { IsIn b.old selector.now }
    requires width { width_of selector.now ≡ c.now.width }
    requires first { AreFirsts (declared_all signals.now) first.now }
    requires table { IsTable b.old (all_cells (declared_all signals.now)) table.now }
    ensures { IfOk result (λ r. Fits b.old b.new (all_cells (declared_all signals.now)) table.now r selector.now (λ x v. fits_label v wild (common_width c.now) x (label_of (declared_all signals.now) label.now))) }
{
    let y = value(alloc, b, signals, first, table, label, c.width, c.signed)?;
    let mask = free(b, signals, wild, c, label)?;
    let r = agree(b, selector.same(), y, mask)?;
    Ok(r)
}

/// Whether one of two bits is 1.
fn either(b: &mut Builder, x: Value, y: Value) -> Result<Value, NoMemory>
    requires x_in { IsIn b.old x }
    requires y_in { IsIn b.old y }
    requires one { width_of x ≡ 1 }
    requires other { width_of y ≡ 1 }
    ensures { IfOk result (λ r. Gives b.old b.new r 1 (λ w. bit_or (number w x) (number w y))) }
{
    if is_zero(&x) {
        return Ok(y);
    }
    if is_zero(&y) {
        return Ok(x);
    }
    let r = binary_value(b, Op::Or, false, x, y)?;
    Ok(r)
}

/// Whether one of the labels fits the selector.
pub(crate) fn fits_one(
    alloc: Global,
    b: &mut Builder,
    signals: &[Signal],
    first: &[u64],
    table: &[u64],
    wild: bool,
    c: &Common,
    selector: &Value,
    labels: &[FlatExpr],
) -> Result<Value, NoMemory>
    requires good { list_all (is_good (declared_all signals.now)) labels.now ≡ true }
    requires wide { AreWithin (declared_all signals.now) labels.now c.now.width }
    requires most { c.now.width ≤ 128 }
    requires selector_in { IsIn b.old selector.now }
    requires width { width_of selector.now ≡ c.now.width }
    requires first { AreFirsts (declared_all signals.now) first.now }
    requires table { IsTable b.old (all_cells (declared_all signals.now)) table.now }
    ensures { IfOk result (λ r. Fits b.old b.new (all_cells (declared_all signals.now)) table.now r selector.now (λ x v. list_any (fits_label v wild (common_width c.now) x) (map (label_of (declared_all signals.now)) labels.now))) }
{
    let mut any = zeros(1);
    for label in labels {
        let r = fits_label(alloc, b, signals, first, table, wild, c, selector, label)?;
        any = either(b, any, r)?;
    }
    Ok(any)
}

/// The place of the last arm without labels; if there is none, that behind all.
pub(crate) fn default_at(arms: &[FlatArm]) -> u64
    ensures { IsDefault arms.now result }
{
    let mut i = arms.len();
    while i > 0 {
        i -= 1;
        if arms[i].labels.len() == 0 {
            return i as u64;
        }
    }
    arms.len() as u64
}
