ghost use Rattle.std.specs.Prelude.{◌≡◌, ◌≤◌, ◌<◌, ◌^◌, ◌%◌, ◌==◌, ◌++◌, ℕ, true, not, ◌&&◌, map, flat_map, if◌then◌else◌, IfOk, OnOk};
ghost use Rattle.std.specs.List.{list_all, list_any, range_with_len};
ghost use Rattle.lv_bits.specs.Values.{extended};
ghost use Rattle.lv_source.specs.Effect.{Label, common_of, free_of};
ghost use Rattle.lv_source.specs.Flow.{is_full_of};
ghost use Rattle.lv_flat.specs.Signals.{Signals, declared_all};
ghost use Rattle.lv_flat.specs.Judged.{judge, reading, meaning, is_good};
ghost use Rattle.lv_flat.specs.Executing.{label_of};
ghost use Rattle.lv_extents.specs.Blocks.{are_good_arms};
ghost use Rattle.lv_paths.specs.Fits.{common_width, common_more, all_labels, IsFixedLabel, AreFixedLabels, AreFixedArms, fit_of, fits_of, is_fit, has_default};

use lv_bits::{NoMemory, Word};
use lv_extents::constant_value;
use lv_flat::{FlatArm, FlatExpr, Signal};
use lv_lower_exprs::own;
use sqlite_items::Items;
use std::alloc::Global;

/// The longest width of a `case`, and whether all are signed.
#[derive(Clone, Copy)]
pub(crate) struct Common {
    pub width: u32,
    pub signed: bool,
}

/// The number of a label and its free bits.
#[derive(Clone, Copy, Drop)]
pub(crate) struct Fit {
    pub value: u128,
    pub free: u128,
}

/// The common width and sign of labels before others.
fn common_labels(signals: &[Signal], labels: &[FlatExpr], rest: Common) -> Common
    requires good { list_all (is_good (declared_all signals.now)) labels.now ≡ true }
    requires most { rest.width ≤ 128 }
    ensures is { common_width result ≡ common_more (map (label_of (declared_all signals.now)) labels.now) (common_width rest) }
    ensures most { result.width ≤ 128 }
{
    let mut c = rest;
    let mut i = labels.len();
    while i > 0 {
        i -= 1;
        let of = own(signals, &labels[i]);
        c = Common {
            width: of.0.max(c.width),
            signed: of.1 & c.signed,
        };
    }
    c
}

/// Those of a selector and all labels.
fn common_case(signals: &[Signal], x: &FlatExpr, arms: &[FlatArm]) -> Common
    requires good { is_good (declared_all signals.now) x.now ≡ true }
    requires labels { are_good_arms (declared_all signals.now) arms.now ≡ true }
    ensures is { common_width result ≡ common_of (reading (declared_all signals.now) x.now) (all_labels (declared_all signals.now) arms.now) }
    ensures most { result.width ≤ 128 }
{
    let of = own(signals, x);
    let mut c = Common {
        width: of.0,
        signed: of.1,
    };
    let mut i = arms.len();
    while i > 0 {
        i -= 1;
        c = common_labels(signals, arms[i].labels.as_slice(), c);
    }
    c
}

/// Whether an expression at a greater width is its own value, extended.
fn extends(e: &FlatExpr) -> bool
    ensures { (S : Signals) → (judge S e.now).extends ≡ result }
{
    match e {
        FlatExpr::Un(op, _) => !op.keeps_width(),
        FlatExpr::Bin(op, _, _) => !op.keeps_width(),
        FlatExpr::Div(_, _) => false,
        FlatExpr::Rem(_, _) => false,
        FlatExpr::Cond(_, _, _) => false,
        FlatExpr::Lit(_) => true,
        FlatExpr::Const(_, _) => true,
        FlatExpr::Signal(_, _) => true,
        FlatExpr::Cat(_) => true,
        FlatExpr::Rep(_, _) => true,
        FlatExpr::Cast(_, _) => true,
    }
}

fn low_bits(x: u128, width: u32) -> u128
    requires { width ≤ 128 }
    ensures { result ≡ x % 2 ^ width }
{
    if width == 128 {
        x
    } else {
        x % (1u128 << width)
    }
}

fn extend(x: u128, from: u32, to: u32, signed: bool) -> u128
    requires some { 1 ≤ from }
    requires wide { from ≤ to }
    requires most { to ≤ 128 }
    requires fits { x < 2 ^ from }
    ensures { result ≡ extended signed from to x }
{
    if signed {
        let word = Word::new(from, x).sext(to);
        word.value()
    } else {
        x
    }
}

/// The free bits of a label (IEEE 1364-2005, 9.5.1).
fn free_bits(signals: &[Signal], wild: bool, c: Common, label: &FlatExpr) -> u128
    requires good { is_good (declared_all signals.now) label.now ≡ true }
    requires wide { (meaning (declared_all signals.now) label.now).width ≤ c.width }
    requires most { c.width ≤ 128 }
    ensures { result ≡ (if wild then free_of c.signed c.width (judge (declared_all signals.now) label.now).literal else 0) }
{
    let of = own(signals, label);
    if !wild {
        return 0;
    }
    match label {
        FlatExpr::Lit(l) => {
            let low = low_bits(l.wild, c.width);
            low | extend(low_bits(l.wild, of.0), of.0, c.width, c.signed)
        }
        _ => 0,
    }
}

/// Adds the numbers of labels.
fn add_fits(
    alloc: Global,
    signals: &[Signal],
    wild: bool,
    c: Common,
    labels: &[FlatExpr],
    fits: &mut Items<Fit>,
) -> Result<(), NoMemory>
    requires labels { AreFixedLabels (declared_all signals.now) c.width labels.now }
    requires most { c.width ≤ 128 }
    ensures { OnOk result (fits.new ≡ fits.old ++ map (fit_of (declared_all signals.now) wild (common_width c)) labels.now) }
{
    for label in labels {
        let value = constant_value(alloc, signals, label, c.width, c.signed)?;
        let free = free_bits(signals, wild, c, label);
        fits.push(Fit { value, free })?;
    }
    Ok(())
}

/// The numbers of all labels.
fn all_fits(
    alloc: Global,
    signals: &[Signal],
    wild: bool,
    c: Common,
    arms: &[FlatArm],
) -> Result<Items<Fit>, NoMemory>
    requires labels { AreFixedArms (declared_all signals.now) c.width arms.now }
    requires most { c.width ≤ 128 }
    ensures { IfOk result (λ r. r ≡ flat_map (fits_of (declared_all signals.now) wild (common_width c)) arms.now) }
{
    let mut fits = Items::new(alloc);
    for arm in arms {
        add_fits(alloc, signals, wild, c, arm.labels.as_slice(), &mut fits)?;
    }
    Ok(fits)
}

fn is_fit(x: u128, fits: &[Fit]) -> bool
    ensures { result ≡ list_any (is_fit x) fits.now }
{
    for f in fits {
        if x | f.free == f.value | f.free {
            return true;
        }
    }
    false
}

fn power(n: u32) -> u128
    requires { n ≤ 8 }
    ensures { result ≡ 2 ^ n }
{
    1u128 << n
}

/// Whether each number of `from` bits, extended, fits some label.
fn covers(fits: &[Fit], signed: bool, from: u32, to: u32) -> bool
    requires some { 1 ≤ from }
    requires few { from ≤ 8 }
    requires wide { from ≤ to }
    requires most { to ≤ 128 }
    ensures { result ≡ list_all (λ (y : ℕ). list_any (is_fit (extended signed from to y)) fits.now) (range_with_len 0 (2 ^ from)) }
{
    for y in 0..power(from) {
        if !is_fit(extend(y, from, to, signed), fits) {
            return false;
        }
    }
    true
}

/// The width of the selector's values: its own one where it is extended, and else that of the `case`, where it may have a carry.
fn selector_width(signals: &[Signal], x: &FlatExpr, c: Common) -> u32
    requires good { is_good (declared_all signals.now) x.now ≡ true }
    requires wide { (meaning (declared_all signals.now) x.now).width ≤ c.width }
    ensures is { result ≡ (if (judge (declared_all signals.now) x.now).extends then (meaning (declared_all signals.now) x.now).width else c.width) }
    ensures some { 1 ≤ result }
    ensures wide { result ≤ c.width }
{
    let of = own(signals, x);
    if extends(x) { of.0 } else { c.width }
}

/// Whether each value of the selector has a label that fits, given whether all labels are constant. Each of at most 256 values is
/// held against the labels up to the first that fits.
fn is_full(
    alloc: Global,
    signals: &[Signal],
    wild: bool,
    x: &FlatExpr,
    arms: &[FlatArm],
    constant: bool,
) -> Result<bool, NoMemory>
    requires good { is_good (declared_all signals.now) x.now ≡ true }
    requires labels { are_good_arms (declared_all signals.now) arms.now ≡ true }
    requires constant { constant ≡ list_all (λ (l : Label). l.reading.constant) (all_labels (declared_all signals.now) arms.now) }
    ensures { IfOk result (λ r. r ≡ is_full_of wild (judge (declared_all signals.now) x.now).extends (reading (declared_all signals.now) x.now) (all_labels (declared_all signals.now) arms.now)) }
{
    let c = common_case(signals, x, arms);
    let width = selector_width(signals, x, c);
    let few = width <= 8;
    if !(few & constant) {
        return Ok(false);
    }
    let fits = all_fits(alloc, signals, wild, c, arms)?;
    Ok(covers(fits.as_slice(), c.signed, width, c.width))
}

/// Whether some arm has no labels.
fn has_default(arms: &[FlatArm]) -> bool
    ensures { result ≡ has_default arms.now }
{
    for arm in arms {
        if arm.labels.len() == 0 {
            return true;
        }
    }
    false
}

/// Whether a selector may fit no label of a `case` without a default (IEEE 1364-2005, 9.5).
pub(crate) fn may_miss(
    alloc: Global,
    signals: &[Signal],
    wild: bool,
    x: &FlatExpr,
    arms: &[FlatArm],
    constant: bool,
) -> Result<bool, NoMemory>
    requires good { is_good (declared_all signals.now) x.now ≡ true }
    requires labels { are_good_arms (declared_all signals.now) arms.now ≡ true }
    requires constant { constant ≡ list_all (λ (l : Label). l.reading.constant) (all_labels (declared_all signals.now) arms.now) }
    ensures { IfOk result (λ r. r ≡ (not (has_default arms.now) && not (is_full_of wild (judge (declared_all signals.now) x.now).extends (reading (declared_all signals.now) x.now) (all_labels (declared_all signals.now) arms.now)))) }
{
    if has_default(arms) {
        return Ok(false);
    }
    let full = is_full(alloc, signals, wild, x, arms, constant)?;
    Ok(!full)
}
