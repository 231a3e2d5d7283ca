ghost use Rattle.std.specs.Prelude.{◌≡◌, ◌≤◌, ◌<◌, ◌^◌, ◌-ℤ◌, true, pos, IfOk};
ghost use Rattle.lv_source.specs.Values.{nowhere, number_of};
ghost use Rattle.lv_source.specs.Places.{lowest};
ghost use Rattle.lv_flat.specs.Signals.{declared_all};
ghost use Rattle.lv_flat.specs.Judged.{is_good, reading, meaning};
ghost use Rattle.lv_values.specs.Windows.{integer};
ghost use Rattle.lv_lower_exprs.specs.Named.{chosen_by};
ghost use Rattle.lv_extents.specs.Adds.{IsFixed};

use lv_bits::NoMemory;
use lv_flat::{FlatExpr, FlatSelect, Signal};
use lv_lower_exprs::{own, value};
use lv_netlist::Builder;
use lv_values::{Number, Value, lowered, number_of};
use std::alloc::Global;

/// The value of a constant expression at a width, at least the own one, and a sign (IEEE 1364-2005, 5.4, 5.5). It names no
/// signal, so that none need be given to evaluate it.
pub fn constant_value(
    alloc: Global,
    _signals: &[Signal],
    e: &FlatExpr,
    width: u32,
    signed: bool,
) -> Result<u128, NoMemory>
    requires good { is_good (declared_all _signals.now) e.now ≡ true }
    requires constant { (reading (declared_all _signals.now) e.now).constant ≡ true }
    requires wide { (meaning (declared_all _signals.now) e.now).width ≤ width }
    requires most { width ≤ 128 }
    ensures is { IfOk result (λ n. n ≡ (meaning (declared_all _signals.now) e.now).value width signed nowhere) }
    ensures fits { IfOk result (λ n. n < 2 ^ width) }
{
    let mut b = Builder::new(alloc);
    let r = value(alloc, &mut b, &[], &[], &[], e, width, signed)?;
    let _ = b.len();
    match r {
        Value::Known(word) => Ok(word.value()),
        Value::Node(_, _) => Ok(0),
    }
}

/// The number that a constant index stands for, lower by `down`.
fn index_number(
    alloc: Global,
    signals: &[Signal],
    e: &FlatExpr,
    down: u32,
) -> Result<Number, NoMemory>
    requires good { is_good (declared_all signals.now) e.now ≡ true }
    requires constant { (reading (declared_all signals.now) e.now).constant ≡ true }
    requires near { down ≤ 128 }
    ensures { IfOk result (λ z. integer z ≡ number_of (meaning (declared_all signals.now) e.now) nowhere -ℤ pos down) }
{
    let of = own(signals, e);
    let code = constant_value(alloc, signals, e, of.0, of.1)?;
    let z = number_of(code, of.1, of.0);
    Ok(lowered(z, down))
}

/// The number with which a select begins whose indices are constant (5.2).
pub(crate) fn first_number(
    alloc: Global,
    signals: &[Signal],
    s: &FlatSelect,
) -> Result<Number, NoMemory>
    requires { IsFixed (declared_all signals.now) s.now }
    ensures { IfOk result (λ z. integer z ≡ lowest (chosen_by (declared_all signals.now) s.now) nowhere) }
{
    match s {
        FlatSelect::Bit(e) => {
            let z = index_number(alloc, signals, e.get(), 0)?;
            Ok(z)
        }
        FlatSelect::Part(left, right) => {
            let low = (*left).min(*right);
            Ok(Number::Above(u128::from(low)))
        }
        FlatSelect::Up(e, _) => {
            let z = index_number(alloc, signals, e.get(), 0)?;
            Ok(z)
        }
        FlatSelect::Down(e, count) => {
            let z = index_number(alloc, signals, e.get(), *count - 1)?;
            Ok(z)
        }
    }
}
