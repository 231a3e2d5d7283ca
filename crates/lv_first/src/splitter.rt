//! Deciding a formula by fixing its variables one after another.

ghost use Rattle.std.specs.Prelude.{◌≡◌, ◌≤◌, IfOk, IsTrue, ◌↔◌};
ghost use Rattle.lv_first.specs.Formulas.{IsValid, truth};

use crate::formula::{Formula, fixed, value_at_zero};
use lv_bits::NoMemory;
use std::alloc::Global;

/// Whether the formula is true whatever the variables from `start` to before `end` are.
pub(crate) fn is_valid(
    alloc: Global,
    formula: &Formula,
    start: usize,
    end: usize,
) -> Result<bool, NoMemory>
    requires { start ≤ end }
    ensures { IfOk result (λ yes. IsTrue yes ↔ IsValid start end (truth formula.now)) }
{
    if start == end {
        return Ok(value_at_zero(formula));
    }
    if let Formula::Constant(value) = formula {
        return Ok(*value);
    }
    let low = fixed(alloc, formula, start, false)?;
    let low = is_valid(alloc, &low, start + 1, end)?;
    if !low {
        return Ok(false);
    }
    let high = fixed(alloc, formula, start, true)?;
    let high = is_valid(alloc, &high, start + 1, end)?;
    Ok(high)
}
