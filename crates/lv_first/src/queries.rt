//! The three formulas that decide the list of all candidates.

ghost use Rattle.std.specs.Prelude.{◌≡◌, ◌+◌, ◌*◌, ◌<◌, ◌^◌, ◌≤◌, IfOk, IsTrue, ◌↔◌};
ghost use Rattle.lv_first.specs.Formulas.{truth, variable, both};
ghost use Rattle.lv_first.specs.Problems.{alike_in, left, right, all_alike, chosen_alike, first_alike, state_alike, shown_alike, base_formula, step_formula, imply_formula};

use crate::formula::{Formula, conjunction, copied, equality, implication};
use crate::problem::Problem;
use crate::splitter::is_valid;
use lv_bits::NoMemory;
use std::alloc::Global;

/// The formula in the left copy.
fn in_left(
    alloc: Global,
    formula: &Formula,
    registers: usize,
    inputs: usize,
) -> Result<Formula, NoMemory>
    requires { 2 * registers + 2 * inputs ≤ 16 }
    ensures { IfOk result (λ f. truth f ≡ left registers inputs (truth formula.now)) }
{
    copied(alloc, formula, registers, inputs, 0)
}

/// The formula in the right copy.
fn in_right(
    alloc: Global,
    formula: &Formula,
    registers: usize,
    inputs: usize,
) -> Result<Formula, NoMemory>
    requires { 2 * registers + 2 * inputs ≤ 16 }
    ensures { IfOk result (λ f. truth f ≡ right registers inputs (truth formula.now)) }
{
    copied(alloc, formula, registers, inputs, registers + inputs)
}

/// The formula has one value in both copies.
fn one_alike(
    alloc: Global,
    formula: &Formula,
    registers: usize,
    inputs: usize,
) -> Result<Formula, NoMemory>
    requires { 2 * registers + 2 * inputs ≤ 16 }
    ensures { IfOk result (λ f. truth f ≡ alike_in registers inputs (truth formula.now)) }
{
    let left = in_left(alloc, formula, registers, inputs)?;
    let right = in_right(alloc, formula, registers, inputs)?;
    let f = equality(alloc, left, right)?;
    Ok(f)
}

#[tactic(auto, using(crate::proofs::Truths::truths))]
fn every_alike(
    alloc: Global,
    formulas: &[Formula],
    registers: usize,
    inputs: usize,
) -> Result<Formula, NoMemory>
    requires { 2 * registers + 2 * inputs ≤ 16 }
    ensures { IfOk result (λ f. truth f ≡ all_alike registers inputs formulas.now) }
{
    match formulas {
        [] => Ok(Formula::Constant(true)),
        [first, rest @ ..] => {
            let first = one_alike(alloc, first, registers, inputs)?;
            let rest = every_alike(alloc, rest, registers, inputs)?;
            let f = conjunction(alloc, first, rest)?;
            Ok(f)
        }
    }
}

#[tactic(auto, using(crate::proofs::Truths::truths))]
fn variable_alike(
    alloc: Global,
    number: usize,
    registers: usize,
    inputs: usize,
) -> Result<Formula, NoMemory>
    requires { 2 * registers + 2 * inputs ≤ 16 }
    ensures { IfOk result (λ f. truth f ≡ alike_in registers inputs (variable number)) }
{
    let formula = Formula::Variable(number);
    let f = one_alike(alloc, &formula, registers, inputs)?;
    Ok(f)
}

#[tactic(auto, using(crate::proofs::Truths::truths))]
fn those_alike(
    alloc: Global,
    numbers: &[usize],
    registers: usize,
    inputs: usize,
) -> Result<Formula, NoMemory>
    requires { 2 * registers + 2 * inputs ≤ 16 }
    ensures { IfOk result (λ f. truth f ≡ chosen_alike registers inputs numbers.now) }
{
    match numbers {
        [] => Ok(Formula::Constant(true)),
        [first, rest @ ..] => {
            let first = variable_alike(alloc, *first, registers, inputs)?;
            let rest = those_alike(alloc, rest, registers, inputs)?;
            let f = conjunction(alloc, first, rest)?;
            Ok(f)
        }
    }
}

/// The registers below `count` are alike.
#[tactic(auto, using(crate::proofs::Truths::truths))]
fn below_alike(
    alloc: Global,
    count: usize,
    registers: usize,
    inputs: usize,
) -> Result<Formula, NoMemory>
    requires { 2 * registers + 2 * inputs ≤ 16 }
    ensures { IfOk result (λ f. truth f ≡ first_alike registers inputs count) }
{
    if count == 0 {
        return Ok(Formula::Constant(true));
    }
    let last = variable_alike(alloc, count - 1, registers, inputs)?;
    let rest = below_alike(alloc, count - 1, registers, inputs)?;
    let f = conjunction(alloc, last, rest)?;
    Ok(f)
}

fn same_state(alloc: Global, problem: &Problem) -> Result<Formula, NoMemory>
    ensures { IfOk result (λ f. truth f ≡ state_alike problem.now) }
{
    below_alike(alloc, problem.registers, problem.registers, problem.inputs)
}

fn same_shown(alloc: Global, problem: &Problem) -> Result<Formula, NoMemory>
    ensures { IfOk result (λ f. truth f ≡ shown_alike problem.now) }
{
    let left = in_left(alloc, &problem.retire, problem.registers, problem.inputs)?;
    let right = in_right(alloc, &problem.retire, problem.registers, problem.inputs)?;
    let retire = conjunction(alloc, left, right)?;
    let shown = every_alike(
        alloc,
        problem.contract.as_slice(),
        problem.registers,
        problem.inputs,
    )?;
    let f = implication(alloc, retire, shown)?;
    Ok(f)
}

/// States that agree where the contract file says so agree in all registers.
pub(crate) fn base(alloc: Global, problem: &Problem) -> Result<Formula, NoMemory>
    ensures { IfOk result (λ f. truth f ≡ base_formula problem.now) }
{
    let equal = those_alike(
        alloc,
        problem.equal.as_slice(),
        problem.registers,
        problem.inputs,
    )?;
    let state = same_state(alloc, problem)?;
    let f = implication(alloc, equal, state)?;
    Ok(f)
}

fn before(alloc: Global, problem: &Problem) -> Result<Formula, NoMemory>
    ensures { IfOk result (λ f. truth f ≡ both (state_alike problem.now) (shown_alike problem.now)) }
{
    let state = same_state(alloc, problem)?;
    let shown = same_shown(alloc, problem)?;
    let f = conjunction(alloc, state, shown)?;
    Ok(f)
}

/// Where all candidates hold, they hold in the next cycle.
pub(crate) fn step(alloc: Global, problem: &Problem) -> Result<Formula, NoMemory>
    ensures { IfOk result (λ f. truth f ≡ step_formula problem.now) }
{
    let before = before(alloc, problem)?;
    let next = every_alike(
        alloc,
        problem.next.as_slice(),
        problem.registers,
        problem.inputs,
    )?;
    let retire = one_alike(alloc, &problem.retire, problem.registers, problem.inputs)?;
    let after = conjunction(alloc, next, retire)?;
    let f = implication(alloc, before, after)?;
    Ok(f)
}

/// Where all candidates hold, the attacker sees the same.
pub(crate) fn imply(alloc: Global, problem: &Problem) -> Result<Formula, NoMemory>
    ensures { IfOk result (λ f. truth f ≡ imply_formula problem.now) }
{
    let before = before(alloc, problem)?;
    let seen = every_alike(
        alloc,
        problem.attacker.as_slice(),
        problem.registers,
        problem.inputs,
    )?;
    let f = implication(alloc, before, seen)?;
    Ok(f)
}
