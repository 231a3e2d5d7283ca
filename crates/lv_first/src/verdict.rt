//! The verdict on the list of all candidates.

ghost use Rattle.std.specs.Prelude.{IfOk, IsTrue, ◌↔◌};
ghost use Rattle.lv_model.specs.Machine.{IsInductive, Implies};
ghost use Rattle.lv_first.specs.Formulas.{IsValid};
ghost use Rattle.lv_first.specs.Problems.{machine_of_problem, all_of, base_formula, step_formula, imply_formula};

use crate::problem::Problem;
use crate::queries::{base, imply, step};
use crate::splitter::is_valid;
use lv_bits::NoMemory;
use std::alloc::Global;

fn base_holds(alloc: Global, problem: &Problem, variables: usize) -> Result<bool, NoMemory>
    ensures { IfOk result (λ yes. IsTrue yes ↔ IsValid 0 variables (base_formula problem.now)) }
{
    let formula = base(alloc, problem)?;
    let holds = is_valid(alloc, &formula, 0, variables)?;
    Ok(holds)
}

fn step_holds(alloc: Global, problem: &Problem, variables: usize) -> Result<bool, NoMemory>
    ensures { IfOk result (λ yes. IsTrue yes ↔ IsValid 0 variables (step_formula problem.now)) }
{
    let formula = step(alloc, problem)?;
    let holds = is_valid(alloc, &formula, 0, variables)?;
    Ok(holds)
}

fn imply_holds(alloc: Global, problem: &Problem, variables: usize) -> Result<bool, NoMemory>
    ensures { IfOk result (λ yes. IsTrue yes ↔ IsValid 0 variables (imply_formula problem.now)) }
{
    let formula = imply(alloc, problem)?;
    let holds = is_valid(alloc, &formula, 0, variables)?;
    Ok(holds)
}

/// Whether the list of all candidates is inductive and implies that the attacker sees the same.
pub(crate) fn is_accepted(alloc: Global, problem: &Problem) -> Result<bool, NoMemory>
    ensures { IfOk result (λ yes. IsTrue yes ↔
        (IsInductive (machine_of_problem problem.now) 0 (all_of problem.now) × Implies (machine_of_problem problem.now) 0 (all_of problem.now))) }
{
    let variables = problem.registers + problem.inputs + problem.registers;
    let base = base_holds(alloc, problem, variables)?;
    let step = step_holds(alloc, problem, variables)?;
    let imply = imply_holds(alloc, problem, variables)?;
    Ok(base & step & imply)
}
