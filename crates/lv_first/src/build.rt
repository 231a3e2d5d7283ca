//! The formulas of a design's expressions.

ghost use Rattle.std.specs.Prelude.{◌≡◌, ◌↔◌, ◌++◌, true, [], IfOk, IsTrue, MatchOption};
ghost use Rattle.lv_bits.specs.declared.op.Op.TheVariants as o;
ghost use Rattle.lv_first.specs.FirstForm.{IsBitExpr, is_bitwise, scope_of};
ghost use Rattle.lv_first.specs.Formulas.{truth, negated};
ghost use Rattle.lv_first.specs.Signals.{IsBitOf, IsJoinedBy};

use crate::formula::{Formula, conjunction, difference, disjunction, negation};
use crate::signals::Signals;
use lv_ast::{Expr, Path};
use lv_bits::{NoMemory, Op};
use std::alloc::Global;

fn is_inverse(op: Op) -> bool
    ensures { IsTrue result ↔ op ≡ o.Not }
{
    match op {
        Op::Not => true,
        _ => false,
    }
}

/// Both formulas joined by the operator, where it is a bitwise one.
#[tactic(auto, using(crate::proofs::Joins::joins))]
fn joined(alloc: Global, op: Op, a: Formula, b: Formula) -> Result<Option<Formula>, NoMemory>
    ensures { IfOk result (λ answer. MatchOption answer (is_bitwise op ≡ true → ⊥) (λ f. IsJoinedBy op (truth a) (truth b) (truth f))) }
{
    match op {
        Op::And => {
            let f = conjunction(alloc, a, b)?;
            Ok(Some(f))
        }
        Op::Or => {
            let f = disjunction(alloc, a, b)?;
            Ok(Some(f))
        }
        Op::Xor => {
            let f = difference(alloc, a, b)?;
            Ok(Some(f))
        }
        _ => Ok(None),
    }
}

/// The inverse of an operand's formula, where the operator is `~`.
fn inverted(alloc: Global, op: Op, a: Formula) -> Result<Option<Formula>, NoMemory>
    ensures { IfOk result (λ answer. MatchOption answer (op ≡ o.Not → ⊥) (λ f. (op ≡ o.Not) × (truth f ≡ negated (truth a)))) }
{
    if !is_inverse(op) {
        return Ok(None);
    }
    let f = negation(alloc, a)?;
    Ok(Some(f))
}

fn formula_of_name(signals: &Signals, path: &Path) -> Option<Formula>
    ensures { MatchOption result (IsBitExpr (signals.now.registers ++ signals.now.inputs) (Expr.Name path.now []) → ⊥) (λ f.
        IsBitExpr (signals.now.registers ++ signals.now.inputs) (Expr.Name path.now []) ×
        IsBitOf (scope_of signals.now.registers signals.now.inputs) (signals.now.registers ++ signals.now.inputs) (Expr.Name path.now []) (truth f)) }
{
    let number = signals.number(path)?;
    Some(Formula::Variable(number))
}

/// The formula of an expression of signals, `~`, `&`, `|` and `^`.
pub(crate) fn formula_of(
    alloc: Global,
    signals: &Signals,
    expr: &Expr,
) -> Result<Option<Formula>, NoMemory>
    ensures { IfOk result (λ answer. MatchOption answer (IsBitExpr (signals.now.registers ++ signals.now.inputs) expr.now → ⊥) (λ f.
        IsBitExpr (signals.now.registers ++ signals.now.inputs) expr.now ×
        IsBitOf (scope_of signals.now.registers signals.now.inputs) (signals.now.registers ++ signals.now.inputs) expr.now (truth f))) }
{
    match expr {
        Expr::Name(path, selects) => {
            if !selects.is_empty() {
                return Ok(None);
            }
            Ok(formula_of_name(signals, path))
        }
        Expr::Un(op, a) => {
            let Some(a) = formula_of(alloc, signals, a.get())? else {
                return Ok(None);
            };
            let f = inverted(alloc, *op, a)?;
            Ok(f)
        }
        Expr::Bin(op, a, b) => {
            let Some(a) = formula_of(alloc, signals, a.get())? else {
                return Ok(None);
            };
            let Some(b) = formula_of(alloc, signals, b.get())? else {
                return Ok(None);
            };
            let f = joined(alloc, *op, a, b)?;
            Ok(f)
        }
        _ => Ok(None),
    }
}
