ghost use Rattle.std.specs.Prelude.{suc, ◌+◌};
ghost use Rattle.lv_source.specs.Limits.{expr_nodes, target_nodes};
ghost use Rattle.lv_sizes.specs.Counts.{Spends};

use crate::exprs::spend_expr;
use crate::targets::spend_target;
use lv_ast::{Expr, Target};

/// A statement alone.
pub fn spend_node(left: u64) -> Option<u64>
    ensures { Spends left 1 result }
{
    if left == 0 { None } else { Some(left - 1) }
}

/// A statement with an expression.
pub fn spend_test(expr: &Expr, left: u64) -> Option<u64>
    ensures { Spends left (suc (expr_nodes expr.now)) result }
{
    match spend_node(left) {
        None => None,
        Some(rest) => spend_expr(expr, rest),
    }
}

/// What an assignment writes, and what it reads.
pub fn spend_sides(target: &Target, value: &Expr, left: u64) -> Option<u64>
    ensures { Spends left (target_nodes target.now + expr_nodes value.now) result }
{
    match spend_target(target, left) {
        None => None,
        Some(rest) => spend_expr(value, rest),
    }
}

/// An assignment as a statement.
pub fn spend_assignment(target: &Target, value: &Expr, left: u64) -> Option<u64>
    ensures { Spends left (suc (target_nodes target.now + expr_nodes value.now)) result }
{
    match spend_node(left) {
        None => None,
        Some(rest) => spend_sides(target, value, rest),
    }
}

/// The expressions of a loop's header.
pub fn spend_header(start: &Expr, test: &Expr, next: &Expr, left: u64) -> Option<u64>
    ensures { Spends left (expr_nodes start.now + expr_nodes test.now + expr_nodes next.now) result }
{
    match spend_expr(start, left) {
        None => None,
        Some(rest) => match spend_expr(test, rest) {
            None => None,
            Some(rest) => spend_expr(next, rest),
        },
    }
}

/// A loop as a statement, without its body.
pub fn spend_loop_header(start: &Expr, test: &Expr, next: &Expr, left: u64) -> Option<u64>
    ensures { Spends left (suc (expr_nodes start.now + expr_nodes test.now + expr_nodes next.now)) result }
{
    match spend_node(left) {
        None => None,
        Some(rest) => spend_header(start, test, next, rest),
    }
}
