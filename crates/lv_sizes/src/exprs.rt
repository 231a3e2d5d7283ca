ghost use Rattle.std.specs.Prelude.{◌+◌};
ghost use Rattle.lv_source.specs.Limits.{expr_nodes};
ghost use Rattle.lv_sizes.specs.Counts.{Spends, added, step_nodes};

use lv_ast::{Expr, Select};

/// What is left of `left` after the nodes of an expression; nothing where it has more.
#[cycle(exprs)]
pub fn spend_expr(expr: &Expr, left: u64) -> Option<u64>
    ensures { Spends left (expr_nodes expr.now) result }
{
    if left == 0 {
        return None;
    }
    let left = left - 1;
    match expr {
        Expr::Lit(_) => Some(left),
        Expr::Name(_, selects) => spend_selects(selects.as_slice(), left),
        Expr::Un(_, a) => spend_expr(a.get(), left),
        Expr::Bin(_, a, b) => spend_both(a.get(), b.get(), left),
        Expr::Div(a, b) => spend_both(a.get(), b.get(), left),
        Expr::Rem(a, b) => spend_both(a.get(), b.get(), left),
        Expr::Cond(c, a, b) => match spend_expr(c.get(), left) {
            None => None,
            Some(rest) => spend_both(a.get(), b.get(), rest),
        },
        Expr::Cat(parts) => spend_exprs(parts.as_slice(), left),
        Expr::Rep(count, parts) => match spend_expr(count.get(), left) {
            None => None,
            Some(rest) => spend_exprs(parts.as_slice(), rest),
        },
        Expr::Cast(_, a) => spend_expr(a.get(), left),
    }
}

#[cycle(exprs)]
fn spend_both(a: &Expr, b: &Expr, left: u64) -> Option<u64>
    ensures { Spends left (expr_nodes a.now + expr_nodes b.now) result }
{
    match spend_expr(a, left) {
        None => None,
        Some(rest) => spend_expr(b, rest),
    }
}

#[cycle(exprs)]
pub fn spend_exprs(exprs: &[Expr], left: u64) -> Option<u64>
    ensures { Spends left (added expr_nodes exprs.now) result }
{
    let mut left = left;
    for expr in exprs {
        match spend_expr(expr, left) {
            None => return None,
            Some(rest) => left = rest,
        }
    }
    Some(left)
}

#[cycle(exprs)]
pub fn spend_selects(selects: &[Select], left: u64) -> Option<u64>
    ensures { Spends left (added step_nodes selects.now) result }
{
    let mut left = left;
    for select in selects {
        match spend_select(select, left) {
            None => return None,
            Some(rest) => left = rest,
        }
    }
    Some(left)
}

#[cycle(exprs)]
fn spend_select(select: &Select, left: u64) -> Option<u64>
    ensures { Spends left (step_nodes select.now) result }
{
    match select {
        Select::Bit(a) => spend_expr(a.get(), left),
        Select::Part(a, b) => spend_both(a.get(), b.get(), left),
        Select::Up(a, b) => spend_both(a.get(), b.get(), left),
        Select::Down(a, b) => spend_both(a.get(), b.get(), left),
    }
}
