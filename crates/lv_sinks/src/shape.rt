ghost use Rattle.std.specs.Prelude.{◌≡◌, not};
ghost use Rattle.lv_source.specs.Names.{Names};
ghost use Rattle.lv_source.specs.Parts.{as_target};
ghost use Rattle.lv_source.specs.ScopeRules.{is_none};
ghost use Rattle.lv_sinks.specs.Sinks.{all_targets};

use lv_ast::Expr;

/// Whether an expression is a name, a select of one or a concatenation of such.
#[cycle(shapes)]
pub fn is_sink(expr: &Expr) -> bool
    ensures { (names : Names) → result ≡ not (is_none (as_target names expr.now)) }
{
    match expr {
        Expr::Name(_, _) => true,
        Expr::Cat(parts) => are_sinks(parts.as_slice()),
        _ => false,
    }
}

#[cycle(shapes)]
fn are_sinks(exprs: &[Expr]) -> bool
    ensures { (names : Names) → result ≡ not (is_none (all_targets names exprs.now)) }
{
    for expr in exprs {
        if !is_sink(expr) {
            return false;
        }
    }
    true
}
