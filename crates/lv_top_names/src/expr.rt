ghost use Rattle.std.specs.Prelude.{IfOk, IfErr};
ghost use Rattle.lv_flat.specs.Signals.{declared_all};
ghost use Rattle.lv_top_names.specs.Resolved.{IsInTop, IsFaultInTop};

use crate::names::TopNames;
use lv_ast::Expr;
use lv_const::Consts;
use lv_flat::Signal;
use lv_resolve::{Place, ResolveError, Resolved, resolve_expr};
use std::alloc::Global;

/// An expression of a contract at its own width and sign (IEEE 1364-2005, sections 5.4 and 5.5), its names paths from the top. Ok
/// is a flat tree with an equal reading, and exactly where no node of it has a fault UnknownName, NotConstant, ZeroDivisor or
/// Range; an error is such a fault at its place. `NoMemory` may come at any time.
pub fn resolve(alloc: Global, signals: &[Signal], expr: &Expr) -> Result<Resolved, ResolveError>
    ensures right { IfOk result (λ r. IsInTop (declared_all signals.now) expr.now r.expr) }
    ensures wrong { IfErr result (IsFaultInTop (declared_all signals.now) expr.now) }
{
    let none = Consts::new(alloc);
    let names = TopNames { signals };
    let place = Place {
        signals,
        bindings: &names,
        all: &none,
        early: &none,
    };
    let answer = resolve_expr(alloc, &place, expr, 0);
    let Place {
        signals: _,
        bindings: _,
        all: _,
        early: _,
    } = place;
    answer
}
