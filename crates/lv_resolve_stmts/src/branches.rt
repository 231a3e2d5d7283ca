ghost use Rattle.std.specs.Prelude.{◌≡◌, IfOk, IfErr};
ghost use Rattle.lv_flat.specs.Signals.{declared_all};
ghost use Rattle.lv_resolve.specs.Forms.{Anywhere};
ghost use Rattle.lv_resolve.specs.Resolved.{ResolveAnswer};
ghost use Rattle.lv_resolve_stmts.specs.Joins.{IsIf, IsIfElse};
ghost use Rattle.lv_resolve_stmts.specs.declared.error.StmtError.TheVariants.{NoMemory};

use crate::error::StmtError;
use crate::resolved::{ResolvedStmt, boxed};
use lv_ast::Expr;
use lv_const::Consts;
use lv_flat::{FlatStmt, Signal};
use lv_held::Held;
use lv_resolve::{Bindings, Place, ResolveError, Resolved, resolve_expr};
use std::alloc::Global;

/// A condition, at its own width and sign.
pub fn condition<B: Bindings>(
    alloc: Global,
    signals: &[Signal],
    bindings: &B,
    all: &Consts,
    early: &Consts,
    test: &Expr,
) -> Result<Resolved, ResolveError>
    ensures { Anywhere (declared_all signals.now) (B.numbers bindings.now) all.now early.now (λ here.
        ResolveAnswer (declared_all signals.now) here 0 test.now result) }
{
    let place = Place {
        signals,
        bindings,
        all,
        early,
    };
    let found = resolve_expr(alloc, &place, test, 0);
    let Place {
        signals: _,
        bindings: _,
        all: _,
        early: _,
    } = place;
    found
}

/// A branch alone.
pub fn if_of(alloc: Global, test: Resolved, then: ResolvedStmt) -> Result<ResolvedStmt, StmtError>
    ensures ok { IfOk result (λ r. IsIf test then r) }
    ensures err { IfErr result (λ x. x ≡ NoMemory) }
{
    let (expr, mut clocks) = test.into_parts();
    let (then, more) = then.into_parts();
    if clocks.append(more).is_err() {
        return Err(StmtError::NoMemory);
    }
    let then = boxed(alloc, then.into_inner())?;
    Ok(ResolvedStmt {
        stmt: Held::new(FlatStmt::If(expr, then, None)),
        clocks,
    })
}

/// Both branches.
pub fn if_else(
    alloc: Global,
    test: Resolved,
    then: ResolvedStmt,
    other: ResolvedStmt,
) -> Result<ResolvedStmt, StmtError>
    ensures ok { IfOk result (λ r. IsIfElse test then other r) }
    ensures err { IfErr result (λ x. x ≡ NoMemory) }
{
    let (expr, mut clocks) = test.into_parts();
    let (then, more) = then.into_parts();
    let (other, last) = other.into_parts();
    if clocks.append(more).is_err() || clocks.append(last).is_err() {
        return Err(StmtError::NoMemory);
    }
    let then = boxed(alloc, then.into_inner())?;
    let other = boxed(alloc, other.into_inner())?;
    Ok(ResolvedStmt {
        stmt: Held::new(FlatStmt::If(expr, then, Some(other))),
        clocks,
    })
}
