ghost use Rattle.std.specs.Prelude.{◌≡◌, ◌&&◌, IfOk, IfErr};
ghost use Rattle.lv_source.specs.Effect.{pieces};
ghost use Rattle.lv_source.specs.Meaning.{read_expr};
ghost use Rattle.lv_source.specs.Standing.{one, Assign};
ghost use Rattle.lv_flat.specs.Signals.{declared_all};
ghost use Rattle.lv_flat.proofs.Doings.{goal_of};
ghost use Rattle.lv_resolve.specs.Forms.{Anywhere, has_operands};
ghost use Rattle.lv_resolve.specs.Targets.{has_target_operands};
ghost use Rattle.lv_resolve_stmts.specs.Statements.{StmtAnswer};
ghost use Rattle.lv_resolve_stmts.specs.Joins.{IsWritten, flat_assignment, done_write};
ghost use Rattle.lv_resolve_stmts.specs.declared.error.StmtError.TheVariants.{NoMemory};

use crate::error::{StmtError, of_node};
use crate::resolved::ResolvedStmt;
use lv_ast::{Expr, Target};
use lv_const::Consts;
use lv_flat::{FlatExpr, FlatStmt, FlatTarget, Signal};
use lv_held::Held;
use lv_resolve::{Bindings, Place, Resolved, ResolvedTarget, resolve_expr, resolve_target};
use std::alloc::Global;

fn assignment(now: bool, target: FlatTarget, value: Held<FlatExpr>, at: u64) -> FlatStmt
    ensures { result ≡ flat_assignment now target value at }
{
    if now {
        FlatStmt::Now(target, value, at)
    } else {
        FlatStmt::Later(target, value, at)
    }
}

/// An assignment from its sides.
fn written(
    now: bool,
    target: ResolvedTarget,
    value: Resolved,
    at: u64,
) -> Result<ResolvedStmt, StmtError>
    ensures ok { IfOk result (λ r. IsWritten now target value at r) }
    ensures err { IfErr result (λ x. x ≡ NoMemory) }
{
    let (target, mut clocks) = target.into_parts();
    let (expr, more) = value.into_parts();
    if clocks.append(more).is_err() {
        return Err(StmtError::NoMemory);
    }
    Ok(ResolvedStmt {
        stmt: Held::new(assignment(now, target.into_inner(), expr, at)),
        clocks,
    })
}

/// An assignment of a block, at once (`now`) or after it (IEEE 1364-2005, section 9.2).
fn assigned<B: Bindings>(
    alloc: Global,
    place: &Place<B>,
    now: bool,
    target: &Target,
    value: &Expr,
    at: u64,
) -> Result<ResolvedStmt, StmtError>
    ensures { Anywhere (declared_all place.now.signals.now) (B.numbers place.now.bindings.now) place.now.all.now place.now.early.now (λ here.
        StmtAnswer (declared_all place.now.signals.now) (one here (Assign now target.now value.now))
        (done_write now (goal_of (pieces here.names target.now)) (read_expr here.names value.now) at)
        (has_target_operands target.now && has_operands value.now) result) }
{
    match resolve_target(alloc, place, target, false) {
        Err(error) => Err(of_node(error)),
        Ok(to) => match resolve_expr(alloc, place, value, to.width) {
            Err(error) => Err(of_node(error)),
            Ok(from) => written(now, to, from, at),
        },
    }
}

/// So where the parts of the place are given.
pub fn assigned_at<B: Bindings>(
    alloc: Global,
    signals: &[Signal],
    bindings: &B,
    all: &Consts,
    early: &Consts,
    now: bool,
    target: &Target,
    value: &Expr,
    at: u64,
) -> Result<ResolvedStmt, StmtError>
    ensures { Anywhere (declared_all signals.now) (B.numbers bindings.now) all.now early.now (λ here.
        StmtAnswer (declared_all signals.now) (one here (Assign now target.now value.now))
        (done_write now (goal_of (pieces here.names target.now)) (read_expr here.names value.now) at)
        (has_target_operands target.now && has_operands value.now) result) }
{
    let place = Place {
        signals,
        bindings,
        all,
        early,
    };
    let found = assigned(alloc, &place, now, target, value, at);
    let Place {
        signals: _,
        bindings: _,
        all: _,
        early: _,
    } = place;
    found
}
