ghost use Rattle.std.specs.Prelude.{◌≡◌, ◌&&◌, ◌++◌, map, flat_map, true, false};
ghost use Rattle.std.specs.List.{list_all};
ghost use Rattle.lv_source.specs.Effect.{with_index};
ghost use Rattle.lv_source.specs.Meaning.{read_expr};
ghost use Rattle.lv_source.specs.ScopeRules.{is_index_of};
ghost use Rattle.lv_source.specs.Standing.{standing, at_turn, one, Test};
ghost use Rattle.lv_ast.specs.Names.{alone};
ghost use Rattle.lv_flat.specs.Signals.{declared_all};
ghost use Rattle.lv_flat.proofs.Doings.{done_if, done_null};
ghost use Rattle.lv_flat.proofs.SourceDoings.{source_done};
ghost use Rattle.lv_resolve.specs.Forms.{has_operands};
ghost use Rattle.lv_resolve.specs.Indices.{Throughout};
ghost use Rattle.lv_resolve_stmts.specs.Statements.{StmtAnswer, has_stmt_operands};
ghost use Rattle.lv_resolve_stmts.specs.Cases.{ArmsAnswer, case_standing, case_done, has_arm_operands};
ghost use Rattle.lv_resolve_stmts.specs.Joins.{StmtsAnswer, loop_standing, loop_done};

use crate::assigns::assigned_at;
use crate::branches::{condition, if_else, if_of};
use crate::cases::{Arms, case_of, head_at, labels_at, no_arms, with_arm};
use crate::error::{StmtError, of_header, of_node};
use crate::resolved::{ResolvedStmt, Stmts, block_of, no_stmts, nothing, with_stmt};
use lv_ast::{Arm, Expr, Ident, Stmt};
use lv_bits::Text;
use lv_const::Consts;
use lv_flat::Signal;
use lv_headers::{header, set_turn};
use lv_resolve::{Indices, OwnType};
use std::alloc::Global;

/// A statement where it stands (IEEE 1364-2005, section 9).
#[cycle(stmts)]
pub fn resolve_stmt<B: Indices>(
    alloc: Global,
    signals: &[Signal],
    bindings: &B,
    all: &mut Consts,
    early: &mut Consts,
    stmt: &Stmt,
) -> Result<ResolvedStmt, StmtError>
    ensures all { all.new ≡ all.old }
    ensures early { early.new ≡ early.old }
    ensures right { Throughout (declared_all signals.now) (B.numbers bindings.now) (B.indices bindings.now) all.old early.old (λ here.
        StmtAnswer (declared_all signals.now) (standing here stmt.now) (source_done here.names stmt.now) (has_stmt_operands stmt.now) result) }
{
    match stmt {
        Stmt::Null => Ok(nothing(alloc)),
        Stmt::Block(_, body) => {
            match stmts(alloc, signals, bindings, all, early, body.as_slice()) {
                Err(error) => Err(error),
                Ok(found) => Ok(block_of(found)),
            }
        }
        Stmt::If(test, then, other) => match other {
            None => one_branch(alloc, signals, bindings, all, early, then.get(), test.get()),
            Some(other) => two_branches(
                alloc,
                signals,
                bindings,
                all,
                early,
                then.get(),
                other.get(),
                test.get(),
            ),
        },
        Stmt::Case(wild, selector, list) => case(
            alloc,
            signals,
            bindings,
            all,
            early,
            list.as_slice(),
            *wild,
            selector.get(),
        ),
        Stmt::Loop(index, start, test, again, next, body) => looped(
            alloc,
            signals,
            bindings,
            all,
            early,
            body.get(),
            index,
            start.get(),
            test.get(),
            again,
            next.get(),
        ),
        Stmt::Now(target, value, at) => assigned_at(
            alloc,
            signals,
            bindings,
            all,
            early,
            true,
            target,
            value.get(),
            *at,
        ),
        Stmt::Later(target, value, at) => assigned_at(
            alloc,
            signals,
            bindings,
            all,
            early,
            false,
            target,
            value.get(),
            *at,
        ),
    }
}

/// Statements, one after another.
#[cycle(stmts)]
fn stmts<B: Indices>(
    alloc: Global,
    signals: &[Signal],
    bindings: &B,
    all: &mut Consts,
    early: &mut Consts,
    list: &[Stmt],
) -> Result<Stmts, StmtError>
    ensures all { all.new ≡ all.old }
    ensures early { early.new ≡ early.old }
    ensures right { Throughout (declared_all signals.now) (B.numbers bindings.now) (B.indices bindings.now) all.old early.old (λ here.
        StmtsAnswer (declared_all signals.now) (flat_map (standing here) list.now) (map (source_done here.names) list.now) (list_all has_stmt_operands list.now) result) }
{
    let mut found = no_stmts(alloc);
    for stmt in list {
        match resolve_stmt(alloc, signals, bindings, all, early, stmt) {
            Err(error) => return Err(error),
            Ok(one) => match with_stmt(found, one) {
                Err(error) => return Err(error),
                Ok(more) => found = more,
            },
        }
    }
    Ok(found)
}

/// A branch alone.
#[cycle(stmts)]
fn one_branch<B: Indices>(
    alloc: Global,
    signals: &[Signal],
    bindings: &B,
    all: &mut Consts,
    early: &mut Consts,
    a: &Stmt,
    test: &Expr,
) -> Result<ResolvedStmt, StmtError>
    ensures all { all.new ≡ all.old }
    ensures early { early.new ≡ early.old }
    ensures right { Throughout (declared_all signals.now) (B.numbers bindings.now) (B.indices bindings.now) all.old early.old (λ here.
        StmtAnswer (declared_all signals.now) (one here (Test test.now) ++ standing here a.now)
        (done_if (read_expr here.names test.now) (source_done here.names a.now) done_null) (has_operands test.now && has_stmt_operands a.now) result) }
{
    match condition(alloc, signals, bindings, all, early, test) {
        Err(error) => Err(of_node(error)),
        Ok(found) => match resolve_stmt(alloc, signals, bindings, all, early, a) {
            Err(error) => Err(error),
            Ok(a) => if_of(alloc, found, a),
        },
    }
}

/// Both branches.
#[cycle(stmts)]
fn two_branches<B: Indices>(
    alloc: Global,
    signals: &[Signal],
    bindings: &B,
    all: &mut Consts,
    early: &mut Consts,
    a: &Stmt,
    b: &Stmt,
    test: &Expr,
) -> Result<ResolvedStmt, StmtError>
    ensures all { all.new ≡ all.old }
    ensures early { early.new ≡ early.old }
    ensures right { Throughout (declared_all signals.now) (B.numbers bindings.now) (B.indices bindings.now) all.old early.old (λ here.
        StmtAnswer (declared_all signals.now) (one here (Test test.now) ++ (standing here a.now ++ standing here b.now))
        (done_if (read_expr here.names test.now) (source_done here.names a.now) (source_done here.names b.now))
        (has_operands test.now && (has_stmt_operands a.now && has_stmt_operands b.now)) result) }
{
    match condition(alloc, signals, bindings, all, early, test) {
        Err(error) => Err(of_node(error)),
        Ok(found) => match resolve_stmt(alloc, signals, bindings, all, early, a) {
            Err(error) => Err(error),
            Ok(first) => match resolve_stmt(alloc, signals, bindings, all, early, b) {
                Err(error) => Err(error),
                Ok(second) => if_else(alloc, found, first, second),
            },
        },
    }
}

/// A `case` or a `casez` (IEEE 1364-2005, section 9.5).
#[cycle(stmts)]
fn case<B: Indices>(
    alloc: Global,
    signals: &[Signal],
    bindings: &B,
    all: &mut Consts,
    early: &mut Consts,
    list: &[Arm],
    wild: bool,
    selector: &Expr,
) -> Result<ResolvedStmt, StmtError>
    ensures all { all.new ≡ all.old }
    ensures early { early.new ≡ early.old }
    ensures right { Throughout (declared_all signals.now) (B.numbers bindings.now) (B.indices bindings.now) all.old early.old (λ here.
        StmtAnswer (declared_all signals.now) (case_standing here selector.now list.now) (case_done wild here.names selector.now list.now)
        (has_operands selector.now && list_all has_arm_operands list.now) result) }
{
    match head_at(alloc, signals, bindings, all, early, selector, list) {
        Err(error) => Err(error),
        Ok(head) => match arms(alloc, signals, bindings, all, early, list, head.kind) {
            Err(error) => Err(error),
            Ok(found) => case_of(wild, head, found),
        },
    }
}

/// The arms of a `case`.
#[cycle(stmts)]
fn arms<B: Indices>(
    alloc: Global,
    signals: &[Signal],
    bindings: &B,
    all: &mut Consts,
    early: &mut Consts,
    list: &[Arm],
    kind: OwnType,
) -> Result<Arms, StmtError>
    ensures all { all.new ≡ all.old }
    ensures early { early.new ≡ early.old }
    ensures right { Throughout (declared_all signals.now) (B.numbers bindings.now) (B.indices bindings.now) all.old early.old (λ here.
        ArmsAnswer (declared_all signals.now) here kind.width kind.signed list.now result) }
{
    let mut found = no_arms(alloc);
    for arm in list {
        match labels_at(
            alloc,
            signals,
            bindings,
            all,
            early,
            kind,
            arm.labels.as_slice(),
        ) {
            Err(error) => return Err(of_node(error)),
            Ok(labels) => match resolve_stmt(alloc, signals, bindings, all, early, &arm.body) {
                Err(error) => return Err(error),
                Ok(one) => match with_arm(found, labels, one) {
                    Err(error) => return Err(error),
                    Ok(more) => found = more,
                },
            },
        }
    }
    Ok(found)
}

/// A loop: its body once for each turn.
#[cycle(stmts)]
fn looped<B: Indices>(
    alloc: Global,
    signals: &[Signal],
    bindings: &B,
    all: &mut Consts,
    early: &mut Consts,
    body: &Stmt,
    index: &Ident,
    start: &Expr,
    test: &Expr,
    again: &Ident,
    next: &Expr,
) -> Result<ResolvedStmt, StmtError>
    ensures all { all.new ≡ all.old }
    ensures early { early.new ≡ early.old }
    ensures right { Throughout (declared_all signals.now) (B.numbers bindings.now) (B.indices bindings.now) all.old early.old (λ here.
        StmtAnswer (declared_all signals.now) (loop_standing here index.now start.now test.now again.now next.now body.now)
        (loop_done here.names index.now start.now test.now next.now body.now) (has_stmt_operands body.now) result) }
{
    match header(
        alloc, signals, bindings, all, early, false, index, start, test, again, next, 1000000,
    ) {
        Err(error) => Err(of_header(error)),
        Ok(values) => {
            match turns(
                alloc,
                signals,
                bindings,
                all,
                early,
                body,
                &index.name,
                values.as_slice(),
            ) {
                Err(error) => Err(error),
                Ok(found) => Ok(block_of(found)),
            }
        }
    }
}

/// The body of a loop at each of these values of its index.
#[cycle(stmts)]
fn turns<B: Indices>(
    alloc: Global,
    signals: &[Signal],
    bindings: &B,
    all: &mut Consts,
    early: &mut Consts,
    body: &Stmt,
    index: &Text,
    values: &[u32],
) -> Result<Stmts, StmtError>
    ensures all { all.new ≡ all.old }
    ensures early { early.new ≡ early.old }
    ensures right { Throughout (declared_all signals.now) (B.numbers bindings.now) (B.indices bindings.now) all.old early.old (λ here.
        is_index_of false (here.names (alone index.now)) ≡ true →
        StmtsAnswer (declared_all signals.now) (flat_map (λ k. standing (at_turn here index.now k) body.now) values.now)
        (map (λ k. source_done (with_index here.names index.now k) body.now) values.now) (has_stmt_operands body.now) result) }
{
    let mut found = no_stmts(alloc);
    for value in values {
        match turn(alloc, signals, bindings, all, early, body, index, *value) {
            Err(error) => return Err(error),
            Ok(one) => match with_stmt(found, one) {
                Err(error) => return Err(error),
                Ok(more) => found = more,
            },
        }
    }
    Ok(found)
}

/// The body of a loop at a value of its index.
#[cycle(stmts)]
fn turn<B: Indices>(
    alloc: Global,
    signals: &[Signal],
    bindings: &B,
    all: &mut Consts,
    early: &mut Consts,
    body: &Stmt,
    index: &Text,
    value: u32,
) -> Result<ResolvedStmt, StmtError>
    ensures all { all.new ≡ all.old }
    ensures early { early.new ≡ early.old }
    ensures right { Throughout (declared_all signals.now) (B.numbers bindings.now) (B.indices bindings.now) all.old early.old (λ here.
        is_index_of false (here.names (alone index.now)) ≡ true →
        StmtAnswer (declared_all signals.now) (standing (at_turn here index.now value) body.now)
        (source_done (with_index here.names index.now value) body.now) (has_stmt_operands body.now) result) }
{
    let (all_len, early_len) = (all.len(), early.len());
    if set_turn(all, early, index, value).is_err() {
        return Err(StmtError::NoMemory);
    }
    let answer = resolve_stmt(alloc, signals, bindings, all, early, body);
    all.cut(all_len);
    early.cut(early_len);
    answer
}
