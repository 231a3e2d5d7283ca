ghost use Rattle.std.specs.Prelude.{◌≡◌, ◌≤◌, ℕ, suc, ◌+◌, ◌++◌, IfOk, flat_map};
ghost use Rattle.lv_source.specs.Limits.{stmt_size, nodes_alone};
ghost use Rattle.lv_source.specs.Standing.{standing};
ghost use Rattle.lv_flat.specs.Signals.{declared_all};
ghost use Rattle.lv_resolve.specs.Indices.{Throughout};
ghost use Rattle.lv_sizes.specs.Counts.{Spends};
ghost use Rattle.lv_sizes.specs.Totals.{arm_size, plus, total};
ghost use Rattle.lv_sizes.specs.Sizes.{IsStandingFault, LeftAnswer, LoopLeftAnswer, TurnAnswer, TurnsAnswer};

use crate::error::SizeError;
use crate::exprs::spend_exprs;
use crate::heads::{spend_assignment, spend_loop_header, spend_node, spend_test};
use crate::size::Size;
use lv_ast::{Arm, Expr, Ident, Stmt};
use lv_const::Consts;
use lv_flat::Signal;
use lv_headers::{HeaderError, header, set_turn};
use lv_resolve::{Indices, ResolveError};
use std::alloc::Global;

/// What is left with these nodes.
fn with_nodes(left: Size, rest: Option<u64>) -> Result<Size, SizeError>
    ensures right { (n : ℕ) → Spends left.nodes n rest → LeftAnswer left (nodes_alone n) (λ y. ⊥) result }
    ensures same { IfOk result (λ z. z.turns ≡ left.turns) }
{
    match rest {
        None => Err(SizeError::Nodes),
        Some(nodes) => Ok(Size {
            turns: left.turns,
            nodes,
        }),
    }
}

/// What is left without so many turns.
fn without(left: Size, turns: usize) -> Size
    requires { turns ≤ left.turns }
    ensures turns { result.turns + turns ≡ left.turns }
    ensures nodes { result.nodes ≡ left.nodes }
{
    Size {
        turns: left.turns - turns as u64,
        nodes: left.nodes,
    }
}

/// What is left after a statement, counted as often as its parts stand there.
#[cycle(stmts)]
pub fn spend_stmt<B: Indices>(
    alloc: Global,
    signals: &[Signal],
    bindings: &B,
    all: &mut Consts,
    early: &mut Consts,
    stmt: &Stmt,
    left: Size,
) -> Result<Size, SizeError>
    requires { left.turns ≤ 1000000 }
    ensures all { all.new ≡ all.old }
    ensures early { early.new ≡ early.old }
    ensures less { IfOk result (λ z. z.turns ≤ left.turns) }
    ensures right { Throughout (declared_all signals.now) (B.numbers bindings.now) (B.indices bindings.now) all.old early.old (λ here.
        LeftAnswer left (stmt_size here.names stmt.now) (IsStandingFault (standing here stmt.now)) result) }
{
    match stmt {
        Stmt::Null => with_nodes(left, spend_node(left.nodes)),
        Stmt::Block(_, body) => match with_nodes(left, spend_node(left.nodes)) {
            Err(error) => Err(error),
            Ok(rest) => spend_stmts(alloc, signals, bindings, all, early, body.as_slice(), rest),
        },
        Stmt::If(test, then, other) => {
            match with_nodes(left, spend_test(test.get(), left.nodes)) {
                Err(error) => Err(error),
                Ok(rest) => match other {
                    None => spend_stmt(alloc, signals, bindings, all, early, then.get(), rest),
                    Some(other) => spend_both(
                        alloc,
                        signals,
                        bindings,
                        all,
                        early,
                        then.get(),
                        other.get(),
                        rest,
                    ),
                },
            }
        }
        Stmt::Case(_, selector, arms) => {
            match with_nodes(left, spend_test(selector.get(), left.nodes)) {
                Err(error) => Err(error),
                Ok(rest) => spend_arms(alloc, signals, bindings, all, early, arms.as_slice(), rest),
            }
        }
        Stmt::Loop(index, start, test, again, next, body) => spend_loop(
            alloc,
            signals,
            bindings,
            all,
            early,
            body.get(),
            index,
            start.get(),
            test.get(),
            again,
            next.get(),
            left,
        ),
        Stmt::Now(target, value, _) => with_nodes(
            left,
            spend_assignment(target, value.get(), left.nodes),
        ),
        Stmt::Later(target, value, _) => with_nodes(
            left,
            spend_assignment(target, value.get(), left.nodes),
        ),
    }
}

#[cycle(stmts)]
fn spend_stmts<B: Indices>(
    alloc: Global,
    signals: &[Signal],
    bindings: &B,
    all: &mut Consts,
    early: &mut Consts,
    stmts: &[Stmt],
    left: Size,
) -> Result<Size, SizeError>
    requires { left.turns ≤ 1000000 }
    ensures all { all.new ≡ all.old }
    ensures early { early.new ≡ early.old }
    ensures less { IfOk result (λ z. z.turns ≤ left.turns) }
    ensures right { Throughout (declared_all signals.now) (B.numbers bindings.now) (B.indices bindings.now) all.old early.old (λ here.
        LeftAnswer left (total (stmt_size here.names) stmts.now) (IsStandingFault (flat_map (standing here) stmts.now)) result) }
{
    let mut rest = left;
    for stmt in stmts {
        match spend_stmt(alloc, signals, bindings, all, early, stmt, rest) {
            Err(error) => return Err(error),
            Ok(next) => rest = next,
        }
    }
    Ok(rest)
}

#[cycle(stmts)]
fn spend_both<B: Indices>(
    alloc: Global,
    signals: &[Signal],
    bindings: &B,
    all: &mut Consts,
    early: &mut Consts,
    a: &Stmt,
    b: &Stmt,
    left: Size,
) -> Result<Size, SizeError>
    requires { left.turns ≤ 1000000 }
    ensures all { all.new ≡ all.old }
    ensures early { early.new ≡ early.old }
    ensures less { IfOk result (λ z. z.turns ≤ left.turns) }
    ensures right { Throughout (declared_all signals.now) (B.numbers bindings.now) (B.indices bindings.now) all.old early.old (λ here.
        LeftAnswer left (plus (stmt_size here.names a.now) (stmt_size here.names b.now))
        (IsStandingFault (standing here a.now ++ standing here b.now)) result) }
{
    match spend_stmt(alloc, signals, bindings, all, early, a, left) {
        Err(error) => Err(error),
        Ok(rest) => spend_stmt(alloc, signals, bindings, all, early, b, rest),
    }
}

#[cycle(stmts)]
fn spend_arms<B: Indices>(
    alloc: Global,
    signals: &[Signal],
    bindings: &B,
    all: &mut Consts,
    early: &mut Consts,
    arms: &[Arm],
    left: Size,
) -> Result<Size, SizeError>
    requires { left.turns ≤ 1000000 }
    ensures all { all.new ≡ all.old }
    ensures early { early.new ≡ early.old }
    ensures less { IfOk result (λ z. z.turns ≤ left.turns) }
    ensures right { Throughout (declared_all signals.now) (B.numbers bindings.now) (B.indices bindings.now) all.old early.old (λ here.
        LeftAnswer left (total (arm_size here.names) arms.now) (IsStandingFault (flat_map (λ a. standing here a.body) arms.now)) result) }
{
    let mut rest = left;
    for arm in arms {
        match spend_arm(alloc, signals, bindings, all, early, arm, rest) {
            Err(error) => return Err(error),
            Ok(next) => rest = next,
        }
    }
    Ok(rest)
}

#[cycle(stmts)]
fn spend_arm<B: Indices>(
    alloc: Global,
    signals: &[Signal],
    bindings: &B,
    all: &mut Consts,
    early: &mut Consts,
    arm: &Arm,
    left: Size,
) -> Result<Size, SizeError>
    requires { left.turns ≤ 1000000 }
    ensures all { all.new ≡ all.old }
    ensures early { early.new ≡ early.old }
    ensures less { IfOk result (λ z. z.turns ≤ left.turns) }
    ensures right { Throughout (declared_all signals.now) (B.numbers bindings.now) (B.indices bindings.now) all.old early.old (λ here.
        LeftAnswer left (arm_size here.names arm.now) (IsStandingFault (standing here arm.now.body)) result) }
{
    match with_nodes(left, spend_exprs(arm.labels.as_slice(), left.nodes)) {
        Err(error) => Err(error),
        Ok(rest) => spend_stmt(alloc, signals, bindings, all, early, &arm.body, rest),
    }
}

#[cycle(stmts)]
fn spend_loop<B: Indices>(
    alloc: Global,
    signals: &[Signal],
    bindings: &B,
    all: &mut Consts,
    early: &mut Consts,
    body: &Stmt,
    index: &Ident,
    start: &Expr,
    test: &Expr,
    again: &Ident,
    next: &Expr,
    left: Size,
) -> Result<Size, SizeError>
    requires { left.turns ≤ 1000000 }
    ensures all { all.new ≡ all.old }
    ensures early { early.new ≡ early.old }
    ensures less { IfOk result (λ z. z.turns ≤ left.turns) }
    ensures right { Throughout (declared_all signals.now) (B.numbers bindings.now) (B.indices bindings.now) all.old early.old (λ here.
        LoopLeftAnswer here index.now start.now test.now again.now next.now body.now left result) }
{
    match with_nodes(left, spend_loop_header(start, test, next, left.nodes)) {
        Err(error) => Err(error),
        Ok(rest) => {
            let most = rest.turns as usize;
            match header(
                alloc, signals, bindings, all, early, false, index, start, test, again, next, most,
            ) {
                Err(HeaderError::Limit) => Err(SizeError::Turns),
                Err(HeaderError::Fault(error)) => Err(SizeError::Fault(error)),
                Ok(turns) => {
                    let rest = without(rest, turns.len());
                    spend_turns(
                        alloc,
                        signals,
                        bindings,
                        all,
                        early,
                        body,
                        index,
                        turns.as_slice(),
                        rest,
                    )
                }
            }
        }
    }
}

/// The body of a loop at each of these values.
#[cycle(stmts)]
fn spend_turns<B: Indices>(
    alloc: Global,
    signals: &[Signal],
    bindings: &B,
    all: &mut Consts,
    early: &mut Consts,
    body: &Stmt,
    index: &Ident,
    turns: &[u32],
    left: Size,
) -> Result<Size, SizeError>
    requires { left.turns ≤ 1000000 }
    ensures all { all.new ≡ all.old }
    ensures early { early.new ≡ early.old }
    ensures less { IfOk result (λ z. z.turns ≤ left.turns) }
    ensures right { Throughout (declared_all signals.now) (B.numbers bindings.now) (B.indices bindings.now) all.old early.old (λ here.
        TurnsAnswer here index.now body.now turns.now left result) }
{
    let mut rest = left;
    for turn in turns {
        match spend_turn(
            alloc, signals, bindings, all, early, body, index, *turn, rest,
        ) {
            Err(error) => return Err(error),
            Ok(next) => rest = next,
        }
    }
    Ok(rest)
}

#[cycle(stmts)]
fn spend_turn<B: Indices>(
    alloc: Global,
    signals: &[Signal],
    bindings: &B,
    all: &mut Consts,
    early: &mut Consts,
    body: &Stmt,
    index: &Ident,
    turn: u32,
    left: Size,
) -> Result<Size, SizeError>
    requires { left.turns ≤ 1000000 }
    ensures all { all.new ≡ all.old }
    ensures early { early.new ≡ early.old }
    ensures less { IfOk result (λ z. z.turns ≤ left.turns) }
    ensures right { Throughout (declared_all signals.now) (B.numbers bindings.now) (B.indices bindings.now) all.old early.old (λ here.
        TurnAnswer here index.now body.now turn left result) }
{
    let (all_len, early_len) = (all.len(), early.len());
    if set_turn(all, early, &index.name, turn).is_err() {
        return Err(SizeError::Fault(ResolveError::NoMemory));
    }
    let answer = spend_stmt(alloc, signals, bindings, all, early, body, left);
    all.cut(all_len);
    early.cut(early_len);
    answer
}
