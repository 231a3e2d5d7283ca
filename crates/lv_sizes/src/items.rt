ghost use Rattle.std.specs.Prelude.{◌≡◌, ◌≤◌, ◌<◌, ℕ, ◌+◌, map, sum, MatchOption};
ghost use Rattle.lv_source.specs.Limits.{params_nodes, ports_nodes, conn_nodes};
ghost use Rattle.lv_flat.specs.Signals.{declared_all};
ghost use Rattle.lv_resolve.specs.Indices.{Throughout};
ghost use Rattle.lv_sizes.specs.Counts.{Spends};
ghost use Rattle.lv_sizes.specs.Sizes.{ItemAnswer, LoopAnswer, NodesAnswer, StmtAnswer};

use crate::error::SizeError;
use crate::heads::spend_header;
use crate::lists::{Counted, spend_all, spend_range, spend_ranged};
use crate::size::Size;
use crate::stmts::spend_stmt;
use lv_ast::{Conn, Expr, Ident, Inst, Item, Params, Ports, Stmt};
use lv_const::Consts;
use lv_flat::Signal;
use lv_headers::{HeaderError, header};
use lv_resolve::Indices;
use std::alloc::Global;

/// The size of what has nodes alone.
fn alone(most: u64, rest: Option<u64>) -> Result<Size, SizeError>
    ensures { (n : ℕ) → Spends most n rest → NodesAnswer most n result }
{
    match rest {
        None => Err(SizeError::Nodes),
        Some(rest) => Ok(Size {
            turns: 0,
            nodes: most.saturating_sub(rest),
        }),
    }
}

fn spend_ports(ports: &Ports, left: u64) -> Option<u64>
    ensures { Spends left (ports_nodes ports.now) result }
{
    match ports {
        Ports::Absent | Ports::Empty | Ports::Names(_) => Some(left),
        Ports::Declared(list) => spend_all(list.as_slice(), left),
    }
}

fn spend_instances(settings: &[Conn], insts: &[Inst], left: u64) -> Option<u64>
    ensures { Spends left (conn_nodes settings.now + sum (map (λ n. conn_nodes n.conns) insts.now)) result }
{
    match spend_all(settings, left) {
        None => None,
        Some(rest) => spend_all(insts, rest),
    }
}

/// The nodes of the header of a scope: of its parameters and ports, each range once. Nothing where there are more than `most`.
pub fn header_nodes(params: &[Params], ports: &Ports, most: u64) -> Option<u64>
    ensures { MatchOption result (most < sum (map params_nodes params.now) + ports_nodes ports.now)
        (λ n. (n ≡ sum (map params_nodes params.now) + ports_nodes ports.now) × (n ≤ most)) }
{
    match spend_all(params, most) {
        None => None,
        Some(rest) => match spend_ports(ports, rest) {
            None => None,
            Some(rest) => Some(most.saturating_sub(rest)),
        },
    }
}

fn always_size<B: Indices>(
    alloc: Global,
    signals: &[Signal],
    bindings: &B,
    all: &mut Consts,
    early: &mut Consts,
    stmt: &Stmt,
    turns_left: u64,
    nodes_left: u64,
) -> Result<Size, SizeError>
    requires { turns_left ≤ 1000000 }
    ensures all { all.new ≡ all.old }
    ensures early { early.new ≡ early.old }
    ensures right { Throughout (declared_all signals.now) (B.numbers bindings.now) (B.indices bindings.now) all.old early.old (λ here.
        StmtAnswer here stmt.now turns_left nodes_left result) }
{
    let left = Size {
        turns: turns_left,
        nodes: nodes_left,
    };
    match spend_stmt(alloc, signals, bindings, all, early, stmt, left) {
        Err(error) => Err(error),
        Ok(rest) => Ok(Size {
            turns: turns_left.saturating_sub(rest.turns),
            nodes: nodes_left.saturating_sub(rest.nodes),
        }),
    }
}

fn loop_size<B: Indices>(
    alloc: Global,
    signals: &[Signal],
    bindings: &B,
    all: &mut Consts,
    early: &mut Consts,
    index: &Ident,
    start: &Expr,
    test: &Expr,
    again: &Ident,
    next: &Expr,
    turns_left: u64,
    nodes_left: u64,
) -> Result<Size, SizeError>
    requires { turns_left ≤ 1000000 }
    ensures all { all.new ≡ all.old }
    ensures early { early.new ≡ early.old }
    ensures right { Throughout (declared_all signals.now) (B.numbers bindings.now) (B.indices bindings.now) all.old early.old (λ here.
        LoopAnswer here index.now start.now test.now again.now next.now turns_left nodes_left result) }
{
    match spend_header(start, test, next, nodes_left) {
        None => Err(SizeError::Nodes),
        Some(rest) => {
            let most = turns_left as usize;
            match header(
                alloc, signals, bindings, all, early, true, index, start, test, again, next, most,
            ) {
                Err(HeaderError::Limit) => Err(SizeError::Turns),
                Err(HeaderError::Fault(error)) => Err(SizeError::Fault(error)),
                Ok(turns) => Ok(Size {
                    turns: turns.len() as u64,
                    nodes: nodes_left.saturating_sub(rest),
                }),
            }
        }
    }
}

/// The size of an item at a place, in each scope with the names there: the turns of loops, and the nodes of expressions and statements,
/// each as often as it stands there. `Turns` and `Nodes` where there are more than what is left of each, told before the rest is
/// counted; where both are so, either is. `Fault` is a fault of the header of a loop. The constants are unchanged.
pub fn item_size<B: Indices>(
    alloc: Global,
    signals: &[Signal],
    bindings: &B,
    all: &mut Consts,
    early: &mut Consts,
    item: &Item,
    turns_left: u64,
    nodes_left: u64,
) -> Result<Size, SizeError>
    requires { turns_left ≤ 1000000 }
    ensures all { all.new ≡ all.old }
    ensures early { early.new ≡ early.old }
    ensures right { Throughout (declared_all signals.now) (B.numbers bindings.now) (B.indices bindings.now) all.old early.old (λ here.
        ItemAnswer here item.now turns_left nodes_left result) }
{
    match item {
        Item::Port(ports) => alone(nodes_left, spend_range(&ports.range, nodes_left)),
        Item::Wire(_, range, names) => alone(
            nodes_left,
            spend_ranged(range, names.as_slice(), nodes_left),
        ),
        Item::Reg(_, range, names) => alone(
            nodes_left,
            spend_ranged(range, names.as_slice(), nodes_left),
        ),
        Item::Params(_, params) => alone(nodes_left, params.spend(nodes_left)),
        Item::Assign(list) => alone(nodes_left, spend_all(list.as_slice(), nodes_left)),
        Item::Instance(_, settings, insts) => alone(
            nodes_left,
            spend_instances(settings.as_slice(), insts.as_slice(), nodes_left),
        ),
        Item::Index(_, _) => alone(nodes_left, Some(nodes_left)),
        Item::Generate(_) => alone(nodes_left, Some(nodes_left)),
        Item::Always(_, stmt, _) => always_size(
            alloc, signals, bindings, all, early, stmt, turns_left, nodes_left,
        ),
        Item::Loop(index, start, test, again, next, _, _) => loop_size(
            alloc,
            signals,
            bindings,
            all,
            early,
            index,
            start.get(),
            test.get(),
            again,
            next.get(),
            turns_left,
            nodes_left,
        ),
    }
}
