//! Goals of graphs through their clauses to the solver's answers and back to inputs.
use crate::graphs::{encoded, inputs, with_nodes};
use lv_bits::{Op, Word};
use lv_blast::Encoded;
use lv_netlist::Node;
use lv_solver::{Answer, solve};
use std::alloc::Global;
use std::test::Fail;

/// The goal of these nodes behind the inputs a and b of so many bits.
fn goal(alloc: Global, width: u32, nodes: &[Node]) -> Result<Encoded, Fail> {
    let graph = with_nodes(inputs(alloc, &[width, width])?, nodes)?;
    encoded(alloc, &graph)
}

/// The inputs of a model, `None` where there is none within the budget.
fn found(alloc: Global, goal: &Encoded, budget: u64) -> Result<Option<Vec<Word>>, Fail> {
    match solve(alloc, goal.set(), budget)? {
        Answer::Model(model) => Ok(Some(goal.inputs(alloc, &model)?)),
        _ => Ok(None),
    }
}

/// The lines of a refutation, `None` where there is none within the budget.
fn refuted(alloc: Global, goal: &Encoded, budget: u64) -> Result<Option<u64>, Fail> {
    match solve(alloc, goal.set(), budget)? {
        Answer::Refuted(lines) => Ok(Some(lines.len())),
        _ => Ok(None),
    }
}

/// `(a + b == 2'd0) && (a == 2'd1)`: a is 1 and b is 3.
#[test]
fn a_sum_has_its_inputs(rt: HostRuntime) -> Result<(), Fail> {
    let alloc = rt.alloc();
    let nodes = [
        Node::Bin(Op::Add, 0, 1, false),
        Node::Const(Word::new(2, 0)),
        Node::Bin(Op::Eq, 2, 3, false),
        Node::Const(Word::new(2, 1)),
        Node::Bin(Op::Eq, 0, 5, false),
        Node::Bin(Op::LogAnd, 4, 6, false),
    ];
    let goal = goal(alloc, 2, &nodes)?;
    let words = found(alloc, &goal, 100)?.unwrap_or(Vec::new(alloc));
    assert!(rt;
        words.as_slice() == &[Word::new(2, 1), Word::new(2, 3)][..],
        "{words:?}"
    );
    Ok(())
}

/// `((a - b) + b) != a` at 16 bits is refuted.
#[test]
fn a_difference_is_undone(rt: HostRuntime) -> Result<(), Fail> {
    let alloc = rt.alloc();
    let nodes = [
        Node::Bin(Op::Sub, 0, 1, false),
        Node::Bin(Op::Add, 2, 1, false),
        Node::Bin(Op::Ne, 3, 0, false),
    ];
    let lines = refuted(alloc, &goal(alloc, 16, &nodes)?, 200_000)?;
    println!(rt; "{lines:?} lines")?;
    assert!(rt; lines.is_some());
    Ok(())
}
