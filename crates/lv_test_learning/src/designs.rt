use crate::building::{Step, built};
use crate::tasks::task;
use lv_bits::Op;
use lv_netlist::Node;
use lv_product::{Candidate, Task};
use std::alloc::Global;
use std::test::Fail;

// q turns where the input is 1; node 3 is 0.
const TOGGLE: [Step; 5] = [
    Step::Register(1),
    Step::Input(1),
    Step::Inner(Node::Bin(Op::Xor, 0, 1, false)),
    Step::Const(1, 0),
    Step::Next(0, 2),
];

// f stays as it is, and goes through r1 and r2 to r3; node 4 is 0.
const CHAIN: [Step; 8] = [
    Step::Register(1),
    Step::Register(1),
    Step::Register(1),
    Step::Register(1),
    Step::Const(1, 0),
    Step::Next(1, 0),
    Step::Next(2, 1),
    Step::Next(3, 2),
];

// c counts from 0 and retires at 1 where s is 1, else at 2; it shows s, and the attacker sees that it retires.
const BY_SECRET: [Step; 17] = [
    Step::Register(1),
    Step::Register(2),
    Step::Const(2, 0),
    Step::Const(2, 1),
    Step::Const(2, 2),
    Step::Const(2, 3),
    Step::Inner(Node::Bin(Op::Eq, 1, 3, false)),
    Step::Inner(Node::Bin(Op::Eq, 1, 4, false)),
    Step::Inner(Node::Mux(0, 6, 7)),
    Step::Inner(Node::Bin(Op::Add, 1, 3, false)),
    Step::Inner(Node::Mux(8, 2, 9)),
    Step::Inner(Node::Slice(1, 1, 1)),
    Step::Inner(Node::Bin(Op::And, 0, 11, false)),
    Step::Inner(Node::Un(Op::LogNot, 12)),
    Step::Inner(Node::Bin(Op::Ne, 1, 5, false)),
    Step::Inner(Node::Bin(Op::Eq, 1, 2, false)),
    Step::Next(1, 10),
];

/// A design with its candidates, and what its task has of expressions.
#[derive(Clone, Copy)]
pub(crate) enum Design {
    /// With equal states at first, or none; with no initial pair; with no allowed input.
    Toggle(bool, bool, bool),
    /// A register that differs at first, and what it reaches.
    Chain,
    /// A retirement by secret, looked at so far ahead.
    BySecret(u32),
}

fn if_wanted(alloc: Global, wanted: bool, node: u64) -> Result<Vec<u64>, Fail> {
    let mut nodes = Vec::new(alloc);
    if wanted {
        nodes.push(node)?;
    }
    Ok(nodes)
}

fn toggle(alloc: Global, equal: bool, never: bool, barred: bool) -> Result<Task, Fail> {
    let graph = built(alloc, &TOGGLE)?;
    let equal = if_wanted(alloc, equal, 0)?;
    let each = if_wanted(alloc, never, 3)?;
    let assume = if_wanted(alloc, barred, 3)?;
    let candidates = [Candidate::Eq(0), Candidate::Aligned];
    task(
        alloc,
        graph,
        0,
        0,
        0,
        equal.as_slice(),
        each.as_slice(),
        assume.as_slice(),
        &candidates,
        0,
    )
}

fn chain(alloc: Global) -> Result<Task, Fail> {
    let graph = built(alloc, &CHAIN)?;
    let candidates = [
        Candidate::Eq(0),
        Candidate::Eq(1),
        Candidate::Eq(2),
        Candidate::Eq(3),
        Candidate::Aligned,
    ];
    task(alloc, graph, 4, 4, 3, &[1, 2, 3], &[], &[], &candidates, 0)
}

fn by_secret(alloc: Global, lookahead: u32) -> Result<Task, Fail> {
    let graph = built(alloc, &BY_SECRET)?;
    let candidates = [
        Candidate::Eq(0),
        Candidate::Eq(1),
        Candidate::Each(13),
        Candidate::Each(14),
        Candidate::Aligned,
    ];
    task(
        alloc,
        graph,
        8,
        0,
        8,
        &[1],
        &[15],
        &[],
        &candidates,
        lookahead,
    )
}

/// The task of a design.
pub(crate) fn task_of(alloc: Global, design: Design) -> Result<Task, Fail> {
    match design {
        Design::Toggle(equal, never, barred) => toggle(alloc, equal, never, barred),
        Design::Chain => chain(alloc),
        Design::BySecret(lookahead) => by_secret(alloc, lookahead),
    }
}
