use crate::building::{Step, built, word};
use crate::tasks::{goal, kept, pair_of, task};
use lv_bits::{Op, Word};
use lv_netlist::Node;
use lv_product::{Candidate, Query, Task, input_nodes, window};
use std::alloc::Global;
use std::test::Fail;

// c counts 0, 1, 2 and retires at 2, where it shows s; the attacker sees s where c is 0.
const LATE: [Step; 12] = [
    Step::Register(1),
    Step::Register(2),
    Step::Const(2, 1),
    Step::Inner(Node::Bin(Op::Add, 1, 2, false)),
    Step::Const(2, 0),
    Step::Const(2, 2),
    Step::Inner(Node::Bin(Op::Eq, 1, 4, false)),
    Step::Inner(Node::Bin(Op::Eq, 1, 5, false)),
    Step::Inner(Node::Mux(7, 4, 3)),
    Step::Inner(Node::Bin(Op::And, 6, 0, false)),
    Step::Next(0, 0),
    Step::Next(1, 8),
];

// c counts from 0 and retires at 1 where s is 1, else at 2; it shows s, and the attacker sees that it retires.
const BY_SECRET: [Step; 16] = [
    Step::Register(1),
    Step::Register(2),
    Step::Const(2, 0),
    Step::Const(2, 1),
    Step::Const(2, 2),
    Step::Const(2, 3),
    Step::Inner(Node::Bin(Op::Eq, 1, 3, false)),
    Step::Inner(Node::Bin(Op::Eq, 1, 4, false)),
    Step::Inner(Node::Mux(0, 6, 7)),
    Step::Inner(Node::Bin(Op::Add, 1, 3, false)),
    Step::Inner(Node::Mux(8, 2, 9)),
    Step::Inner(Node::Slice(1, 1, 1)),
    Step::Inner(Node::Bin(Op::And, 0, 11, false)),
    Step::Inner(Node::Un(Op::LogNot, 12)),
    Step::Inner(Node::Bin(Op::Ne, 1, 5, false)),
    Step::Next(0, 0),
];

pub(crate) fn late(alloc: Global, lookahead: u32) -> Result<Task, Fail> {
    let graph = built(alloc, &LATE)?;
    let candidates = [Candidate::Eq(0), Candidate::Eq(1), Candidate::Aligned];
    task(alloc, graph, 7, 0, 9, &[1], &candidates, lookahead)
}

fn by_secret(alloc: Global, lookahead: u32) -> Result<Task, Fail> {
    let mut steps = Vec::from_slice(alloc, &BY_SECRET)?;
    steps.push(Step::Next(1, 10))?;
    let graph = built(alloc, steps.as_slice())?;
    let candidates = [
        Candidate::Eq(0),
        Candidate::Eq(1),
        Candidate::Each(13),
        Candidate::Each(14),
        Candidate::Aligned,
    ];
    task(alloc, graph, 8, 0, 8, &[1], &candidates, lookahead)
}

// The words of s and c in both copies, and of the truth value.
pub(crate) fn words(alloc: Global, values: [u128; 5]) -> Result<Vec<Word>, Fail> {
    let widths = [1, 2, 1, 2, 1];
    let mut words = Vec::new(alloc);
    for k in 0..5 {
        let Some(word) = word(widths[k], values[k]) else {
            return Err(Fail::from("no such word"));
        };
        words.push(word)?;
    }
    Ok(words)
}

pub(crate) fn asked(
    alloc: Global,
    task: &Task,
    query: Query,
    numbers: &[u64],
    values: [u128; 5],
) -> Result<u128, Fail> {
    let kept = kept(alloc, task, numbers)?;
    let product = window(alloc, task, &kept, query)?;
    let words = words(alloc, values)?;
    goal(alloc, &product, words.as_slice())
}

fn implies(alloc: Global, task: &Task, numbers: &[u64], values: [u128; 5]) -> Result<u128, Fail> {
    asked(alloc, task, Query::Imply, numbers, values)
}

fn values(alloc: Global, words: &[Word]) -> Result<Vec<u128>, Fail> {
    let mut values = Vec::new(alloc);
    for word in words {
        values.push(word.value())?;
    }
    Ok(values)
}

/// One cycle ahead the first entry isn't seen yet, two cycles ahead it is.
#[test]
fn a_leak_before_the_entry_is_told_by_looking_further(rt: HostRuntime) -> Result<(), Fail> {
    let alloc = rt.alloc();
    let near = late(alloc, 1)?;
    assert!(rt; implies(alloc, &near, &[1, 2], [0, 0, 1, 0, 1])? == 1);
    let far = late(alloc, 2)?;
    assert!(rt; implies(alloc, &far, &[1, 2], [0, 0, 1, 0, 1])? == 0);
    Ok(())
}

/// Where the copies aren't aligned nothing is assumed of what they show.
#[test]
fn nothing_is_assumed_where_not_aligned(rt: HostRuntime) -> Result<(), Fail> {
    let alloc = rt.alloc();
    let far = late(alloc, 2)?;
    assert!(rt; implies(alloc, &far, &[1], [0, 0, 1, 0, 0])? == 1);
    Ok(())
}

/// The first entry of one copy is compared with the first of the other, a cycle later.
#[test]
fn entries_are_matched_by_rank(rt: HostRuntime) -> Result<(), Fail> {
    let alloc = rt.alloc();
    let task = by_secret(alloc, 1)?;
    assert!(rt; implies(alloc, &task, &[1, 2, 3, 4], [0, 1, 1, 1, 1])? == 0);
    Ok(())
}

/// Two states are an initial pair where c is one in both; then s may differ, and what is kept of c holds.
#[test]
fn first_states_are_asked_for(rt: HostRuntime) -> Result<(), Fail> {
    let alloc = rt.alloc();
    let task = late(alloc, 1)?;
    assert!(rt; asked(alloc, &task, Query::Initial, &[], [0, 0, 1, 0, 1])? == 1);
    assert!(rt; asked(alloc, &task, Query::Initial, &[], [0, 0, 1, 1, 1])? == 0);
    assert!(rt; asked(alloc, &task, Query::Allowed, &[], [0, 0, 1, 1, 1])? == 1);
    assert!(rt; asked(alloc, &task, Query::Base, &[0], [0, 0, 1, 0, 1])? == 1);
    assert!(rt; asked(alloc, &task, Query::Base, &[1, 2], [0, 0, 1, 0, 1])? == 0);
    Ok(())
}

/// A copy whose s is 1 retires earlier, so that c differs next; where the copies are aligned, what they show differs too.
#[test]
fn a_step_is_asked_for(rt: HostRuntime) -> Result<(), Fail> {
    let alloc = rt.alloc();
    let task = by_secret(alloc, 1)?;
    assert!(rt; asked(alloc, &task, Query::Step, &[1], [0, 1, 1, 1, 0])? == 1);
    assert!(rt; asked(alloc, &task, Query::Step, &[1], [0, 1, 1, 1, 1])? == 0);
    Ok(())
}

/// A pair is taken apart as its words stand: both states, no inputs in each of the two cycles, and the truth value.
#[test]
fn a_pair_is_taken_apart(rt: HostRuntime) -> Result<(), Fail> {
    let alloc = rt.alloc();
    let task = late(alloc, 1)?;
    let kept = kept(alloc, &task, &[1])?;
    let product = window(alloc, &task, &kept, Query::Imply)?;
    let words = words(alloc, [1, 2, 0, 3, 1])?;
    let pair = pair_of(alloc, &product, words.as_slice())?;
    assert!(rt; values(alloc, &pair.left)?.as_slice() == [1, 2].as_slice());
    assert!(rt; values(alloc, &pair.right)?.as_slice() == [0, 3].as_slice());
    assert_eq!(rt; pair.inputs.len(), 2);
    assert!(rt; pair.aligned);
    Ok(())
}

/// Each node of this design but its constants reads the registers.
#[test]
fn nodes_that_read_inputs_alone_are_constants(rt: HostRuntime) -> Result<(), Fail> {
    let alloc = rt.alloc();
    let task = late(alloc, 1)?;
    let marks = input_nodes(alloc, &task.graph)?;
    let want = [
        false, false, true, false, true, true, false, false, false, false,
    ];
    assert!(rt; marks.as_slice() == want.as_slice());
    Ok(())
}
