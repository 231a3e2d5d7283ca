use crate::designs::{Design, task_of};
use lv_learner::{Learnt, learn};
use lv_product::Query;
use std::alloc::Global;
use std::test::Fail;

/// What is answered, with how many members are kept.
#[derive(Clone, Copy, Debug, PartialEq, Eq)]
enum Told {
    Accepted(usize),
    Unproved(usize),
    Empty(Query),
    Budget(Query),
}

fn answer(alloc: Global, design: Design, budget: u64) -> Result<Told, Fail> {
    let task = task_of(alloc, design)?;
    let learnt = learn(alloc, &task, budget)?;
    let told = match &learnt {
        Learnt::Accepted(cert, _) => Told::Accepted(cert.kept.len()),
        Learnt::Unproved(kept, _) => Told::Unproved(kept.numbers.len()),
        Learnt::Empty(query, _) => Told::Empty(*query),
        Learnt::Budget(query, _) => Told::Budget(*query),
    };
    Ok(told)
}

const ROWS: [(Design, u64, Told); 9] = [
    (Design::Toggle(true, false, false), 1000, Told::Accepted(2)),
    (Design::Toggle(false, false, false), 1000, Told::Unproved(0)),
    (
        Design::Toggle(true, true, false),
        1000,
        Told::Empty(Query::Initial),
    ),
    (
        Design::Toggle(true, false, true),
        1000,
        Told::Empty(Query::Allowed),
    ),
    (
        Design::Toggle(true, false, false),
        0,
        Told::Budget(Query::Base),
    ),
    (
        Design::Toggle(true, true, false),
        0,
        Told::Budget(Query::Initial),
    ),
    // eq f goes at first, then eq r1, eq r2 and eq r3 in three rounds
    (Design::Chain, 1000, Told::Unproved(1)),
    (Design::BySecret(1), 10000, Told::Accepted(4)),
    (Design::BySecret(0), 10000, Told::Unproved(2)),
];

#[test]
fn small_tasks_are_answered(rt: HostRuntime) -> Result<(), Fail> {
    let alloc = rt.alloc();
    for (design, budget, want) in ROWS {
        let got = answer(alloc, design, budget)?;
        assert!(rt; got == want);
    }
    Ok(())
}
