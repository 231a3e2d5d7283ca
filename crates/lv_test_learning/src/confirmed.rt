use crate::designs::{Design, task_of};
use crate::tasks::fits;
use lv_cert::Cert;
use lv_clauses::Derivation;
use lv_learner::{Confirmed, Learnt, confirm, learn};
use lv_product::{Query, Task};
use std::alloc::Global;
use std::test::Fail;

#[derive(Clone, Copy, Debug, PartialEq, Eq)]
enum Told {
    Yes,
    No(Query),
    Empty(Query),
    Budget(Query, u64),
}

fn answer(alloc: Global, task: &Task, cert: &Cert, budget: u64) -> Result<Told, Fail> {
    if !fits(task, cert) {
        return Err(Fail::from("no such certificate"));
    }
    let confirmed = confirm(alloc, task, cert, budget)?;
    let told = match &confirmed {
        Confirmed::Yes => Told::Yes,
        Confirmed::No(query, _) => Told::No(*query),
        Confirmed::Empty(query, _) => Told::Empty(*query),
        Confirmed::Budget(query, at, _) => Told::Budget(*query, *at),
    };
    Ok(told)
}

/// A certificate without lines.
fn bare(
    alloc: Global,
    kept: &[u64],
    left: &[u128],
    right: &[u128],
    input: &[u128],
) -> Result<Cert, Fail> {
    Ok(Cert {
        kept: Vec::from_slice(alloc, kept)?,
        left: Vec::from_slice(alloc, left)?,
        right: Vec::from_slice(alloc, right)?,
        input: Vec::from_slice(alloc, input)?,
        base: Derivation::new(alloc),
        step: Derivation::new(alloc),
        imply: Derivation::new(alloc),
    })
}

fn own(alloc: Global, design: Design) -> Result<Told, Fail> {
    let task = task_of(alloc, design)?;
    match learn(alloc, &task, 10000)? {
        Learnt::Accepted(cert, _) => answer(alloc, &task, &cert, 0),
        _ => Err(Fail::from("not accepted")),
    }
}

/// A certificate that was learnt is confirmed by its derivations alone.
#[test]
fn own_certificates_are_confirmed(rt: HostRuntime) -> Result<(), Fail> {
    let alloc = rt.alloc();
    let first = own(alloc, Design::Toggle(true, false, false))?;
    assert!(rt; first == Told::Yes);
    let second = own(alloc, Design::BySecret(1))?;
    assert!(rt; second == Told::Yes);
    Ok(())
}

fn by_hand(
    alloc: Global,
    design: Design,
    kept: &[u64],
    left: u128,
    budget: u64,
) -> Result<Told, Fail> {
    let task = task_of(alloc, design)?;
    let cert = bare(alloc, kept, &[left], &[0], &[1])?;
    answer(alloc, &task, &cert, budget)
}

/// Without derivations the solver decides, within the budget; values keep their low bits.
#[test]
fn certificates_without_lines_are_solved(rt: HostRuntime) -> Result<(), Fail> {
    let alloc = rt.alloc();
    let right = Design::Toggle(true, false, false);
    let never = Design::Toggle(true, true, false);
    let barred = Design::Toggle(true, false, true);
    assert!(rt; by_hand(alloc, right, &[0, 1], 2, 1000)? == Told::Yes);
    assert!(rt; by_hand(alloc, right, &[0, 1], 1, 1000)? == Told::Yes);
    assert!(rt; by_hand(alloc, right, &[0, 1], 0, 0)? == Told::Budget(Query::Base, 0));
    assert!(rt; by_hand(alloc, right, &[1], 0, 1000)? == Told::No(Query::Step));
    assert!(rt; by_hand(alloc, right, &[], 0, 1000)? == Told::No(Query::Imply));
    assert!(rt; by_hand(alloc, never, &[0, 1], 0, 1000)? == Told::Empty(Query::Initial));
    assert!(rt; by_hand(alloc, never, &[0, 1], 0, 0)? == Told::Budget(Query::Initial, 1));
    assert!(rt; by_hand(alloc, barred, &[0, 1], 0, 1000)? == Told::Empty(Query::Allowed));
    assert!(rt; by_hand(alloc, barred, &[0, 1], 0, 0)? == Told::Budget(Query::Allowed, 0));
    Ok(())
}

/// A member that fails at an initial pair is found at Base.
#[test]
fn a_list_that_fails_at_first_is_refused(rt: HostRuntime) -> Result<(), Fail> {
    let alloc = rt.alloc();
    let task = task_of(alloc, Design::BySecret(1))?;
    let cert = bare(alloc, &[0, 1, 2, 3, 4], &[0, 0], &[1, 0], &[])?;
    assert!(rt; answer(alloc, &task, &cert, 10000)? == Told::No(Query::Base));
    Ok(())
}
