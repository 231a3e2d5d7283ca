use crate::sets::{add_numbers, lits_of};
use lv_bits::NoMemory;
use lv_check::{Checked, Checker};
use lv_clauses::{Assignment, ClauseSet, Derivation, Lit, are_within};
use lv_session::{Session, are_apart};
use lv_solver::Answer;
use std::alloc::Global;
use std::test::Fail;

/// The set of these clauses.
fn set_of(alloc: Global, vars: u64, clauses: &[&[i64]]) -> Result<ClauseSet, NoMemory> {
    let mut set = ClauseSet::new(alloc, vars);
    for numbers in clauses {
        add_numbers(alloc, &mut set, numbers)?;
    }
    Ok(set)
}

/// What is answered, and whether it was seen to be right.
#[derive(Clone, Copy, Debug, PartialEq, Eq)]
pub enum Kind {
    Model,
    Refuted,
    Budget,
    Unasked,
    Wrong,
}

/// Whether the values make a literal of each clause true.
fn is_model(set: &ClauseSet, found: &Assignment) -> bool {
    for k in 0..set.len() {
        let clause = set.clause(k + 1);
        let is_true = clause.lits().iter().any(|lit| {
            let place = lit.var().wrapping_sub(1) as usize;
            found.values().get(place).copied() == Some(!lit.neg())
        });
        if !is_true {
            return false;
        }
    }
    true
}

/// Whether the checker proves the lines.
fn is_refutation(alloc: Global, set: &ClauseSet, log: &Derivation) -> Result<bool, NoMemory> {
    let mut checker = Checker::new(alloc, set)?;
    Ok(matches!(checker.check(set, log), Checked::Proved))
}

fn kind_of(alloc: Global, set: &ClauseSet, answer: &Answer) -> Result<Kind, NoMemory> {
    let (right, kind) = match answer {
        Answer::Model(found) => (is_model(set, found), Kind::Model),
        Answer::Refuted(log) => (is_refutation(alloc, set, log)?, Kind::Refuted),
        Answer::Budget(_) => (true, Kind::Budget),
    };
    Ok(if right { kind } else { Kind::Wrong })
}

/// What is answered where these literals are assumed.
pub fn ask_lits(
    alloc: Global,
    session: &mut Session,
    lits: &[Lit],
    budget: u64,
) -> Result<Kind, NoMemory> {
    if !are_within(lits, session.clauses().vars()) || !are_apart(lits) {
        return Ok(Kind::Unasked);
    }
    let answer = session.ask(lits, budget)?;
    kind_of(alloc, session.asked(), &answer)
}

/// The same, and how many clauses there are then.
fn ask(
    alloc: Global,
    session: &mut Session,
    assumed: &[i64],
    budget: u64,
) -> Result<(Kind, u64), NoMemory> {
    let lits = lits_of(alloc, assumed)?;
    let kind = ask_lits(alloc, session, &lits, budget)?;
    Ok((kind, session.clauses().len()))
}

/// What is assumed, the budget, the answer, and how many clauses there are then.
type Ask<'a> = (&'a [i64], u64, Kind, u64);

/// The number of the first ask that is answered otherwise, with what was got.
fn first_wrong(
    alloc: Global,
    vars: u64,
    clauses: &[&[i64]],
    asks: &[Ask],
) -> Result<Option<(usize, Kind, u64)>, NoMemory> {
    let mut session = Session::new(alloc, set_of(alloc, vars, clauses)?)?;
    for (k, (assumed, budget, kind, len)) in asks.iter().enumerate() {
        let (got, now) = ask(alloc, &mut session, assumed, *budget)?;
        if got != *kind || now != *len {
            return Ok(Some((k, got, now)));
        }
    }
    Ok(None)
}

#[test]
fn answers_again_and_again(rt: HostRuntime) -> Result<(), Fail> {
    let alloc = rt.alloc();
    let two: [&[i64]; 2] = [&[-1, 2], &[-1, -2]];
    let asks: [Ask; 7] = [
        (&[1], 18, Kind::Refuted, 3),
        (&[1], 1, Kind::Refuted, 3),
        (&[1], 0, Kind::Budget, 3),
        (&[-1], 18, Kind::Model, 3),
        (&[1, -2], 1, Kind::Refuted, 3),
        (&[1, -1], 18, Kind::Unasked, 3),
        (&[3], 18, Kind::Unasked, 3),
    ];
    let Ok(wrong) = first_wrong(alloc, 2, &two, &asks) else {
        return Err(Fail::from("no memory"));
    };
    assert!(rt; wrong.is_none(), "{wrong:?}");
    let three: [&[i64]; 3] = [&[-1, -2], &[2, 3], &[2, -3]];
    let asks: [Ask; 2] = [
        (&[1, 2], 18, Kind::Refuted, 3),
        (&[1], 18, Kind::Refuted, 4),
    ];
    let Ok(wrong) = first_wrong(alloc, 3, &three, &asks) else {
        return Err(Fail::from("no memory"));
    };
    assert!(rt; wrong.is_none(), "{wrong:?}");
    Ok(())
}

#[test]
fn keeps_what_switches_rest_on(rt: HostRuntime) -> Result<(), Fail> {
    // The switches 5, 6 and 7 make 1 and 2, 2 and 3, 3 and 1 differ, which can't be all at once; 8 makes 4 true.
    let alloc = rt.alloc();
    let clauses: [&[i64]; 7] = [
        &[-5, 1, 2],
        &[-5, -1, -2],
        &[-6, 2, 3],
        &[-6, -2, -3],
        &[-7, 3, 1],
        &[-7, -3, -1],
        &[-8, 4],
    ];
    let asks: [Ask; 6] = [
        (&[5, 6], 18, Kind::Model, 7),
        (&[5, 6, 7, 8], 18, Kind::Refuted, 9),
        (&[5, 6, 7], 1, Kind::Refuted, 9),
        (&[7, 6, 5, -4], 1, Kind::Refuted, 9),
        (&[6, 7, 8], 18, Kind::Model, 9),
        (&[8, -4], 18, Kind::Refuted, 9),
    ];
    let Ok(wrong) = first_wrong(alloc, 8, &clauses, &asks) else {
        return Err(Fail::from("no memory"));
    };
    assert!(rt; wrong.is_none(), "{wrong:?}");
    Ok(())
}

/// How many clauses the set has that was asked last, where it is given away.
fn asked_last(alloc: Global) -> Result<u64, NoMemory> {
    let mut session = Session::new(alloc, set_of(alloc, 2, &[&[-1, 2], &[-1, -2]])?)?;
    ask(alloc, &mut session, &[1], 18)?;
    ask(alloc, &mut session, &[-1, 2], 18)?;
    Ok(session.into_asked().len())
}

#[test]
fn gives_the_asked_set_away(rt: HostRuntime) -> Result<(), Fail> {
    let Ok(len) = asked_last(rt.alloc()) else {
        return Err(Fail::from("no memory"));
    };
    assert_eq!(rt; len, 5);
    Ok(())
}
