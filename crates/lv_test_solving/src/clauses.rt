use crate::sets::{lit, lits_of};
use lv_bits::NoMemory;
use lv_clauses::{
    Added, Assignment, Clause, ClauseSet, Derivation, Line, Lit, are_within, has_lit,
};
use std::alloc::Global;
use std::test::Fail;

/// Adds literals to a set of one clause, and gives the answer and the last clause.
fn added(alloc: Global, numbers: &[i64]) -> Result<(Added, Vec<Lit>), NoMemory> {
    let mut set = ClauseSet::new(alloc, 9);
    let first = [lit(-9)];
    if are_within(&first, set.vars()) {
        set.add(&first)?;
    }
    let lits = lits_of(alloc, numbers)?;
    if !are_within(&lits, set.vars()) {
        return Err(NoMemory);
    }
    let answer = set.add(&lits)?;
    let last = set.len();
    if last == 0 {
        return Err(NoMemory);
    }
    Ok((answer, Vec::from_slice(alloc, set.clause(last).lits())?))
}

#[test]
fn adds_clauses(rt: HostRuntime) -> Result<(), Fail> {
    let alloc = rt.alloc();
    let cases: [(&[i64], Added, &[i64]); 8] = [
        (&[], Added::Clause, &[]),
        (&[3], Added::Clause, &[3]),
        (&[9, -8, 1, 4, -2], Added::Clause, &[1, -2, 4, -8, 9]),
        (&[-2, 1, -2, 1, 1], Added::Clause, &[1, -2]),
        (&[2, -2], Added::Tautology, &[-9]),
        (&[-2, 7, 2], Added::Tautology, &[-9]),
        (&[1, 2, 3, 4, 5, -1], Added::Tautology, &[-9]),
        (&[-9, -9], Added::Clause, &[-9]),
    ];
    for (k, (numbers, answer, clause)) in cases.iter().enumerate() {
        let (Ok((got, last)), Ok(want)) = (added(alloc, numbers), lits_of(alloc, clause)) else {
            return Err(Fail::from("no memory"));
        };
        assert!(rt; got == *answer, "case {k}");
        assert!(rt; last.as_slice() == want.as_slice(), "case {k}: {last:?}");
    }
    Ok(())
}

fn line_of(alloc: Global) -> Result<Derivation, NoMemory> {
    let mut log = Derivation::new(alloc);
    if let Some(clause) = Clause::of(alloc, &[Lit::new(2, true), Lit::new(1, false)])? {
        let copy = clause.copy(alloc)?;
        log.push(Line::new(clause, Vec::from_slice(alloc, &[7, 3])?))?;
        log.push(Line::new(copy, Vec::new(alloc)))?;
    }
    Ok(log)
}

#[test]
fn keeps_what_it_is_given(rt: HostRuntime) -> Result<(), Fail> {
    let alloc = rt.alloc();
    let Ok(log) = line_of(alloc) else {
        return Err(Fail::from("no memory"));
    };
    assert_eq!(rt; log.len(), 2);
    let want = [Lit::new(1, false), Lit::new(2, true)];
    assert!(rt; log.line(0).clause().lits() == want.as_slice());
    assert!(rt; log.line(1).clause().lits() == want.as_slice());
    assert!(rt; log.line(0).hints() == [7u64, 3].as_slice());
    assert!(rt;
        has_lit(&want, Lit::new(2, false).negated()) && !has_lit(&want, Lit::new(2, false))
    );
    let found = Assignment::new([true, false].to_vec(alloc)?);
    assert_eq!(rt; found.values().len(), 2);
    assert!(rt; found.value(1) && !found.value(2));
    Ok(())
}
