use crate::sets::{add, lit, set_of};
use lv_bits::NoMemory;
use lv_check::{Checked, Checker};
use lv_clauses::{Clause, ClauseSet, Derivation, Line, Lit, are_within};
use std::alloc::Global;
use std::test::Fail;

/// Adds a line if its literals make a clause.
fn push(alloc: Global, log: &mut Derivation, lits: &[Lit], hints: &[u64]) -> Result<(), NoMemory> {
    if !are_within(lits, u64::MAX) {
        return Ok(());
    }
    if let Some(clause) = Clause::of(alloc, lits)? {
        log.push(Line::new(clause, Vec::from_slice(alloc, hints)?))?;
    }
    Ok(())
}

/// The additions of LRAT without their numbers: literals ended by 0, then hints ended by 0. A hint below 0 stands for 0.
fn log_of(alloc: Global, lrat: &[i64]) -> Result<Derivation, NoMemory> {
    let mut log = Derivation::new(alloc);
    let mut lits: Vec<Lit> = Vec::new(alloc);
    let mut hints: Vec<u64> = Vec::new(alloc);
    let mut in_hints = false;
    for number in lrat {
        if *number == 0 {
            if in_hints {
                push(alloc, &mut log, &lits, &hints)?;
                lits.clear();
                hints.clear();
            }
            in_hints = !in_hints;
        } else if in_hints {
            hints.reserve(1)?;
            hints.push_reserved(if *number < 0 {
                0
            } else {
                number.unsigned_abs()
            });
        } else {
            lits.reserve(1)?;
            lits.push_reserved(lit(*number));
        }
    }
    Ok(log)
}

/// What a fresh checker answers, and what it answers when it is asked again after it has refused a line.
fn answers(
    alloc: Global,
    vars: u64,
    dimacs: &[i64],
    lrat: &[i64],
) -> Result<(Checked, Checked), NoMemory> {
    let set = set_of(alloc, vars, dimacs)?;
    let log = log_of(alloc, lrat)?;
    let refused = log_of(alloc, &[1, 0, 1, 1, 0])?;
    let mut checker = Checker::new(alloc, &set)?;
    let first = checker.check(&set, &log);
    checker.check(&set, &refused);
    Ok((first, checker.check(&set, &log)))
}

#[test]
fn follows_hints(rt: HostRuntime) -> Result<(), Fail> {
    let alloc = rt.alloc();
    let one: &[i64] = &[1, 0, -1, 0];
    let four: &[i64] = &[1, 2, 0, 1, -2, 0, -1, 2, 0, -1, -2, 0];
    let doubled: &[i64] = &[1, -1, 0, 1, 1, 2, 0, 2, -2, 2, 0, 1, -2, 1, 0];
    let three: &[i64] = &[1, 2, 3, 0, -1, 0, -2, 0, -3, 0];
    let cases: [(u64, &[i64], &[i64], Checked); 27] = [
        (1, one, &[0, 1, 2, 0], Checked::Proved),
        (1, one, &[0, 1, 0], Checked::Fails(0)),
        (1, one, &[], Checked::Fails(0)),
        // In order, without a last clause that is false, and with two literals left.
        (2, four, &[1, 0, 1, 2, 0, 0, 5, 3, 4, 0], Checked::Proved),
        (2, four, &[1, 0, 1, 2, 0, 0, 5, 4, 0], Checked::Fails(1)),
        (2, four, &[1, 0, 1, 2, 0, 0, 3, 5, 4, 0], Checked::Fails(1)),
        (3, three, &[0, 2, 3, 4, 1, 0], Checked::Proved),
        (3, three, &[0, 1, 2, 3, 4, 0], Checked::Fails(0)),
        // A hint after a clause that is false, a true clause as a hint, one clause twice.
        (2, four, &[1, 0, 1, 2, 1, 0], Checked::Fails(0)),
        (3, three, &[1, 2, 0, 4, 3, 0], Checked::Fails(0)),
        (3, three, &[1, 2, 0, 4, 4, 1, 0], Checked::Fails(1)),
        (3, three, &[-3, 0, 4, 4, 0], Checked::Fails(0)),
        // The line's own number, a later line, no clause, clause 0, no hints.
        (2, four, &[1, 0, 1, 5, 0], Checked::Fails(0)),
        (2, four, &[0, 6, 3, 4, 0, 1, 0, 1, 2, 0], Checked::Fails(0)),
        (2, four, &[1, 0, 9, 0], Checked::Fails(0)),
        (2, four, &[1, 0, -1, 2, 0], Checked::Fails(0)),
        (2, four, &[1, 0, 0], Checked::Fails(0)),
        (2, four, &[1, 0, 1, 2, 0, -1, 0, 0], Checked::Fails(1)),
        // A variable outside.
        (2, four, &[1, 3, 0, 1, 2, 0], Checked::Fails(0)),
        (
            2,
            four,
            &[1, 0, 1, 2, 0, -3, 1, 0, 1, 2, 0],
            Checked::Fails(1),
        ),
        // All follow and none is empty; the empty line isn't the last; a line after it doesn't follow.
        (2, four, &[1, 0, 1, 2, 0], Checked::Fails(1)),
        (2, four, &[1, 0, 1, 2, 0, 2, 0, 5, 3, 0], Checked::Fails(2)),
        (
            2,
            four,
            &[1, 0, 1, 2, 0, 0, 5, 3, 4, 0, 2, 0, 1, 3, 0],
            Checked::Proved,
        ),
        (
            2,
            four,
            &[1, 0, 1, 2, 0, 0, 5, 3, 4, 0, 2, 0, 1, 0],
            Checked::Fails(2),
        ),
        // Tautologies have no number, and a literal stands once.
        (2, doubled, &[1, 0, 1, 2, 0], Checked::Fails(1)),
        (2, doubled, &[1, 1, 0, 2, 1, 0], Checked::Fails(1)),
        (0, &[0], &[0, 1, 0], Checked::Proved),
    ];
    for (k, (vars, dimacs, lrat, want)) in cases.iter().enumerate() {
        match answers(alloc, *vars, dimacs, lrat) {
            Ok((first, again)) => {
                assert!(rt; first == *want, "case {k}: {first:?}");
                assert!(rt; again == *want, "case {k}, asked again: {again:?}");
            }
            Err(_) => assert!(rt; false, "case {k}: no memory"),
        }
    }
    Ok(())
}

/// The clauses (1), (-1 2), (-2 3) .. and the negation of the last variable, and the line of each variable by the one before.
fn chain(alloc: Global, vars: u32) -> Result<(ClauseSet, Derivation), NoMemory> {
    let last = u64::from(vars);
    let mut set = ClauseSet::new(alloc, last);
    let mut log = Derivation::new(alloc);
    add(&mut set, &[Lit::new(1, false)])?;
    for var in 2..last {
        add(&mut set, &[Lit::new(var - 1, true), Lit::new(var, false)])?;
    }
    add(&mut set, &[Lit::new(last.max(2) - 1, true)])?;
    let mut before = 1;
    for var in 2..last {
        push(alloc, &mut log, &[Lit::new(var, false)], &[before, var])?;
        before = set.len().wrapping_add(log.len());
    }
    push(alloc, &mut log, &[], &[before, last])?;
    Ok((set, log))
}

#[test]
fn checks_a_million_lines(rt: HostRuntime) -> Result<(), Fail> {
    let Ok((set, log)) = chain(rt.alloc(), 1_000_001) else {
        return Err(Fail::from("no memory"));
    };
    assert_eq!(rt; log.len(), 1_000_000);
    let Ok(mut checker) = Checker::new(rt.alloc(), &set) else {
        return Err(Fail::from("no memory"));
    };
    assert_eq!(rt; checker.check(&set, &log), Checked::Proved);
    Ok(())
}
