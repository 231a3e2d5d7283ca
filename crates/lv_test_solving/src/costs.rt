use crate::sets::add;
use lv_bits::NoMemory;
use lv_clauses::{Clause, ClauseSet, Lit};
use lv_solver::{Answer, solve};
use std::alloc::Global;
use std::test::Fail;

/// The literals of the variables from `vars` down to 1, each twice.
fn falling(alloc: Global, vars: u32) -> Result<Vec<Lit>, NoMemory> {
    let mut lits = Vec::new(alloc);
    for k in 0..vars {
        lits.reserve(2)?;
        let lit = Lit::new(u64::from(vars - k), k % 3 == 0);
        lits.push_reserved(lit);
        lits.push_reserved(lit);
    }
    Ok(lits)
}

/// The number of literals of the clause of these, none where a pair is complementary.
fn clause_len(alloc: Global, lits: &[Lit]) -> Result<Option<usize>, NoMemory> {
    let Some(clause) = Clause::of(alloc, lits)? else {
        return Ok(None);
    };
    Ok(Some(clause.lits().len()))
}

#[test]
fn makes_long_clauses(rt: HostRuntime) -> Result<(), Fail> {
    let alloc = rt.alloc();
    let Ok(mut lits) = falling(alloc, 200_000) else {
        return Err(Fail::from("no memory"));
    };
    let Ok(len) = clause_len(alloc, &lits) else {
        return Err(Fail::from("no memory"));
    };
    assert_eq!(rt; len, Some(200_000));
    lits.push(Lit::new(100_000, 100_000 % 3 != 0))?;
    let Ok(pair) = clause_len(alloc, &lits) else {
        return Err(Fail::from("no memory"));
    };
    assert_eq!(rt; pair, None);
    Ok(())
}

/// Clauses by which the first variable, if it is false, makes all others true but the last two, on which four clauses stand.
fn beside_a_chain(alloc: Global, vars: u32) -> Result<ClauseSet, NoMemory> {
    let last = u64::from(vars) + 2;
    let mut set = ClauseSet::new(alloc, last);
    set.reserve(u64::from(vars) + 3)?;
    for k in 1..vars {
        add(
            &mut set,
            &[
                Lit::new(u64::from(k), k > 1),
                Lit::new(u64::from(k) + 1, false),
            ],
        )?;
    }
    for (a, b) in [(false, false), (false, true), (true, false), (true, true)] {
        add(&mut set, &[Lit::new(last - 1, a), Lit::new(last, b)])?;
    }
    Ok(set)
}

/// The hints of all lines that are written with this budget.
fn hints(alloc: Global, set: &ClauseSet, budget: u64) -> Result<usize, NoMemory> {
    let mut count = 0usize;
    if let Answer::Budget(log) | Answer::Refuted(log) = solve(alloc, set, budget)? {
        for k in 0..log.len() {
            count = count.saturating_add(log.line(k).hints().len());
        }
    }
    Ok(count)
}

#[test]
fn names_what_a_line_rests_on(rt: HostRuntime) -> Result<(), Fail> {
    let alloc = rt.alloc();
    let Ok(set) = beside_a_chain(alloc, 10_000) else {
        return Err(Fail::from("no memory"));
    };
    for (budget, most) in [(1u64, 2usize), (9, 5)] {
        let Ok(count) = hints(alloc, &set, budget) else {
            return Err(Fail::from("no memory"));
        };
        assert!(rt; 0 < count && count <= most, "{count} hints");
    }
    Ok(())
}
