ghost use Rattle.std.specs.Prelude.{◌≡◌};

use crate::sets::add;
use lv_bits::NoMemory;
use lv_clauses::{Clause, ClauseSet, Lit, are_within};
use lv_trail::{Reached, Trail};
use std::alloc::Global;
use std::test::Fail;

/// The clauses by which each variable makes the next one true, the last ones first.
fn chain(alloc: Global, vars: u16) -> Result<ClauseSet, NoMemory> {
    let mut set = ClauseSet::new(alloc, u64::from(vars));
    for k in 1..vars {
        let var = u64::from(vars - k);
        add(
            &mut set,
            &[Lit::new(var.max(1), true), Lit::new(var + 1, false)],
        )?;
    }
    Ok(set)
}

/// Decides a literal where the trail is closed and the variable has no value, and makes unit steps.
fn decide(trail: &mut Trail, vars: u64, lit: Lit) -> Option<Reached>
    requires { vars ≡ trail.old.vars }
    ensures { trail.new.vars ≡ trail.old.vars }
{
    if trail.propagate() != Reached::Closed {
        return None;
    }
    if lit.var() > vars || trail.value(lit.var()).is_some() {
        return None;
    }
    trail.decide(lit);
    Some(trail.propagate())
}

/// What becomes of the chain, decision by decision: how many literals are true, and whether the last clause is false.
fn counts(alloc: Global, vars: u16) -> Result<Vec<u64>, NoMemory> {
    let set = chain(alloc, vars)?;
    let mut out = Vec::new(alloc);
    let mut trail = Trail::new(alloc, &set)?;
    out.reserve(6)?;
    out.push_reserved(trail.len());
    let first = decide(&mut trail, set.vars(), Lit::new(3, false));
    out.push_reserved(if first == Some(Reached::Closed) {
        trail.len()
    } else {
        0
    });
    let second = decide(&mut trail, set.vars(), Lit::new(2, false));
    out.push_reserved(if second == Some(Reached::Closed) {
        trail.len()
    } else {
        0
    });
    let third = decide(&mut trail, set.vars(), Lit::new(2, true));
    out.push_reserved(if third.is_none() { trail.len() } else { 0 });
    if let Some(clause) = Clause::of(alloc, &[Lit::new(2, true)])? {
        if are_within(clause.lits(), set.vars()) {
            let number = trail.add(clause)?;
            out.push_reserved(number);
            out.push_reserved(if trail.propagate() == Reached::Conflict(number) {
                trail.len()
            } else {
                0
            });
        }
    }
    Ok(out)
}

#[test]
fn follows_a_chain(rt: HostRuntime) -> Result<(), Fail> {
    let Ok(counts) = counts(rt.alloc(), 1000) else {
        return Err(Fail::from("no memory"));
    };
    let want = [0u64, 998, 999, 999, 1000, 999];
    assert!(rt; counts.as_slice() == want.as_slice(), "{counts:?}");
    Ok(())
}

/// Whether the first variable makes all others true, and how many clauses were looked at.
fn looks(alloc: Global, vars: u16) -> Result<(bool, u64), NoMemory> {
    let set = chain(alloc, vars)?;
    let mut trail = Trail::new(alloc, &set)?;
    let reached = decide(&mut trail, set.vars(), Lit::new(1, false));
    let all = reached == Some(Reached::Closed) && trail.len() == u64::from(vars);
    Ok((all, trail.looked()))
}

#[test]
fn looks_at_few_clauses(rt: HostRuntime) -> Result<(), Fail> {
    let Ok((all, looked)) = looks(rt.alloc(), 1000) else {
        return Err(Fail::from("no memory"));
    };
    assert!(rt; all && 999 <= looked && looked <= 2000, "{looked} clauses");
    Ok(())
}

/// The level, the reason and the value of the last variable after two decisions, and the count after going back.
fn last(alloc: Global) -> Result<Option<(u64, Option<u64>, Option<bool>, u64)>, NoMemory> {
    let set = chain(alloc, 4)?;
    if set.vars() != 4 {
        return Ok(None);
    }
    let mut trail = Trail::new(alloc, &set)?;
    decide(&mut trail, 4, Lit::new(4, true));
    decide(&mut trail, 4, Lit::new(1, true));
    let value = trail.value(1);
    let reason = trail.reason(2);
    if value.is_none() || trail.len() < 1 {
        return Ok(None);
    }
    let level = trail.level(1);
    if trail.at(0) != Lit::new(4, true) {
        return Ok(None);
    }
    Ok(Some((level, reason, value, trail.len())))
}

#[test]
fn tells_levels_and_reasons(rt: HostRuntime) -> Result<(), Fail> {
    let Ok(got) = last(rt.alloc()) else {
        return Err(Fail::from("no memory"));
    };
    assert!(rt; got == Some((1, Some(2), Some(false), 4)));
    Ok(())
}
