ghost use Rattle.std.specs.Prelude.{◌≡◌, ◌≤◌, take, length, OnOk};
ghost use Rattle.lv_clauses.specs.Literals.{IsWithin};
ghost use Rattle.lv_session.specs.Session.{with_units};
ghost use Rattle.lv_session.specs.Blocking.{IsBehind};

use lv_bits::NoMemory;
use lv_clauses::{ClauseSet, Lit, are_same};
use std::alloc::Global;

/// How many clauses at the beginning are the same.
fn shared(made: &ClauseSet, set: &ClauseSet) -> u64
    ensures below { result ≤ length set.now.clauses }
    ensures same { take result made.now.clauses ≡ take result set.now.clauses }
{
    let len = made.len().min(set.len());
    for k in 0..len {
        if !are_same(made.clause(k + 1).lits(), set.clause(k + 1).lits()) {
            return k;
        }
    }
    len
}

/// Makes the number of variables this one.
fn fit_vars(alloc: Global, made: &mut ClauseSet, vars: u64)
    ensures { made.new.vars ≡ vars }
{
    if made.vars() != vars {
        *made = ClauseSet::new(alloc, vars);
    }
}

/// Makes one set as the other; only the clauses behind those that are the same are copied.
fn fit(alloc: Global, made: &mut ClauseSet, set: &ClauseSet) -> Result<(), NoMemory>
    ensures { OnOk result (made.new ≡ set.now) }
{
    fit_vars(alloc, made, set.vars());
    let from = shared(made, set);
    made.cut(from);
    for k in from..set.len() {
        let copy = set.clause(k + 1).copy(alloc)?;
        made.push(copy)?;
    }
    Ok(())
}

/// Adds a clause for each of these literals; the clauses before stay where they stood.
pub fn add_units(made: &mut ClauseSet, lits: &[Lit]) -> Result<(), NoMemory>
    requires { IsWithin lits.now made.old.vars }
    ensures behind { IsBehind made.old made.new }
    ensures units { OnOk result (made.new ≡ with_units made.old lits.now) }
{
    for lit in lits {
        made.add(&[*lit])?;
    }
    Ok(())
}

/// Makes one set as the other, with a clause for each of these literals.
pub fn fit_with(
    alloc: Global,
    made: &mut ClauseSet,
    set: &ClauseSet,
    lits: &[Lit],
) -> Result<(), NoMemory>
    requires { IsWithin lits.now set.now.vars }
    ensures { OnOk result (made.new ≡ with_units set.now lits.now) }
{
    fit(alloc, made, set)?;
    add_units(made, lits)
}
