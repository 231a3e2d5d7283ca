use lv_bits::NoMemory;
use lv_clauses::{ClauseSet, Lit, are_within};
use std::alloc::Global;

/// A number of DIMACS that isn't 0: a variable, below 0 where it is negated.
pub fn lit(number: i64) -> Lit {
    Lit::new(number.unsigned_abs().max(1), number < 0)
}

pub fn lits_of(alloc: Global, numbers: &[i64]) -> Result<Vec<Lit>, NoMemory> {
    let mut lits = Vec::new(alloc);
    for number in numbers {
        lits.reserve(1)?;
        lits.push_reserved(lit(*number));
    }
    Ok(lits)
}

/// Adds a clause if it is over the variables of the set.
pub fn add(set: &mut ClauseSet, lits: &[Lit]) -> Result<(), NoMemory> {
    if are_within(lits, set.vars()) {
        set.add(lits)?;
    }
    Ok(())
}

/// Adds a clause of DIMACS, without its 0.
pub fn add_numbers(alloc: Global, set: &mut ClauseSet, numbers: &[i64]) -> Result<(), NoMemory> {
    let lits = lits_of(alloc, numbers)?;
    add(set, &lits)
}

/// The clauses of DIMACS, each ended by 0.
pub fn set_of(alloc: Global, vars: u64, dimacs: &[i64]) -> Result<ClauseSet, NoMemory> {
    let mut set = ClauseSet::new(alloc, vars);
    let mut lits: Vec<Lit> = Vec::new(alloc);
    for number in dimacs {
        if *number == 0 {
            add(&mut set, &lits)?;
            lits.clear();
        } else {
            lits.reserve(1)?;
            lits.push_reserved(lit(*number));
        }
    }
    Ok(set)
}
