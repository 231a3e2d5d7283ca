ghost use Rattle.std.specs.Prelude.{◌≡◌, length, IfOk, IsTrue};
ghost use Rattle.lv_clauses.specs.Literals.{IsWithin};
ghost use Rattle.lv_clauses.specs.Derivations.{IsDerivation, IsPart};
ghost use Rattle.lv_session.specs.Keeping.{IsLifted, RestsOn, HasPart, HasRows};
ghost use Rattle.lv_session.specs.Session.{with_units, IsWider};

use crate::row::{Row, row_of};
use lv_bits::NoMemory;
use lv_clauses::{ClauseSet, Derivation, Lit, has_lit};
use std::alloc::Global;

/// The most literals of a line that is kept.
const LONGEST: u64 = 24;

/// The literals of a line, and the negations of the units that it rests on.
fn lifted(alloc: Global, assumed: &[Lit], line: &[Lit], row: &Row) -> Result<Vec<Lit>, NoMemory>
    requires { length row.now ≡ length assumed.now }
    ensures { IfOk result (λ lits. IsLifted assumed.now line.now row.now lits.items) }
{
    let mut lits = Vec::from_slice(alloc, line)?;
    for (k, lit) in assumed.iter().enumerate() {
        if row.has(k as u64) {
            lits.reserve(1)?;
            lits.push_reserved(lit.negated());
        }
    }
    Ok(lits)
}

/// Whether a line is worth being kept; what an empty one gives is looked at on its own.
fn is_worth(line: &[Lit], lits: &[Lit]) -> bool {
    !line.is_empty() && lits.len() as u64 <= LONGEST
}

/// Whether all literals of the first are among the others.
fn is_part(lits: &[Lit], others: &[Lit]) -> bool
    ensures { IsTrue result → IsPart lits.now others.now }
{
    for lit in lits {
        if !has_lit(others, *lit) {
            return false;
        }
    }
    true
}

/// Whether a clause of the set that has one of these numbers is part of the literals.
pub fn is_there(set: &ClauseSet, hints: &[u64], lits: &[Lit]) -> bool
    ensures { IsTrue result → HasPart set.now lits.now }
{
    let len = set.len();
    for id in hints {
        if *id >= 1 && *id <= len && is_part(set.clause(*id).lits(), lits) {
            return true;
        }
    }
    false
}

/// Adds the clause that a line gives without the units, if it is worth being kept and no clause that the line rests on is part of it.
fn add_line(
    alloc: Global,
    set: &mut ClauseSet,
    assumed: &[Lit],
    line: &[Lit],
    hints: &[u64],
    row: &Row,
) -> Result<(), NoMemory>
    requires len { length row.now ≡ length assumed.now }
    requires within { IsWithin assumed.now set.old.vars }
    requires line { IsWithin line.now set.old.vars }
    requires rests { RestsOn set.old assumed.now line.now row.now }
    ensures { IsWider set.old set.new }
{
    let lits = lifted(alloc, assumed, line, row)?;
    if is_worth(line, lits.as_slice()) && !is_there(set, hints, lits.as_slice()) {
        set.add(lits.as_slice())?;
    }
    Ok(())
}

/// Adds clauses that the lines of a derivation give without the units that it was made with, and tells for each line which units it rests on.
pub fn keep(
    alloc: Global,
    set: &mut ClauseSet,
    assumed: &[Lit],
    log: &Derivation,
) -> Result<Vec<Row>, NoMemory>
    requires within { IsWithin assumed.now set.old.vars }
    requires derivation { IsDerivation (with_units set.old assumed.now) log.now }
    ensures wider { IsWider set.old set.new }
    ensures rows { IfOk result (λ rows. HasRows set.old assumed.now log.now rows.items) }
{
    let n = set.len();
    let m = assumed.len() as u64;
    let mut rows = Vec::new(alloc);
    for k in 0..log.len() {
        let line = log.line(k);
        let lits = line.clause().lits();
        let row = row_of(alloc, n, m, rows.as_slice(), line.hints())?;
        add_line(alloc, set, assumed, lits, line.hints(), &row)?;
        rows.reserve(1)?;
        rows.push_reserved(row);
    }
    Ok(rows)
}
