ghost use Rattle.std.specs.Prelude.{◌≡◌, ◌↔◌, IfOk, MatchOption, IsTrue};
ghost use Rattle.std.specs.List.Sorted.{IsNonDecreasingBy};
ghost use Rattle.lv_clauses.specs.Literals.{Lit, has, IsClause, IsClauseOf, IsWithin, HasPair};

use crate::lit::Lit;
use lv_bits::NoMemory;
use std::alloc::Global;
use std::marker::Model;

/// Literals, sorted by variable, each variable once.
pub struct Clause {
    lits: Vec<Lit>,
}

impl Drop for Clause {
    fn drop(self) {
        let Clause { lits } = self;
        drop(lits);
    }
}

impl Model for Clause {
    ghost use Rattle.std.specs.Prelude.{List};
    ghost use Rattle.lv_clauses.specs.Literals.{Lit, IsClause};

    ghost Value = { List Lit };

    ghost view = { λ c. c.lits.items };

    ghost invariant = { λ c. IsClause c.lits.items };
}

/// What became of literals that were handed in.
#[derive(Clone, Copy, Debug, PartialEq, Eq)]
pub enum Added {
    Tautology,
    Clause,
}

/// Whether the literal is among these.
pub fn has_lit(lits: &[Lit], lit: Lit) -> bool
    ensures { result ≡ has lits.now lit }
{
    lits.iter()
        .any(|x| x.var() == lit.var() && x.neg() == lit.neg())
}

/// Whether the variables are among those from 1 to `vars`.
pub fn are_within(lits: &[Lit], vars: u64) -> bool
    ensures { IsTrue result ↔ IsWithin lits.now vars }
{
    for x in lits {
        if x.var() > vars {
            return false;
        }
    }
    true
}

/// Whether these are the same literals in the same order.
pub fn are_same(lits: &[Lit], others: &[Lit]) -> bool
    ensures { IsTrue result ↔ (lits.now ≡ others.now) }
{
    if lits.len() != others.len() {
        return false;
    }
    for (k, x) in lits.iter().enumerate() {
        let y = others[k];
        if x.var() != y.var() || x.neg() != y.neg() {
            return false;
        }
    }
    true
}

/// Whether the variables rise.
fn is_clause(lits: &[Lit]) -> bool
    ensures { IsTrue result → IsClause lits.now }
{
    let mut last = 0;
    for x in lits {
        if x.var() <= last {
            return false;
        }
        last = x.var();
    }
    true
}

/// The clause of literals that are sorted by variable.
fn merge(alloc: Global, sorted: &[Lit]) -> Result<Option<Clause>, NoMemory>
    requires { IsNonDecreasingBy (λ l. l.var) sorted.now }
    ensures { IfOk result (λ made. MatchOption made (HasPair sorted.now) (IsClauseOf sorted.now)) }
{
    let mut out = Vec::new(alloc);
    let mut last = 0;
    let mut neg = false;
    for x in sorted {
        if x.var() != last {
            out.reserve(1)?;
            out.push_reserved(*x);
            last = x.var();
            neg = x.neg();
        } else if x.neg() != neg {
            return Ok(None);
        }
    }
    Ok(Some(Clause { lits: out }))
}

impl Clause {
    /// The clause of these literals, none exactly where a pair is complementary.
    pub fn of(alloc: Global, lits: &[Lit]) -> Result<Option<Clause>, NoMemory>
        ensures { IfOk result (λ made. MatchOption made (HasPair lits.now) (IsClauseOf lits.now)) }
    {
        let mut sorted = Vec::from_slice(alloc, lits)?;
        if is_clause(lits) {
            return Ok(Some(Clause { lits: sorted }));
        }
        sorted.sort_unstable_by_key(|x| x.var());
        merge(alloc, sorted.as_slice())
    }

    pub fn lits(&self) -> &[Lit]
        ensures value { result.now ≡ self.now }
        ensures kept { IsClause self.now }
    {
        self.lits.as_slice()
    }

    pub fn copy(&self, alloc: Global) -> Result<Clause, NoMemory>
        ensures { IfOk result (λ c. c ≡ self.now) }
    {
        let lits = Vec::from_slice(alloc, self.lits.as_slice())?;
        Ok(Clause { lits })
    }
}
