ghost use Rattle.std.specs.Prelude.{◌≡◌, ℕ, ◌≤◌, ◌↔◌, [], take, length, slice_get, Some, IfOk, OnOk, IsTrue};
ghost use Rattle.lv_clauses.specs.Literals.{Lit as Literal, IsWithin};
ghost use Rattle.lv_session.specs.Session.{with_units, AreApart, IsWider, IsAsked, IsBlockedBy};

use crate::block::keep_all;
use crate::fit::fit_with;
use lv_bits::NoMemory;
use lv_clauses::{ClauseSet, Derivation, Lit};
use lv_solver::{Answer, Order, Work, search};
use std::alloc::Global;
use std::marker::Model;

/// A set that is asked again and again, each time with other literals assumed, and that keeps what it learns.
pub struct Session {
    alloc: Global,
    clauses: ClauseSet,
    asked: ClauseSet,
    order: Order,
}

impl Model for Session {
    ghost use Rattle.lv_session.specs.Session.{SessionValue};

    ghost Value = { SessionValue };

    ghost view = { λ s. record { clauses = s.clauses; asked = s.asked } };
}

/// Whether some literal is of this variable.
fn has_var(lits: &[Lit], var: u64) -> bool
    ensures { IsTrue result ↔ ((i : ℕ) × (a : Literal) × (slice_get lits.now i ≡ Some a) × (a.var ≡ var)) }
{
    for lit in lits {
        if lit.var() == var {
            return true;
        }
    }
    false
}

/// Whether no two of these literals have the same variable.
pub fn are_apart(lits: &[Lit]) -> bool
    ensures { IsTrue result ↔ AreApart lits.now }
{
    for (k, lit) in lits.iter().enumerate() {
        if has_var(&lits[..k], lit.var()) {
            return false;
        }
    }
    true
}

impl Drop for Session {
    fn drop(self) {
        let Session {
            alloc: _,
            clauses,
            asked,
            order,
        } = self;
        drop(clauses);
        drop(asked);
        drop(order);
    }
}

impl Session {
    pub fn new(alloc: Global, set: ClauseSet) -> Result<Session, NoMemory>
        ensures { IfOk result (λ s. s ≡ record { clauses = set; asked = record { vars = set.vars; clauses = [] } }) }
    {
        let vars = set.vars();
        let order = Order::new(alloc, vars)?;
        Ok(Session {
            alloc,
            clauses: set,
            asked: ClauseSet::new(alloc, vars),
            order,
        })
    }

    /// The first set, then the clauses that were kept.
    pub fn clauses(&self) -> &ClauseSet
        ensures { result.now ≡ self.now.clauses }
    {
        &self.clauses
    }

    /// Whether the clauses can be satisfied where these literals are true, by lines of which there are at most `budget`.
    pub fn ask(&mut self, assumed: &[Lit], budget: u64) -> Result<Answer, NoMemory>
        requires within { IsWithin assumed.now self.old.clauses.vars }
        requires apart { AreApart assumed.now }
        ensures wider { IsWider self.old.clauses self.new.clauses }
        ensures asked { OnOk result (self.new.asked ≡ with_units self.old.clauses assumed.now) }
        ensures answer { IfOk result (IsAsked (with_units self.old.clauses assumed.now) budget) }
        ensures blocked { IfOk result (IsBlockedBy assumed.now self.new.clauses) }
    {
        fit_with(self.alloc, &mut self.asked, &self.clauses, assumed)?;
        self.order.begin();
        let mut log = Derivation::new(self.alloc);
        let mut work = Work::none();
        let end = search(
            self.alloc,
            &self.asked,
            budget,
            u64::MAX,
            &mut self.order,
            &mut log,
            &mut work,
        )?;
        keep_all(
            self.alloc,
            &mut self.clauses,
            &mut self.order,
            assumed,
            &log,
            &end,
        )?;
        Ok(end.into_answer(log))
    }

    /// The set that was asked last.
    pub fn asked(&self) -> &ClauseSet
        ensures { result.now ≡ self.now.asked }
    {
        &self.asked
    }

    /// Gives the set away that was asked last.
    pub fn into_asked(self) -> ClauseSet
        ensures { result ≡ self.asked }
    {
        let Session {
            alloc: _,
            clauses,
            asked,
            order,
        } = self;
        drop(clauses);
        drop(order);
        asked
    }
}
