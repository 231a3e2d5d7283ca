ghost use Rattle.std.specs.Prelude.{◌≡◌, ◌≤◌, ◌<◌, ◌^◌, [], ◌∷◌, ◌++◌, take, length, Some, OnOk, OnErr, IfOk};
ghost use Rattle.lv_clauses.specs.Literals.{IsClause, IsWithin};
ghost use Rattle.lv_clauses.specs.Sets.{numbered, AreClauses};
ghost use Rattle.lv_clauses.specs.Added.{IsAdded};

use crate::clause::{Added, Clause};
use crate::lit::Lit;
use lv_bits::NoMemory;
use std::alloc::Global;
use std::marker::Model;

/// Clauses, numbered from 1, over the variables from 1 to `vars`.
pub struct ClauseSet {
    vars: u64,
    clauses: Vec<Clause>,
}

impl Drop for ClauseSet {
    fn drop(self) {
        let ClauseSet { vars: _, clauses } = self;
        drop(clauses);
    }
}

impl Model for ClauseSet {
    ghost use Rattle.lv_clauses.specs.Sets.{SetValue, AreClauses};

    ghost Value = { SetValue };

    ghost view = { λ s. record { vars = s.vars; clauses = s.clauses.items } };

    ghost invariant = { λ s. AreClauses s.vars s.clauses.items };
}

impl ClauseSet {
    /// The set without clauses.
    pub fn new(alloc: Global, vars: u64) -> ClauseSet
        ensures { result ≡ record { vars = vars; clauses = [] } }
    {
        ClauseSet {
            vars,
            clauses: Vec::new(alloc),
        }
    }

    /// Adds the clause of these literals, unless a literal is among them with both signs.
    pub fn add(&mut self, lits: &[Lit]) -> Result<Added, NoMemory>
        requires { IsWithin lits.now self.old.vars }
        ensures ok { IfOk result (λ added. IsAdded self.old lits.now added self.new) }
        ensures err { OnErr result (self.new ≡ self.old) }
    {
        match Clause::of(*self.clauses.allocator(), lits)? {
            None => Ok(Added::Tautology),
            Some(clause) => {
                self.push(clause)?;
                Ok(Added::Clause)
            }
        }
    }

    /// Adds a clause.
    pub fn push(&mut self, clause: Clause) -> Result<(), NoMemory>
        requires { IsWithin clause self.old.vars }
        ensures ok { OnOk result (self.new ≡ record { vars = self.old.vars; clauses = self.old.clauses ++ clause ∷ [] }) }
        ensures err { OnErr result (self.new ≡ self.old) }
    {
        let _ = clause.lits();
        self.clauses.reserve(1)?;
        self.clauses.push_reserved(clause);
        Ok(())
    }

    /// Makes room for more clauses.
    pub fn reserve(&mut self, more: u64) -> Result<(), NoMemory>
        ensures { self.new ≡ self.old }
    {
        self.clauses.reserve(more as usize)?;
        Ok(())
    }

    /// Keeps the first clauses.
    pub fn cut(&mut self, len: u64)
        ensures { self.new ≡ record { vars = self.old.vars; clauses = take len self.old.clauses } }
    {
        self.clauses.truncate(len as usize);
    }

    pub fn vars(&self) -> u64
        ensures { result ≡ self.now.vars }
    {
        self.vars
    }

    pub fn len(&self) -> u64
        ensures { result ≡ length self.now.clauses }
    {
        self.clauses.len() as u64
    }

    /// The clause of this number, from 1.
    pub fn clause(&self, id: u64) -> &Clause
        requires { (1 ≤ id) × (id ≤ length self.now.clauses) }
        ensures value { numbered self.now.clauses id ≡ Some result.now }
        ensures sorted { IsClause result.now }
        ensures within { IsWithin result.now self.now.vars }
    {
        &self.clauses[(id - 1) as usize]
    }

    /// Each clause is one over the variables, and there are fewer than 2^63. It does nothing: its contract is the law.
    pub fn kept(&self)
        ensures clauses { AreClauses self.now.vars self.now.clauses }
        ensures few { length self.now.clauses < 2 ^ 63 }
    {
        let _ = self.clauses.len();
    }
}
