ghost use Rattle.std.specs.Prelude.{◌≡◌, ◌≢◌, ℕ, ◌+◌, ◌<◌, ◌≤◌, [], ◌∷◌, ◌++◌, length, IfOk, OnOk, OnErr, Some, None};
ghost use Rattle.lv_clauses.specs.Literals.{IsWithin};
ghost use Rattle.lv_clauses.specs.Sets.{numbered};
ghost use Rattle.lv_trail.specs.Trail.{entry, truths, value_in, IsTrail, IsFree, IsSame, IsGrown, IsReached, IsCut, IsClosed, IsReasonOf, IsPlaceOf, IsLevelOf};

use crate::store::Reached;
use crate::watched::Watched;
use lv_bits::NoMemory;
use lv_clauses::{Clause, ClauseSet, Lit};
use std::alloc::Global;
use std::marker::Model;

/// Clauses, and literals that are true, in the order in which they became so. A literal that is decided begins a level;
/// any other one has a reason, a clause whose other literals were false before.
pub struct Trail {
    watched: Watched,
}

impl Drop for Trail {
    fn drop(self) {
        let Trail { watched } = self;
        drop(watched);
    }
}

impl Model for Trail {
    ghost use Rattle.lv_trail.specs.Store.{entries};
    ghost use Rattle.lv_trail.specs.Trail.{TrailValue};
    ghost use Rattle.lv_trail.specs.Watches.{IsWatched};

    ghost Value = { TrailValue };

    ghost view = { λ t. record { vars = t.watched.store.vars; clauses = t.watched.store.clauses; entries = entries t.watched.store; level = t.watched.store.level } };

    ghost invariant = { λ t. IsWatched t.watched };
}

impl Trail {
    /// The trail of a set's clauses, without a true literal. It reserves what the calls below take, but for `add`.
    pub fn new(alloc: Global, set: &ClauseSet) -> Result<Trail, NoMemory>
        ensures valid { IfOk result IsTrail }
        ensures value { IfOk result (λ t. t ≡ record { vars = set.now.vars; clauses = set.now.clauses; entries = []; level = 0 }) }
    {
        let watched = Watched::new(alloc, set)?;
        Ok(Trail { watched })
    }

    /// The number of true literals.
    pub fn len(&self) -> u64
        ensures value { result ≡ length self.now.entries }
        ensures valid { IsTrail self.now }
    {
        self.watched.store.len()
    }

    /// The true literal at place k, from 0.
    pub fn at(&self, k: u64) -> Lit
        requires { k < length self.now.entries }
        ensures { result ≡ (entry self.now k).lit }
    {
        self.watched.store.at(k)
    }

    /// The value of a variable, if it has one.
    pub fn value(&self, var: u64) -> Option<bool>
        requires { (1 ≤ var) × (var ≤ self.now.vars) }
        ensures { result ≡ value_in (truths self.now.entries) var }
    {
        self.watched.store.value(var)
    }

    /// The level at which a variable got its value.
    pub fn level(&self, var: u64) -> u64
        requires within { (1 ≤ var) × (var ≤ self.now.vars) }
        requires set { value_in (truths self.now.entries) var ≢ None }
        ensures { IsLevelOf self.now.entries var result }
    {
        self.watched.store.level(var)
    }

    /// The number of the clause that gave a variable its value, none where it has no value or was decided.
    pub fn reason(&self, var: u64) -> Option<u64>
        requires { (1 ≤ var) × (var ≤ self.now.vars) }
        ensures { IsReasonOf self.now.entries var result }
    {
        self.watched.store.reason(var)
    }

    /// The place of a variable's literal, from 0, none where it has no value.
    pub fn place(&self, var: u64) -> Option<u64>
        requires { (1 ≤ var) × (var ≤ self.now.vars) }
        ensures { IsPlaceOf self.now.entries var result }
    {
        self.watched.store.place(var)
    }

    /// The literals of the clause of this number, from 1.
    pub fn clause(&self, id: u64) -> &[Lit]
        requires { (1 ≤ id) × (id ≤ length self.now.clauses) }
        ensures { numbered self.now.clauses id ≡ Some result.now }
    {
        self.watched.store.clause(id)
    }

    /// Makes a literal true at a new level.
    pub fn decide(&mut self, lit: Lit)
        requires free { IsFree self.old lit }
        requires closed { IsClosed self.old.clauses (truths self.old.entries) }
        ensures valid { IsTrail self.new }
        ensures value { self.new ≡ record self.old { level = self.old.level + 1; entries = self.old.entries ++ record { lit = lit; level = self.old.level + 1; reason = 0 } ∷ [] } }
    {
        self.watched.decide(lit);
    }

    /// Makes the last literal of each unit clause true, until no clause is unit or falsified, or gives a clause that is falsified.
    pub fn propagate(&mut self) -> Reached
        ensures valid { IsTrail self.new }
        ensures grown { IsGrown self.old self.new }
        ensures reached { IsReached self.new result }
    {
        self.watched.propagate()
    }

    /// Keeps the levels up to this one.
    pub fn back(&mut self, level: u64)
        requires { level ≤ self.old.level }
        ensures valid { IsTrail self.new }
        ensures cut { IsCut self.old self.new level }
    {
        self.watched.back(level);
    }

    /// Adds a clause, and gives its number.
    pub fn add(&mut self, clause: Clause) -> Result<u64, NoMemory>
        requires { IsWithin clause self.old.vars }
        ensures valid { IsTrail self.new }
        ensures ok { OnOk result (self.new ≡ record self.old { clauses = self.old.clauses ++ clause ∷ [] }) }
        ensures number { IfOk result (λ n. n ≡ length self.old.clauses + 1) }
        ensures err { OnErr result (self.new ≡ self.old) }
    {
        self.watched.add(clause)
    }

    /// The number of clauses that `propagate` has looked at since `new`.
    pub fn looked(&self) -> u64 {
        self.watched.looked
    }
}
