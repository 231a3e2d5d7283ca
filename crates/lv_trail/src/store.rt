ghost use Rattle.std.specs.Prelude.{◌≡◌, ℕ, ◌+◌, ◌-◌, ◌<◌, ◌≤◌, List, [], ◌∷◌, ◌++◌, length, take, get_or, slice_get, IfOk, OnOk, OnErr, IsTrue, Some, false, true};
ghost use Rattle.lv_clauses.specs.Literals.{Lit as Literal, has, negated, IsClause, IsWithin};
ghost use Rattle.lv_clauses.specs.Sets.{numbered};
ghost use Rattle.lv_trail.specs.Store.{entries, IsSound, IsFree, IsStep, IsSame, IsReached, IsCut, IsGrown, IsPopped};
ghost use Rattle.lv_trail.specs.Trail.{no_entry, truths, value_in, IsReason, IsReasonOf, IsPlaceOf, IsLevelOf, IsClosed};

use crate::arena::Arena;
use lv_bits::NoMemory;
use lv_clauses::{Clause, ClauseSet, Lit};
use std::alloc::Global;

/// A literal that is true, the level at which it became so, and the clause that made it so, or 0 where it was decided.
#[derive(Clone, Copy)]
pub struct Entry {
    pub lit: Lit,
    pub level: u64,
    pub reason: u64,
}

/// Clauses, and the literals that are true, in the order in which they became so.
#[derive(Drop)]
pub struct Store {
    pub vars: u64,
    pub clauses: Arena,
    pub slots: Vec<Entry>,
    pub len: u64,
    pub places: Vec<u64>,
    pub level: u64,
}

/// Where unit steps lead.
#[derive(Clone, Copy, PartialEq, Eq)]
pub enum Reached {
    Closed,
    Conflict(u64),
}

/// What stands in slots that are past the end.
fn no_entry() -> Entry
    ensures { result ≡ no_entry }
{
    Entry {
        lit: Lit::new(1, false),
        level: 0,
        reason: 0,
    }
}

impl Store {
    pub fn new(alloc: Global, set: &ClauseSet) -> Result<Store, NoMemory>
        ensures sound { IfOk result (λ t. IsSound t) }
        ensures same { IfOk result (λ t. (t.vars ≡ set.now.vars) × (t.clauses ≡ set.now.clauses)) }
        ensures empty { IfOk result (λ t. (t.len ≡ 0) × (t.level ≡ 0)) }
    {
        let vars = set.vars();
        let mut clauses = Arena::new(alloc);
        for id in 0..set.len() {
            clauses.push(set.clause(id + 1).lits())?;
        }
        let none = no_entry();
        let slots = vec![in alloc; none; vars as usize]?;
        let places = vec![in alloc; 0u64; vars as usize]?;
        Ok(Store {
            vars,
            clauses,
            slots,
            len: 0,
            places,
            level: 0,
        })
    }

    pub fn len(&self) -> u64
        ensures { result ≡ self.now.len }
    {
        self.len
    }

    /// The literal at place k, from 0.
    pub fn at(&self, k: u64) -> Lit
        requires sound { IsSound self.now }
        requires below { k < self.now.len }
        ensures { result ≡ (get_or (entries self.now) k no_entry).lit }
    {
        self.slots[k as usize].lit
    }

    /// Whether the literal is true.
    pub fn is_true(&self, lit: Lit) -> bool
        requires sound { IsSound self.now }
        requires within { (1 ≤ lit.var) × (lit.var ≤ self.now.vars) }
        ensures { result ≡ has (truths (entries self.now)) lit }
    {
        let place = self.places[(lit.var() - 1) as usize];
        if place == 0 {
            return false;
        }
        self.slots[(place - 1) as usize].lit.neg() == lit.neg()
    }

    /// The value of a variable, if it has one.
    pub fn value(&self, var: u64) -> Option<bool>
        requires sound { IsSound self.now }
        requires within { (1 ≤ var) × (var ≤ self.now.vars) }
        ensures { result ≡ value_in (truths (entries self.now)) var }
    {
        let place = self.places[(var - 1) as usize];
        if place == 0 {
            return None;
        }
        Some(!self.slots[(place - 1) as usize].lit.neg())
    }

    /// The clause that gave a variable its value, if one did.
    pub fn reason(&self, var: u64) -> Option<u64>
        requires sound { IsSound self.now }
        requires within { (1 ≤ var) × (var ≤ self.now.vars) }
        ensures { IsReasonOf (entries self.now) var result }
    {
        let place = self.places[(var - 1) as usize];
        if place == 0 {
            return None;
        }
        let reason = self.slots[(place - 1) as usize].reason;
        if reason == 0 { None } else { Some(reason) }
    }

    /// The place of a variable that has a value.
    pub fn place(&self, var: u64) -> Option<u64>
        requires sound { IsSound self.now }
        requires within { (1 ≤ var) × (var ≤ self.now.vars) }
        ensures { IsPlaceOf (entries self.now) var result }
    {
        let place = self.places[(var - 1) as usize];
        if place == 0 {
            return None;
        }
        Some(place - 1)
    }

    /// The level of a variable that has a value.
    pub fn level(&self, var: u64) -> u64
        requires sound { IsSound self.now }
        requires within { (1 ≤ var) × (var ≤ self.now.vars) }
        ensures { IsLevelOf (entries self.now) var result }
    {
        let place = self.places[(var - 1) as usize];
        if place == 0 {
            return 0;
        }
        self.slots[(place - 1) as usize].level
    }

    /// The literals of the clause of this number, from 1.
    pub fn clause(&self, id: u64) -> &[Lit]
        requires sound { IsSound self.now }
        requires within { (1 ≤ id) × (id ≤ length self.now.clauses) }
        ensures value { numbered self.now.clauses id ≡ Some result.now }
        ensures sorted { IsClause result.now }
        ensures within { IsWithin result.now self.now.vars }
    {
        self.clauses.lits(id - 1)
    }

    /// Makes one more literal true.
    pub fn push(&mut self, entry: Entry)
        requires sound { IsSound self.old }
        requires free { IsFree self.old entry.lit }
        requires step { IsStep self.old entry }
        ensures sound { IsSound self.new }
        ensures same { IsSame self.old self.new }
        ensures entries { entries self.new ≡ entries self.old ++ entry ∷ [] }
        ensures level { self.new.level ≡ entry.level }
    {
        let at = self.len as usize;
        self.slots[at] = entry;
        self.places[(entry.lit.var() - 1) as usize] = self.len + 1;
        self.len += 1;
        self.level = entry.level;
    }

    /// Makes a literal true at a new level.
    pub fn decide(&mut self, lit: Lit)
        requires sound { IsSound self.old }
        requires free { IsFree self.old lit }
        requires closed { IsClosed self.old.clauses (truths (entries self.old)) }
        ensures sound { IsSound self.new }
        ensures same { IsSame self.old self.new }
        ensures entries { entries self.new ≡ entries self.old ++ record { lit = lit; level = self.old.level + 1; reason = 0 } ∷ [] }
        ensures level { self.new.level ≡ self.old.level + 1 }
    {
        let level = self.level + 1;
        self.push(Entry {
            lit,
            level,
            reason: 0,
        });
    }

    /// Makes the literal of a unit clause true, unless it is so already.
    pub fn force(&mut self, lit: Lit, id: u64)
        requires sound { IsSound self.old }
        requires within { (1 ≤ lit.var) × (lit.var ≤ self.old.vars) }
        requires reason { has (truths (entries self.old)) lit ≡ false → IsReason self.old.clauses (truths (entries self.old)) lit id }
        ensures grown { IsGrown self.old self.new }
        ensures is { has (truths (entries self.new)) lit ≡ true }
    {
        if self.is_true(lit) {
            return;
        }
        let level = self.level;
        self.push(Entry {
            lit,
            level,
            reason: id,
        });
    }

    /// Takes the last literal away.
    fn pop(&mut self)
        requires sound { IsSound self.old }
        requires some { 1 ≤ self.old.len }
        ensures { IsPopped self.old self.new }
    {
        let last = self.len - 1;
        let var = self.slots[last as usize].lit.var();
        self.places[(var - 1) as usize] = 0;
        self.len = last;
        self.level = if last == 0 {
            0
        } else {
            self.slots[(last - 1) as usize].level
        };
    }

    /// Keeps the levels up to this one.
    pub fn back(&mut self, level: u64)
        requires sound { IsSound self.old }
        requires level { level ≤ self.old.level }
        ensures { IsCut self.old self.new level }
    {
        while self.level > level {
            self.pop();
        }
    }

    /// Adds a clause, and gives its number.
    pub fn add(&mut self, clause: Clause) -> Result<u64, NoMemory>
        requires sound { IsSound self.old }
        requires within { IsWithin clause self.old.vars }
        ensures sound { IsSound self.new }
        ensures ok { OnOk result ((self.new.clauses ≡ self.old.clauses ++ clause ∷ []) × (entries self.new ≡ entries self.old) × (self.new.level ≡ self.old.level) × (self.new.vars ≡ self.old.vars)) }
        ensures number { IfOk result (λ n. n ≡ length self.old.clauses + 1) }
        ensures err { OnErr result (IsSame self.old self.new × (entries self.new ≡ entries self.old) × (self.new.level ≡ self.old.level)) }
    {
        self.clauses.push(clause.lits())?;
        Ok(self.clauses.len())
    }
}
