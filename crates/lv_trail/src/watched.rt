ghost use Rattle.std.specs.Prelude.{◌≡◌, ◌≢◌, ℕ, ◌+◌, ◌-◌, ◌*◌, ◌<◌, ◌≤◌, List, [], ◌∷◌, ◌++◌, length, get_or, IfOk, OnOk, OnErr, IsTrue, false, true};
ghost use Rattle.lv_clauses.specs.Literals.{has, negated, IsWithin};
ghost use Rattle.lv_trail.specs.Store.{entries, IsFree, IsSame, IsGrown, IsReached, IsCut};
ghost use Rattle.lv_trail.specs.Trail.{truths, IsClosed};
ghost use Rattle.lv_trail.specs.Watches.{left, IsWatched, IsVisit};
ghost use Rattle.lv_trail.specs.Looks.{IsLast, IsPair, IsSettled, IsSeen, IsNextSeen, IsFollowed, IsHeaded, AreAllSeen};

use crate::lists::{Lists, list_of, lit_of};
use crate::search::{find_late, find_open};
use crate::store::{Reached, Store};
use lv_bits::NoMemory;
use lv_clauses::{Clause, ClauseSet, Lit};
use std::alloc::Global;

/// Clauses and true literals, where two literals watch each clause that has so many.
#[derive(Drop)]
pub struct Watched {
    pub store: Store,
    pub lists: Lists,
    /// The first slot that is off its list, while the list is gone through.
    pub apart: u64,
    /// How many true literals the watches know.
    pub head: u64,
    /// How many clauses are watched.
    pub checked: u64,
    /// Whether a clause may lose its true literal while a watch of it stays false.
    pub loose: bool,
    pub looked: u64,
}

/// What looks at clauses showed.
#[derive(Clone, Copy)]
pub enum Seen {
    Falsified(u64),
    Kept,
}

impl Watched {
    pub fn new(alloc: Global, set: &ClauseSet) -> Result<Watched, NoMemory>
        ensures watched { IfOk result (λ t. IsWatched t) }
        ensures same { IfOk result (λ t. (t.store.vars ≡ set.now.vars) × (t.store.clauses ≡ set.now.clauses)) }
        ensures empty { IfOk result (λ t. (t.store.len ≡ 0) × (t.store.level ≡ 0)) }
    {
        let store = Store::new(alloc, set)?;
        let vars = store.vars;
        if vars >= 1 << 60 {
            return Err(NoMemory);
        }
        let Some(slots) = store.clauses.len().checked_mul(2) else {
            return Err(NoMemory);
        };
        let lists = Lists::new(alloc, 2 * vars + 2, slots)?;
        Ok(Watched {
            store,
            lists,
            apart: 0,
            head: 0,
            checked: 0,
            loose: false,
            looked: 0,
        })
    }

    /// Whether a literal that is true at the last level may become free while one that was false at this level stays so.
    fn is_loose(&self, level: u64) -> bool
        ensures { result ≡ false → (self.now.loose ≡ false) × (self.now.store.level ≤ level) }
    {
        self.loose || level < self.store.level
    }

    /// Has two literals watch the next clause.
    fn watch(&mut self, first: Lit, second: Lit)
        requires watched { IsWatched self.old }
        requires pair { IsPair self.old first second }
        ensures watched { IsWatched self.new }
        ensures store { self.new.store ≡ self.old.store }
        ensures checked { self.new.checked ≡ self.old.checked + 1 }
    {
        let slot = 2 * self.checked + 1;
        self.lists.put(slot, list_of(first));
        self.lists.put(slot + 1, list_of(second));
        self.checked += 1;
    }

    /// Has the literal that isn't false watch the next clause, beside one of the others, which are all false.
    fn watch_last(&mut self, first: Lit)
        requires watched { IsWatched self.old }
        requires last { IsLast self.old first }
        ensures watched { IsWatched self.new }
        ensures grown { IsGrown self.old.store self.new.store }
        ensures checked { self.new.checked ≡ self.old.checked + 1 }
    {
        let id = self.checked + 1;
        self.store.force(first, id);
        match find_late(&self.store, self.store.clause(id), list_of(first)) {
            Some(second) => {
                self.loose = self.is_loose(self.store.level(second.var()));
                self.watch(first, second);
            }
            None => {
                self.loose = self.is_loose(0);
                self.checked = id;
            }
        }
    }

    /// Looks at the next clause that isn't watched.
    fn look_at_next(&mut self) -> Seen
        requires watched { IsWatched self.old }
        requires next { self.old.checked < length self.old.store.clauses }
        ensures watched { IsWatched self.new }
        ensures grown { IsGrown self.old.store self.new.store }
        ensures seen { IsSeen self.new.store result }
        ensures next { IsNextSeen self.old self.new result }
    {
        let id = self.checked + 1;
        self.looked = self.looked.saturating_add(1);
        let Some(first) = find_open(&self.store, self.store.clause(id), 0) else {
            return Seen::Falsified(id);
        };
        match find_open(&self.store, self.store.clause(id), list_of(first)) {
            Some(second) => self.watch(first, second),
            None => self.watch_last(first),
        }
        Seen::Kept
    }

    /// Looks at each clause that isn't watched.
    fn look_at_rest(&mut self) -> Seen
        requires { IsWatched self.old }
        ensures watched { IsWatched self.new }
        ensures grown { IsGrown self.old.store self.new.store }
        ensures seen { IsSeen self.new.store result }
        ensures all { AreAllSeen self.new result }
    {
        while self.checked < self.store.clauses.len() {
            if let Seen::Falsified(id) = self.look_at_next() {
                return Seen::Falsified(id);
            }
        }
        Seen::Kept
    }

    /// Puts the first slot that is off its list on another or the same list.
    fn settle(&mut self, list: u64, to: u64)
        requires visit { IsVisit self.old list }
        requires some { 1 ≤ self.old.apart }
        requires settled { IsSettled self.old list to }
        ensures visit { IsVisit self.new list }
        ensures store { self.new.store ≡ self.old.store }
        ensures checked { self.new.checked ≡ self.old.checked }
        ensures head { self.new.head ≡ self.old.head }
        ensures less { left self.new + 1 ≡ left self.old }
    {
        let slot = self.apart;
        self.apart = self.lists.next(slot);
        self.lists.put(slot, to);
    }

    /// Looks at the clause of the first slot that is off its list, since its watch has become false.
    fn look(&mut self, list: u64) -> Seen
        requires visit { IsVisit self.old list }
        requires some { 1 ≤ self.old.apart }
        ensures visit { IsVisit self.new list }
        ensures grown { IsGrown self.old.store self.new.store }
        ensures seen { IsSeen self.new.store result }
        ensures checked { self.new.checked ≡ self.old.checked }
        ensures head { self.new.head ≡ self.old.head }
        ensures less { IsFollowed self.old self.new result }
    {
        let slot = self.apart;
        self.looked = self.looked.saturating_add(1);
        let id = (slot - 1) / 2 + 1;
        let mate = self.lists.other(slot);
        let other = lit_of(mate);
        if self.store.is_true(other) {
            self.settle(list, list);
            return Seen::Kept;
        }
        if let Some(lit) = find_open(&self.store, self.store.clause(id), mate) {
            self.settle(list, list_of(lit));
            return Seen::Kept;
        }
        if self.store.is_true(other.negated()) {
            return Seen::Falsified(id);
        }
        self.store.force(other, id);
        self.settle(list, list);
        Seen::Kept
    }

    /// Puts the slots that are off their list back.
    fn restore(&mut self, list: u64)
        requires { IsVisit self.old list }
        ensures watched { IsWatched self.new }
        ensures store { self.new.store ≡ self.old.store }
        ensures checked { self.new.checked ≡ self.old.checked }
    {
        while self.apart != 0 {
            let slot = self.apart;
            self.apart = self.lists.next(slot);
            self.lists.put(slot, list);
        }
    }

    /// Takes the slots of the next true literal's negation off their list, and gives the list.
    fn detach(&mut self) -> u64
        requires watched { IsWatched self.old }
        requires more { self.old.head < self.old.store.len }
        ensures visit { IsVisit self.new result }
        ensures store { self.new.store ≡ self.old.store }
        ensures checked { self.new.checked ≡ self.old.checked }
        ensures head { self.new.head ≡ self.old.head }
    {
        let lit = self.store.at(self.head).negated();
        let list = list_of(lit);
        self.loose = self.is_loose(self.store.level(lit.var()));
        self.apart = self.lists.detach(list);
        list
    }

    /// Looks at each clause that the negation of the next true literal watches.
    fn follow(&mut self) -> Seen
        requires watched { IsWatched self.old }
        requires more { self.old.head < self.old.store.len }
        ensures watched { IsWatched self.new }
        ensures grown { IsGrown self.old.store self.new.store }
        ensures seen { IsSeen self.new.store result }
        ensures checked { self.new.checked ≡ self.old.checked }
        ensures next { IsHeaded self.old self.new result }
    {
        let list = self.detach();
        while self.apart != 0 {
            if let Seen::Falsified(id) = self.look(list) {
                self.restore(list);
                return Seen::Falsified(id);
            }
        }
        self.head += 1;
        Seen::Kept
    }

    /// Makes unit steps until no clause is unit or some clause is false.
    pub fn propagate(&mut self) -> Reached
        requires { IsWatched self.old }
        ensures watched { IsWatched self.new }
        ensures grown { IsGrown self.old.store self.new.store }
        ensures reached { IsReached self.new.store result }
    {
        if let Seen::Falsified(id) = self.look_at_rest() {
            return Reached::Conflict(id);
        }
        while self.head < self.store.len {
            if let Seen::Falsified(id) = self.follow() {
                return Reached::Conflict(id);
            }
        }
        Reached::Closed
    }

    /// Makes a literal true at a new level.
    pub fn decide(&mut self, lit: Lit)
        requires watched { IsWatched self.old }
        requires free { IsFree self.old.store lit }
        requires closed { IsClosed self.old.store.clauses (truths (entries self.old.store)) }
        ensures watched { IsWatched self.new }
        ensures same { IsSame self.old.store self.new.store }
        ensures entries { entries self.new.store ≡ entries self.old.store ++ record { lit = lit; level = self.old.store.level + 1; reason = 0 } ∷ [] }
        ensures level { self.new.store.level ≡ self.old.store.level + 1 }
    {
        self.store.decide(lit);
    }

    /// Keeps the levels up to this one.
    pub fn back(&mut self, level: u64)
        requires watched { IsWatched self.old }
        requires level { level ≤ self.old.store.level }
        ensures watched { IsWatched self.new }
        ensures cut { IsCut self.old.store self.new.store level }
    {
        self.store.back(level);
        if self.head > self.store.len {
            self.head = self.store.len;
        }
        if self.loose {
            self.lists.clear();
            self.checked = 0;
            self.loose = false;
        }
    }

    /// Adds a clause, and gives its number.
    pub fn add(&mut self, clause: Clause) -> Result<u64, NoMemory>
        requires watched { IsWatched self.old }
        requires within { IsWithin clause self.old.store.vars }
        ensures watched { IsWatched self.new }
        ensures ok { OnOk result ((self.new.store.clauses ≡ self.old.store.clauses ++ clause ∷ []) × (entries self.new.store ≡ entries self.old.store) × (self.new.store.level ≡ self.old.store.level) × (self.new.store.vars ≡ self.old.store.vars)) }
        ensures number { IfOk result (λ n. n ≡ length self.old.store.clauses + 1) }
        ensures err { OnErr result (IsSame self.old.store self.new.store × (entries self.new.store ≡ entries self.old.store) × (self.new.store.level ≡ self.old.store.level)) }
    {
        self.lists.slots.reserve(2)?;
        let id = self.store.add(clause)?;
        self.lists.grow();
        Ok(id)
    }
}
