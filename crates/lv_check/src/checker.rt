ghost use Rattle.std.specs.Prelude.{◌≡◌, ℕ, ◌+◌, ◌-◌, ◌^◌, ◌<◌, ◌≤◌, ◌↔◌, List, length, slice_get, IfOk, IsTrue, MatchOption, Some, None};
ghost use Rattle.lv_clauses.specs.Literals.{Lit as Literal, IsWithin, IsClause};
ghost use Rattle.lv_clauses.specs.Derivations.{Follows, known_at, walks};
ghost use Rattle.lv_clauses.specs.Sets.{numbered};
ghost use Rattle.lv_check.specs.Marks.{AreBelow, AreEarlierWithin, Tells, Assumed};
ghost use Rattle.lv_check.specs.Answer.{IsAnswer, FollowsAt};

use crate::marks::{Mark, Rest, make_true, rest_of};
use lv_bits::NoMemory;
use lv_clauses::{ClauseSet, Derivation, Lit};
use std::alloc::Global;
use std::marker::Model;

/// What is needed to check lines over so many variables.
pub struct Checker {
    marks: Vec<Mark>,
}

impl Drop for Checker {
    fn drop(self) {
        let Checker { marks } = self;
        drop(marks);
    }
}

impl Model for Checker {
    ghost use Rattle.std.specs.Prelude.{ℕ, length};

    ghost Value = { ℕ };

    ghost view = { λ c. length c.marks.items };
}

/// Whether the lines refute the set, or the first line that doesn't follow.
#[derive(Clone, Copy, PartialEq, Eq, Debug)]
pub enum Checked {
    Proved,
    Fails(u64),
}

/// The clause of a number, among those that line k may rest on.
fn known<'a>(set: &'a ClauseSet, derivation: &'a Derivation, k: u64, id: u64) -> Option<&'a [Lit]>
    requires line { k < length derivation.now }
    requires earlier { AreEarlierWithin derivation.now k set.now.vars }
    ensures { MatchOption result
        (numbered (known_at set.now.clauses derivation.now k) id ≡ None)
        (λ c. (numbered (known_at set.now.clauses derivation.now k) id ≡ Some c.now) × IsWithin c.now set.now.vars) }
{
    if id == 0 {
        return None;
    }
    if id <= set.len() {
        return Some(set.clause(id).lits());
    }
    let at = id - set.len() - 1;
    if at < k {
        return Some(derivation.line(at).clause().lits());
    }
    None
}

/// Makes the negations of these literals true, if their variables are within the set.
fn assume(marks: &mut [Mark], line: u64, lits: &[Lit]) -> bool
    requires sorted { IsClause lits.now }
    requires marks { AreBelow marks.old line }
    ensures told { Assumed marks.new line lits.now result }
    ensures fresh { AreBelow marks.new (line + 1) }
{
    for x in lits {
        if x.var() > marks.len() as u64 {
            return false;
        }
        make_true(marks, line, x.negated());
    }
    true
}

/// Whether the hints lead to a clause that is false.
fn walk(marks: &mut [Mark], set: &ClauseSet, derivation: &Derivation, k: u64, hints: &[u64]) -> bool
    requires line { k < length derivation.now }
    requires room { k + 1 < 2 ^ 64 }
    requires earlier { AreEarlierWithin derivation.now k set.now.vars }
    requires marks { length marks.old ≡ set.now.vars }
    requires upto { AreBelow marks.old (k + 2) }
    ensures upto { AreBelow marks.new (k + 2) }
    ensures walked { (t : List Literal) → Tells marks.old (k + 1) t → result ≡ walks (known_at set.now.clauses derivation.now k) hints.now t }
{
    for (i, h) in hints.iter().enumerate() {
        let Some(clause) = known(set, derivation, k, *h) else {
            return false;
        };
        match rest_of(marks, k + 1, clause) {
            Rest::Nothing => {
                return i + 1 == hints.len();
            }
            Rest::One(x) => {
                make_true(marks, k + 1, x);
            }
            Rest::More => return false,
        }
    }
    false
}

/// Whether line k follows.
fn follows(marks: &mut [Mark], set: &ClauseSet, derivation: &Derivation, k: u64) -> bool
    requires line { k < length derivation.now }
    requires room { k + 1 < 2 ^ 64 }
    requires earlier { AreEarlierWithin derivation.now k set.now.vars }
    requires marks { length marks.old ≡ set.now.vars }
    requires fresh { AreBelow marks.old (k + 1) }
    ensures answer { IsTrue result ↔ FollowsAt set.now derivation.now k }
    ensures fresh { AreBelow marks.new (k + 2) }
{
    let line = derivation.line(k);
    assume(marks, k + 1, line.clause().lits()) && walk(marks, set, derivation, k, line.hints())
}

/// Forgets all values.
fn wipe(marks: &mut [Mark])
    ensures { AreBelow marks.new 1 }
{
    for m in marks.iter_mut() {
        *m = Mark {
            line: 0,
            neg: false,
        };
    }
}

fn run(marks: &mut [Mark], set: &ClauseSet, derivation: &Derivation) -> Checked
    requires { length marks.old ≡ set.now.vars }
    ensures { IsAnswer set.now derivation.now result }
{
    wipe(marks);
    let mut empty = false;
    for k in 0..derivation.len() {
        if !follows(marks, set, derivation, k) {
            return Checked::Fails(k);
        }
        if derivation.line(k).clause().lits().is_empty() {
            empty = true;
        }
    }
    if empty {
        Checked::Proved
    } else {
        Checked::Fails(derivation.len())
    }
}

impl Checker {
    pub fn new(alloc: Global, set: &ClauseSet) -> Result<Checker, NoMemory>
        ensures { IfOk result (λ c. c ≡ set.now.vars) }
    {
        let none = Mark {
            line: 0,
            neg: false,
        };
        let marks = vec![in alloc; none; set.vars() as usize]?;
        Ok(Checker { marks })
    }

    pub fn check(&mut self, set: &ClauseSet, derivation: &Derivation) -> Checked
        requires { self.old ≡ set.now.vars }
        ensures answer { IsAnswer set.now derivation.now result }
        ensures same { self.new ≡ self.old }
    {
        run(self.marks.as_mut_slice(), set, derivation)
    }
}
