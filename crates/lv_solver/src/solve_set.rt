ghost use Rattle.std.specs.Prelude.{◌≡◌, ℕ, ◌≤◌, [], length, IfOk, OnOk, false};
ghost use Rattle.lv_clauses.specs.Literals.{has, IsClauseOf};
ghost use Rattle.lv_trail.specs.Trail.{IsTrail, IsGrown, IsReached, truths};
ghost use Rattle.lv_trail.specs.declared.store.Reached.TheVariants.{Conflict};
ghost use Rattle.lv_solver.specs.Learning.{AreFalse, IsSteady};
ghost use Rattle.lv_solver.specs.Solving.{AreKnown, IsPick, IsChoice, IsAnswer, IsEnd, answer_of, Values, HasLearnt};

use crate::analyze::{analyze, back_level, top_level};
use crate::order::Order;
use crate::seen::Seen;
use lv_bits::NoMemory;
use lv_clauses::{Assignment, Clause, ClauseSet, Derivation, Line, Lit};
use lv_trail::{Reached, Trail};
use std::alloc::Global;

/// What became of a set: values that satisfy it, a derivation that refutes it, or the lines that were written until the budget was spent.
#[derive(Drop)]
pub enum Answer {
    Model(Assignment),
    Refuted(Derivation),
    Budget(Derivation),
}

/// How a search ended: with values that satisfy the set, with an empty line, or with its budget spent.
#[derive(Drop)]
pub enum End {
    Found(Assignment),
    Empty,
    Spent,
}

/// How many conflicts there were, how many literals became true by unit steps, and how many clauses were looked at for them.
/// Nothing is claimed of it.
#[derive(Clone, Copy)]
pub struct Work {
    pub conflicts: u64,
    pub steps: u64,
    pub looks: u64,
}

impl Work {
    pub fn none() -> Work {
        Work {
            conflicts: 0,
            steps: 0,
            looks: 0,
        }
    }
}

/// Unit steps, which are counted.
fn propagate(trail: &mut Trail, work: &mut Work) -> Reached
    ensures valid { IsTrail trail.new }
    ensures grown { IsGrown trail.old trail.new }
    ensures reached { IsReached trail.new result }
{
    let before = trail.len();
    let reached = trail.propagate();
    let steps = trail.len().saturating_sub(before);
    work.steps = work.steps.saturating_add(steps);
    work.looks = trail.looked();
    if let Reached::Conflict(_) = &reached {
        work.conflicts = work.conflicts.saturating_add(1);
    }
    reached
}

/// The first variable without a value, where all up to `known` have values.
fn pick(trail: &Trail, vars: u64, known: u64) -> Option<u64>
    requires vars { vars ≡ trail.now.vars }
    requires known { AreKnown trail.now known }
    ensures { IsPick trail.now result }
{
    for v in known..vars {
        if trail.value(v + 1).is_none() {
            return Some(v + 1);
        }
    }
    None
}

/// A literal to decide: of the first variable without a value, or as the order suggests.
fn choose(trail: &Trail, vars: u64, order: &mut Order, rising: bool, known: u64) -> Option<Lit>
    requires vars { vars ≡ trail.now.vars }
    requires known { AreKnown trail.now known }
    ensures { IsChoice trail.now rising result }
{
    if !rising {
        if let Some(lit) = order.suggest(trail, vars) {
            return Some(lit);
        }
    }
    let Some(var) = pick(trail, vars, known) else {
        return None;
    };
    let lit = Lit::new(var, true);
    Some(lit)
}

/// Whether a variable is true.
fn is_true(trail: &Trail, var: u64) -> bool
    requires { (1 ≤ var) × (var ≤ trail.now.vars) }
    ensures { result ≡ has (truths trail.now.entries) (record { var = var; neg = false }) }
{
    match trail.value(var) {
        Some(value) => value,
        None => false,
    }
}

/// The value of each variable.
fn values(alloc: Global, trail: &Trail, vars: u64) -> Result<Assignment, NoMemory>
    requires { vars ≡ trail.now.vars }
    ensures { IfOk result (Values trail.now) }
{
    let mut values = Vec::new(alloc);
    for v in 0..vars {
        values.reserve(1)?;
        values.push_reserved(is_true(trail, v + 1));
    }
    Ok(Assignment::new(values))
}

/// The clause of literals that are all false.
fn clause_of(alloc: Global, trail: &Trail, lits: &[Lit]) -> Result<Clause, NoMemory>
    requires sound { IsTrail trail.now }
    requires false_all { AreFalse trail.now lits.now }
    ensures { IfOk result (IsClauseOf lits.now) }
{
    match Clause::of(alloc, lits)? {
        Some(clause) => Ok(clause),
        None => unreachable!(),
    }
}

/// Adds the line that a false clause teaches, and gives a copy of its clause.
fn learn(
    alloc: Global,
    trail: &Trail,
    seen: &mut Seen,
    log: &mut Derivation,
    top: u64,
    id: u64,
    all: bool,
) -> Result<Clause, NoMemory>
    requires sound { IsTrail trail.now }
    requires steady { IsSteady trail.now }
    requires top { top ≡ trail.now.level }
    requires conflict { IsReached trail.now (Conflict id) }
    requires sized { length seen.old.turns ≡ trail.now.vars }
    ensures learnt { IfOk result (λ c. HasLearnt trail.now all log.old log.new c) }
    ensures sized { OnOk result (length seen.new.turns ≡ trail.now.vars) }
{
    let learnt = analyze(alloc, trail, seen, top, id, all)?;
    let clause = clause_of(alloc, trail, &learnt.lits)?;
    // The log keeps copies, which have no room to spare.
    let copy = clause.copy(alloc)?;
    let hints = Vec::from_slice(alloc, &learnt.hints)?;
    log.push(Line::new(copy, hints))?;
    Ok(clause)
}

/// Writes lines until a set is satisfied or refuted, or `budget` of them are written. Until there are `half` of them, variables that were
/// in many lines are decided first, and a line is learnt at the first unique implication point; then the search goes back to level 0,
/// decides variables in rising order, and learns the negations of the decisions that a conflict rests on.
pub fn search(
    alloc: Global,
    set: &ClauseSet,
    budget: u64,
    half: u64,
    order: &mut Order,
    log: &mut Derivation,
    work: &mut Work,
) -> Result<End, NoMemory>
    requires { log.old ≡ [] }
    ensures { IfOk result (IsEnd set.now budget half log.new) }
{
    let vars = set.vars();
    let mut trail = Trail::new(alloc, set)?;
    let mut seen = Seen::new(alloc, vars)?;
    let mut known = 0;
    loop {
        match propagate(&mut trail, work) {
            Reached::Closed => {
                let rising = log.len() >= half;
                match choose(&trail, vars, order, rising, known) {
                    None => return Ok(End::Found(values(alloc, &trail, vars)?)),
                    Some(lit) => {
                        known = if rising { lit.var() - 1 } else { 0 };
                        trail.decide(lit);
                    }
                }
            }
            Reached::Conflict(id) => {
                if log.len() >= budget {
                    return Ok(End::Spent);
                }
                let top = top_level(&trail);
                let root = top == 0;
                let all = root || log.len() >= half;
                let clause = learn(alloc, &trail, &mut seen, log, top, id, all)?;
                if root {
                    return Ok(End::Empty);
                }
                order.reward(clause.lits());
                let at_half = log.len() == half;
                let level = back_level(&trail, top, clause.lits(), at_half, order.is_due());
                order.save(&trail, level);
                trail.back(level);
                trail.add(clause)?;
                known = 0;
            }
        }
    }
}

impl End {
    /// The answer of a search that ended so, with these lines.
    pub fn into_answer(self, log: Derivation) -> Answer
        ensures { result ≡ answer_of self log }
    {
        match self {
            End::Found(values) => Answer::Model(values),
            End::Empty => Answer::Refuted(log),
            End::Spent => Answer::Budget(log),
        }
    }
}

/// Whether a set can be satisfied, by lines of which there are at most `budget`: a search that decides in rising order from half of them on.
pub fn solve(alloc: Global, set: &ClauseSet, budget: u64) -> Result<Answer, NoMemory>
    ensures { IfOk result (IsAnswer set.now budget) }
{
    let mut work = Work::none();
    solve_counted(alloc, set, budget, &mut work)
}

/// As `solve`, with the work counted.
pub fn solve_counted(
    alloc: Global,
    set: &ClauseSet,
    budget: u64,
    work: &mut Work,
) -> Result<Answer, NoMemory>
    ensures { IfOk result (IsAnswer set.now budget) }
{
    let mut log = Derivation::new(alloc);
    let mut order = Order::new(alloc, set.vars())?;
    let end = search(alloc, set, budget, budget / 2, &mut order, &mut log, work)?;
    Ok(end.into_answer(log))
}
