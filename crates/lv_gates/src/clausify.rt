ghost use Rattle.std.specs.Prelude.{◌≡◌, ℕ, ◌+◌, ◌<◌, ◌≤◌, [], ◌∷◌, ◌++◌, length, OnOk, IfOk, true, false, not, count_by, is_some};
ghost use Rattle.lv_aig.specs.Edges.{gate_at};
ghost use Rattle.lv_clauses.specs.Literals.{IsClause};
ghost use Rattle.lv_gates.specs.Encodes.{HasInputs, Encodes, CountsGates};
ghost use Rattle.lv_clauses.specs.Sizes.{IsFew};
ghost use Rattle.lv_gates.specs.Lists.{AreBelow, three, clauses_from, goal_clauses, goal_vars};

use lv_aig::{And, Edge};
use lv_bits::NoMemory;
use lv_clauses::{Added, ClauseSet, Lit, clauses_are_sets};
use std::alloc::Global;

// Adds a clause whose variables rise.
fn add_clause(set: &mut ClauseSet, lits: &[Lit]) -> Result<(), NoMemory>
    requires rising { IsClause lits.now }
    requires below { AreBelow set.old.vars lits.now }
    ensures { OnOk result (set.new ≡ record set.old { clauses = set.old.clauses ++ lits.now ∷ [] }) }
{
    clauses_are_sets();
    match set.add(lits)? {
        Added::Clause => Ok(()),
        Added::Tautology => unreachable!(),
    }
}

fn lit(edge: Edge) -> Lit
    requires { 1 ≤ edge.node }
    ensures { result ≡ record { var = edge.node; neg = edge.neg } }
{
    Lit::new(edge.node, edge.neg)
}

fn negated(edge: Edge) -> Lit
    requires { 1 ≤ edge.node }
    ensures { result ≡ record { var = edge.node; neg = not edge.neg } }
{
    Lit::new(edge.node, !edge.neg)
}

/// The clauses by which node k is both edges.
fn add_gate(set: &mut ClauseSet, k: u64, a: Edge, b: Edge) -> Result<(), NoMemory>
    requires some { 0 < a.node }
    requires rise { a.node < b.node }
    requires below { b.node < k }
    requires within { k ≤ set.old.vars }
    ensures { OnOk result (set.new ≡ record set.old { clauses = set.old.clauses ++ three k (record { left = a; right = b }) }) }
{
    add_clause(set, &[lit(a), Lit::new(k, true)])?;
    add_clause(set, &[lit(b), Lit::new(k, true)])?;
    add_clause(set, &[negated(a), negated(b), Lit::new(k, false)])
}

/// The clauses by which the goal is 1.
fn add_goal(set: &mut ClauseSet, goal: Edge) -> Result<(), NoMemory>
    requires some { goal.node ≡ 0 → goal.neg ≡ false → 1 ≤ set.old.vars }
    requires within { goal.node ≤ set.old.vars }
    ensures { OnOk result (set.new ≡ record set.old { clauses = set.old.clauses ++ goal_clauses set.old.vars goal }) }
{
    if goal.node == 0 {
        if goal.neg {
            return Ok(());
        }
        let last = set.vars();
        add_clause(set, &[Lit::new(last, false)])?;
        return add_clause(set, &[Lit::new(last, true)]);
    }
    add_clause(set, &[lit(goal)])
}

/// The clauses of a graph whose goal is to be 1: three for each gate, and at most two for the goal.
pub fn encode(alloc: Global, graph: &And, inputs: u64, goal: Edge) -> Result<ClauseSet, NoMemory>
    requires inputs { HasInputs inputs graph.now }
    requires goal { goal.node < length graph.now }
    ensures encodes { IfOk result (λ s. Encodes graph.now inputs goal s) }
    ensures gates { IfOk result (λ s. CountsGates s (count_by is_some graph.now)) }
    ensures few { IfOk result (λ s. IsFew s) }
{
    let nodes = graph.nodes();
    let constant = goal.node == 0 && !goal.neg;
    let vars = if constant { nodes } else { nodes - 1 };
    let mut set = ClauseSet::new(alloc, vars);
    for k in 0..nodes {
        if let Some((a, b)) = graph.gate(k) {
            add_gate(&mut set, k, a, b)?;
        }
    }
    add_goal(&mut set, goal)?;
    set.kept();
    Ok(set)
}
