ghost use Rattle.std.specs.Prelude.{◌≡◌, ◌<◌, ◌≤◌, take, length, IfOk};
ghost use Rattle.lv_model.specs.Meeting.{cycles_of};
ghost use Rattle.lv_netlist.specs.Fits.{FitsInputs};
ghost use Rattle.lv_product.specs.Pairs.{IsPairOf};
ghost use Rattle.lv_product.specs.Queries.{asked, observers_of};
ghost use Rattle.lv_switched.specs.Switches.{HasSwitches, IsSwitchedGoalOf};

use crate::opening::{Opened, open_all};
use crate::queries::goal;
use lv_bits::{NoMemory, Word};
use lv_netlist::Graph;
use lv_product::trim::trim;
use lv_product::{Pair, Query, Task, pair_of};
use lv_unroll::unroll;
use std::alloc::Global;
use std::marker::Model;

/// A graph whose goal is 1 exactly where its inputs meet a query for the candidates whose switches aren't 0. Contracts see the
/// graph, the goal, and how many registers, inputs, cycles and switches the query has.
pub struct SwitchedProduct {
    graph: Graph,
    goal: u64,
    registers: u64,
    inputs: u64,
    cycles: u64,
    switches: u64,
}

impl Model for SwitchedProduct {
    ghost use Rattle.std.specs.Prelude.{◌≡◌, ◌+◌, ◌*◌, length};
    ghost use Rattle.lv_switched.specs.Switches.{SwitchedValue};

    ghost Value = { SwitchedValue };

    ghost view = { λ p. record { net = p.graph; goal = p.goal; registers = p.registers; inputs = p.inputs; cycles = p.cycles; switches = p.switches } };

    ghost invariant = { λ p. length p.graph.inputs ≡ p.registers + p.registers + p.cycles * p.inputs + 1 + p.switches };
}

impl Drop for SwitchedProduct {
    fn drop(self) {
        let SwitchedProduct {
            graph,
            goal: _,
            registers: _,
            inputs: _,
            cycles: _,
            switches: _,
        } = self;
        drop(graph);
    }
}

impl SwitchedProduct {
    /// The graph. It takes no memory.
    pub fn graph(&self) -> &Graph
        ensures { result.now ≡ self.now.net }
    {
        &self.graph
    }

    /// The node of the graph that is the goal. It takes no memory.
    pub fn goal(&self) -> u64
        ensures { result ≡ self.now.goal }
    {
        self.goal
    }

    /// The states, the inputs and the truth value that the words of the graph's inputs are; the switches are left out.
    ///
    /// There is one word for each input of the graph, of its width.
    pub fn pair(&self, alloc: Global, words: &[Word]) -> Result<Pair, NoMemory>
        requires { FitsInputs self.now.net words.now }
        ensures { IfOk result (IsPairOf self.now.registers self.now.inputs self.now.cycles words.now) }
    {
        let part = first(words, words.len() as u64 - self.switches);
        let pair = pair_of(alloc, self.registers, self.inputs, self.cycles, part)?;
        Ok(pair)
    }
}

fn first(words: &[Word], count: u64) -> &[Word]
    requires { count ≤ length words.now }
    ensures { result.now ≡ take count words.now }
{
    &words[..count as usize]
}

fn cycles_of(query: Query, lookahead: u32) -> u64
    requires query { HasSwitches query }
    requires near { lookahead < 100 }
    ensures { result ≡ cycles_of (asked query) lookahead }
{
    match query {
        Query::Step => u64::from(lookahead) + 2,
        Query::Initial | Query::Allowed | Query::Base | Query::Imply => 1,
    }
}

// A graph with all nodes of both copies, and the goal of the query.
fn whole(alloc: Global, task: &Task, query: Query, cycles: u64) -> Result<(Graph, u64), NoMemory>
    requires query { HasSwitches query }
    requires cycles { cycles ≡ cycles_of (asked query) task.now.lookahead }
    ensures { IfOk result (λ p.
        IsSwitchedGoalOf task.now.graph (observers_of task.now) task.now.lookahead (length task.now.candidates.items) (asked query) p.0 p.1) }
{
    let graph = &task.graph;
    let cs = task.candidates.as_slice();
    let count = cs.len() as u64;
    let Opened {
        builder,
        left,
        right,
        inputs,
        aligned,
    } = open_all(alloc, graph, cycles, count)?;
    let mut b = builder;
    let l = left.as_slice();
    let r = right.as_slice();
    let i = inputs.as_slice();
    let ls = unroll(alloc, &mut b, graph, l, i)?;
    let rs = unroll(alloc, &mut b, graph, r, i)?;
    let x = ls.as_slice();
    let y = rs.as_slice();
    let at = goal(alloc, &mut b, task, aligned + 1, query, x, y, aligned)?;
    graph.runs();
    let whole = b.finish();
    Ok((whole, at))
}

/// The product of a task for a query, with a switch for each candidate: both copies over the same inputs, and the query's goal for
/// the candidates whose switches aren't 0.
///
/// The graph has no registers. Its inputs are those of `window`, then one of 1 bit for each candidate; the goal has one bit and is 1
/// exactly where they meet the query for these candidates.
pub fn switched(alloc: Global, task: &Task, query: Query) -> Result<SwitchedProduct, NoMemory>
    requires { HasSwitches query }
    ensures is { IfOk result (λ p.
        IsSwitchedGoalOf task.now.graph (observers_of task.now) task.now.lookahead (length task.now.candidates.items) (asked query) p.net p.goal) }
    ensures registers { IfOk result (λ p. p.registers ≡ length task.now.graph.registers) }
    ensures inputs { IfOk result (λ p. p.inputs ≡ length task.now.graph.inputs) }
    ensures cycles { IfOk result (λ p. p.cycles ≡ cycles_of (asked query) task.now.lookahead) }
    ensures switches { IfOk result (λ p. p.switches ≡ length task.now.candidates.items) }
{
    let cycles = cycles_of(query, task.lookahead);
    let (whole, at) = whole(alloc, task, query, cycles)?;
    let (graph, goal) = trim(alloc, whole, at)?;
    let registers = task.graph.registers();
    let inputs = task.graph.inputs();
    let cs = task.candidates.as_slice();
    let switches = cs.len() as u64;
    Ok(SwitchedProduct {
        graph,
        goal,
        registers,
        inputs,
        cycles,
        switches,
    })
}
