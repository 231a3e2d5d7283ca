ghost use Rattle.std.specs.Prelude.{◌≡◌, ℕ, ◌+◌, ◌<◌, length, IfOk};
ghost use Rattle.lv_model.specs.Meeting.{cycles_of};
ghost use Rattle.lv_netlist.specs.Queries.{IsGoalOf};
ghost use Rattle.lv_product.specs.Queries.{FitsKept, asked, observers_of};

use crate::goals::goal;
use crate::inputs::{cycle_nodes, open, product_widths, range};
use crate::product::Product;
use crate::sharing::first_nodes;
use crate::task::{Kept, Query, Task};
use crate::trim::trim;
use lv_bits::NoMemory;
use lv_netlist::Graph;
use lv_unroll::{both, unroll};
use std::alloc::Global;

fn cycles_of(query: Query, lookahead: u32) -> u64
    requires { lookahead < 100 }
    ensures { result ≡ cycles_of (asked query) lookahead }
{
    match query {
        Query::Initial | Query::Allowed | Query::Base => 1,
        Query::Step => u64::from(lookahead) + 2,
        Query::Imply => u64::from(lookahead) + 1,
    }
}

// The last place.
fn last_of(widths: &[u32]) -> u64
    requires { 0 < length widths.now }
    ensures { result + 1 ≡ length widths.now }
{
    widths.len() as u64 - 1
}

// A graph with all nodes of both copies, and the goal of the query.
fn whole(
    alloc: Global,
    task: &Task,
    kept: &Kept,
    query: Query,
    cycles: u64,
) -> Result<(Graph, u64), NoMemory>
    requires kept { FitsKept task.now kept.now.numbers.items }
    requires cycles { cycles ≡ cycles_of (asked query) task.now.lookahead }
    ensures { IfOk result (λ p. IsGoalOf task.now.graph (observers_of task.now) task.now.lookahead kept.now.numbers.items (asked query) p.0 p.1) }
{
    let graph = &task.graph;
    let widths = product_widths(alloc, graph, cycles)?;
    let w = widths.as_slice();
    let registers = graph.registers();
    let ports = graph.inputs();
    let start = registers + registers;
    let mut b = open(alloc, w)?;
    let left = range(alloc, 0, registers)?;
    let right = range(alloc, registers, registers)?;
    let inputs = cycle_nodes(alloc, start, ports, cycles)?;
    let l = left.as_slice();
    let r = right.as_slice();
    let i = inputs.as_slice();
    let aligned = last_of(w);
    let shared = first_nodes(alloc, &mut b, task, kept, query, l, r)?;
    let f = shared.0.as_slice();
    let ls = unroll(alloc, &mut b, graph, l, i)?;
    let rs = unroll(alloc, &mut b, graph, f, i)?;
    let x = ls.as_slice();
    let y = rs.as_slice();
    let at = goal(alloc, &mut b, task, kept, query, x, y, aligned)?;
    let both = both(&mut b, shared.1, at)?;
    graph.runs();
    let whole = b.finish();
    Ok((whole, both))
}

/// The product of a task for a query: both copies over the same inputs, and the query's goal for this list.
///
/// The graph has no registers. Its inputs are the left registers, the right registers, the inputs of each cycle and the truth
/// value of the first moment, each of its width; the goal has one bit and is 1 exactly where they meet the query.
pub fn window(alloc: Global, task: &Task, kept: &Kept, query: Query) -> Result<Product, NoMemory>
    requires { FitsKept task.now kept.now.numbers.items }
    ensures is { IfOk result (λ p. IsGoalOf task.now.graph (observers_of task.now) task.now.lookahead kept.now.numbers.items (asked query) p.net p.goal) }
    ensures registers { IfOk result (λ p. p.registers ≡ length task.now.graph.registers) }
    ensures inputs { IfOk result (λ p. p.inputs ≡ length task.now.graph.inputs) }
    ensures cycles { IfOk result (λ p. p.cycles ≡ cycles_of (asked query) task.now.lookahead) }
{
    let cycles = cycles_of(query, task.lookahead);
    let (whole, at) = whole(alloc, task, kept, query, cycles)?;
    let (graph, goal) = trim(alloc, whole, at)?;
    let registers = task.graph.registers();
    let inputs = task.graph.inputs();
    Ok(Product::new(graph, goal, registers, inputs, cycles))
}
