ghost use Rattle.std.specs.Prelude.{◌≡◌, ◌≢◌, ℕ, ◌<◌, [], length, IfOk};
ghost use Rattle.lv_netlist.specs.Net.{IsRight, IsNode, node_at};
ghost use Rattle.lv_product.specs.Trimming.{is_there, is_ready, no_copy, IsCopyOf, GivesCopy, IsTrimmed, AreCopies, AreOpen};

use crate::inputs::{open, port_widths};
use lv_bits::NoMemory;
use lv_netlist::{Builder, Graph, Node};
use lv_unroll::{add, at, moved};
use std::alloc::Global;

// No node has this number.
const NO_COPY: u64 = u64::MAX;

// The nodes that the goal rests on. Nothing rests on this list: what it lacks is not copied.
fn needed(alloc: Global, graph: &Graph, goal: u64) -> Result<Vec<bool>, NoMemory>
    requires { goal < length graph.now.nodes }
    ensures { IfOk result (λ marks. length marks.items ≡ length graph.now.nodes) }
{
    let mut marks = vec![in alloc; false; graph.len() as usize]?;
    marks[goal as usize] = true;
    for k in (0..graph.len()).rev() {
        if marks[k as usize] {
            mark(graph, k, marks.as_mut_slice());
        }
    }
    Ok(marks)
}

// Marks the operands of node k.
fn mark(graph: &Graph, k: u64, marks: &mut [bool])
    requires within { k < length graph.now.nodes }
    requires room { length marks.old ≡ length graph.now.nodes }
{
    match graph.node(k) {
        Node::Input(_) | Node::Reg(_) | Node::Const(_) => {}
        Node::Un(_, a) | Node::Slice(a, _, _) | Node::Ext(a, _, _) => marks[a as usize] = true,
        Node::Bin(_, a, b, _) | Node::Cat(a, b) => {
            marks[a as usize] = true;
            marks[b as usize] = true;
        }
        Node::Mux(c, a, b) => {
            marks[c as usize] = true;
            marks[a as usize] = true;
            marks[b as usize] = true;
        }
    }
}

fn is_there(table: &[u64], k: u64) -> bool
    requires { k < length table.now }
    ensures { result ≡ is_there table.now k }
{
    at(table, k) != NO_COPY
}

// Whether the table has copies of the node's operands; an input or a register has none.
fn is_ready(graph: &Graph, node: &Node, table: &[u64]) -> bool
    requires { IsRight graph.now (length table.now) node.now }
    ensures { result ≡ is_ready table.now node.now }
{
    match *node {
        Node::Input(_) | Node::Reg(_) => false,
        Node::Const(_) => true,
        Node::Un(_, a) | Node::Slice(a, _, _) | Node::Ext(a, _, _) => is_there(table, a),
        Node::Bin(_, a, b, _) | Node::Cat(a, b) => is_there(table, a) && is_there(table, b),
        Node::Mux(c, a, b) => is_there(table, c) && is_there(table, a) && is_there(table, b),
    }
}

// A copy of node k where it is marked.
fn copied(
    b: &mut Builder,
    whole: &Graph,
    k: u64,
    marked: bool,
    table: &[u64],
) -> Result<u64, NoMemory>
    requires within { k < length whole.now.nodes }
    requires inputs { AreOpen whole.now b.old }
    requires table { AreCopies whole.now b.old k table.now }
    ensures { IfOk result (GivesCopy whole.now b.old b.new k) }
{
    let node = whole.node(k);
    match node {
        Node::Input(i) => Ok(i),
        _ => copied_inner(b, whole, k, node, marked, table),
    }
}

// A copy of node k, which is this one and no input, where it is marked and the table has its operands.
fn copied_inner(
    b: &mut Builder,
    whole: &Graph,
    k: u64,
    node: Node,
    marked: bool,
    table: &[u64],
) -> Result<u64, NoMemory>
    requires within { k < length whole.now.nodes }
    requires node { node ≡ (node_at whole.now.nodes k).node }
    requires typed { IsNode whole.now k (node_at whole.now.nodes k) }
    requires table { AreCopies whole.now b.old k table.now }
    ensures { IfOk result (GivesCopy whole.now b.old b.new k) }
{
    if !marked {
        return Ok(NO_COPY);
    }
    if !is_ready(whole, &node, table) {
        return Ok(NO_COPY);
    }
    let copy = moved(whole, node, table);
    let at = add(b, copy)?;
    Ok(at)
}

// The copies of the marked nodes, and that of the goal.
fn copies(alloc: Global, whole: &Graph, goal: u64) -> Result<(Builder, u64), NoMemory>
    requires { goal < length whole.now.nodes }
    ensures { IfOk result (λ p. p.1 ≢ no_copy → IsTrimmed whole.now p.0 goal p.1) }
{
    let _ = whole.len();
    let marks = needed(alloc, whole, goal)?;
    let widths = port_widths(alloc, whole)?;
    let mut b = open(alloc, widths.as_slice())?;
    let mut table = Vec::new(alloc);
    for k in 0..whole.len() {
        let marked = marks[k as usize];
        let at = copied(&mut b, whole, k, marked, table.as_slice())?;
        table.reserve(1)?;
        table.push_reserved(at);
    }
    let last = at(table.as_slice(), goal);
    Ok((b, last))
}

/// A graph with the same inputs and those nodes that the goal rests on, and its goal. The graph has no registers.
pub fn trim(alloc: Global, whole: Graph, goal: u64) -> Result<(Graph, u64), NoMemory>
    requires closed { whole.registers ≡ [] }
    requires within { goal < length whole.nodes }
    ensures { IfOk result (λ p. IsTrimmed whole p.0 goal p.1) }
{
    let (b, at) = copies(alloc, &whole, goal)?;
    if at == NO_COPY {
        return Ok((whole, goal));
    }
    let graph = b.finish();
    Ok((graph, at))
}
