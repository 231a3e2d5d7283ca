//! Graphs that are checked as they are built.
ghost use Rattle.std.specs.Prelude.{◌≡◌, ℕ, ◌<◌, ◌≤◌, length, [], IsTrue, IsFalse};
ghost use Rattle.lv_bits.specs.Values.{is_unary, is_apart};
ghost use Rattle.lv_netlist.specs.Net.{IsRight, IsInner, width_at};

use lv_bits::{Op, Text, Word};
use lv_blast::{Encoded, clauses_of};
use lv_netlist::{Builder, Graph, Node};
use std::alloc::Global;
use std::test::Fail;

pub(crate) fn is_below(graph: &Graph, a: u64, b: u64) -> bool
    ensures { IsTrue result → (a < length graph.now.nodes) × (b < length graph.now.nodes) }
{
    a < graph.len() && b < graph.len()
}

pub(crate) fn is_same(graph: &Graph, a: u64, b: u64) -> bool
    ensures { IsTrue result → (a < length graph.now.nodes) × (b < length graph.now.nodes) × (width_at graph.now.nodes a ≡ width_at graph.now.nodes b) }
{
    if is_below(graph, a, b) {
        graph.width(a) == graph.width(b)
    } else {
        false
    }
}

pub(crate) fn is_right(graph: &Graph, node: &Node) -> bool
    ensures inner { IsTrue result → IsInner node.now }
    ensures right { IsTrue result → IsRight graph.now (length graph.now.nodes) node.now }
{
    match *node {
        Node::Input(_) | Node::Reg(_) => false,
        Node::Const(_) => true,
        Node::Un(op, a) => op.is_unary() && is_below(graph, a, a),
        Node::Bin(op, a, b, _) => {
            if op.is_unary() {
                false
            } else if op.is_apart() {
                is_below(graph, a, b)
            } else {
                is_same(graph, a, b)
            }
        }
        Node::Mux(c, a, b) => is_below(graph, c, c) && is_same(graph, a, b),
        Node::Slice(a, low, width) => {
            if is_below(graph, a, a) {
                let from = graph.width(a);
                1 <= width && width <= from && low <= from - width
            } else {
                false
            }
        }
        Node::Cat(a, b) => {
            if is_below(graph, a, b) {
                graph.width(a) + graph.width(b) <= 128
            } else {
                false
            }
        }
        Node::Ext(a, width, _) => {
            if is_below(graph, a, a) {
                graph.width(a) <= width && width <= 128
            } else {
                false
            }
        }
    }
}

pub(crate) fn empty(alloc: Global) -> Graph {
    Builder::new(alloc).finish()
}

pub(crate) fn add(graph: Graph, node: Node) -> Result<Graph, Fail> {
    if !is_right(&graph, &node) {
        return Err(Fail::from("no such node"));
    }
    let mut builder = graph.reopen();
    builder.node(node)?;
    Ok(builder.finish())
}

pub(crate) fn add_input(
    alloc: Global,
    graph: Graph,
    name: &[u8],
    width: u32,
) -> Result<Graph, Fail> {
    let mut builder = graph.reopen();
    let name = Text::new(alloc, name)?;
    if builder.has(&name) || width == 0 || width > 128 {
        return Err(Fail::from("no such input"));
    }
    builder.input(name, width)?;
    Ok(builder.finish())
}

/// A graph with inputs a, b, .. of these widths.
pub(crate) fn inputs(alloc: Global, widths: &[u32]) -> Result<Graph, Fail> {
    let mut graph = empty(alloc);
    for (name, width) in (b'a'..=b'z').zip(widths) {
        graph = add_input(alloc, graph, &[name], *width)?;
    }
    Ok(graph)
}

/// The graph with these nodes behind its own.
pub(crate) fn with_nodes(graph: Graph, nodes: &[Node]) -> Result<Graph, Fail> {
    let mut graph = graph;
    for node in nodes {
        graph = add(graph, *node)?;
    }
    Ok(graph)
}

pub(crate) fn is_goal(graph: &Graph, goal: u64) -> bool
    ensures empty { IsTrue result → graph.now.registers ≡ [] }
    ensures within { IsTrue result → goal < length graph.now.nodes }
    ensures one { IsTrue result → width_at graph.now.nodes goal ≡ 1 }
{
    if graph.registers() == 0 && goal < graph.len() {
        graph.width(goal) == 1
    } else {
        false
    }
}

/// The clauses of the last node.
pub(crate) fn encoded(alloc: Global, graph: &Graph) -> Result<Encoded, Fail> {
    let goal = graph.len().saturating_sub(1);
    if !is_goal(graph, goal) {
        return Err(Fail::from("no goal"));
    }
    Ok(clauses_of(alloc, graph, goal)?)
}
