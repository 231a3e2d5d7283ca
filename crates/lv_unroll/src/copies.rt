ghost use Rattle.std.specs.Prelude.{◌≡◌, ℕ, ◌<◌, length, slice_index, IfOk};
ghost use Rattle.lv_netlist.specs.Net.{IsInner, IsRight, width_at};
ghost use Rattle.lv_unroll.specs.Wires.{AreLike, GivesWord};
ghost use Rattle.lv_unroll.specs.Copies.{moved_node, copied_word, AreStates, AreInputs, Copies};

use crate::wires::add;
use lv_bits::NoMemory;
use lv_netlist::{Builder, Graph, Node};
use std::alloc::Global;

/// Nodes of a builder, one for each register, input or node of a graph.
pub struct Nodes {
    pub list: Vec<u64>,
}

impl Drop for Nodes {
    fn drop(self) {
        let Nodes { list } = self;
        drop(list);
    }
}

/// The node at this place of the list.
pub fn at(nodes: &[u64], k: u64) -> u64
    requires { k < length nodes.now }
    ensures { result ≡ slice_index nodes.now k }
{
    nodes[k as usize]
}

/// The node of the graph with its operands by the table, which has a node for each of them.
pub fn moved(graph: &Graph, node: Node, table: &[u64]) -> Node
    requires { IsRight graph.now (length table.now) node }
    ensures { result ≡ moved_node table.now node }
{
    match node {
        Node::Un(op, a) => Node::Un(op, at(table, a)),
        Node::Bin(op, a, b, signed) => Node::Bin(op, at(table, a), at(table, b), signed),
        Node::Mux(c, a, b) => Node::Mux(at(table, c), at(table, a), at(table, b)),
        Node::Slice(a, low, width) => Node::Slice(at(table, a), low, width),
        Node::Cat(a, b) => Node::Cat(at(table, a), at(table, b)),
        Node::Ext(a, width, signed) => Node::Ext(at(table, a), width, signed),
        Node::Const(word) => Node::Const(word),
        Node::Input(i) => Node::Input(i),
        Node::Reg(i) => Node::Reg(i),
    }
}

// A copy of node k of the graph.
fn copied(
    b: &mut Builder,
    graph: &Graph,
    k: u64,
    state: &[u64],
    inputs: &[u64],
    table: &[u64],
) -> Result<u64, NoMemory>
    requires within { k < length graph.now.nodes }
    requires state { AreStates b.old graph.now state.now }
    requires inputs { AreInputs b.old graph.now inputs.now }
    requires table { AreLike b.old k (width_at graph.now.nodes) table.now }
    ensures { IfOk result (λ at.
        GivesWord b.old b.new at (width_at graph.now.nodes k) (copied_word b.old graph.now state.now inputs.now table.now k)) }
{
    match graph.node(k) {
        Node::Input(i) => Ok(at(inputs, i)),
        Node::Reg(i) => Ok(at(state, i)),
        node => {
            let copy = moved(graph, node, table);
            let at = add(b, copy)?;
            Ok(at)
        }
    }
}

/// A copy of the graph, over these nodes for its registers and its inputs: for each of its nodes the copy.
///
/// `state` has a node for each register and `inputs` one for each input, of its width.
pub fn copy(
    alloc: Global,
    b: &mut Builder,
    graph: &Graph,
    state: &[u64],
    inputs: &[u64],
) -> Result<Vec<u64>, NoMemory>
    requires state { AreStates b.old graph.now state.now }
    requires inputs { AreInputs b.old graph.now inputs.now }
    ensures { IfOk result (λ table. Copies graph.now b.old b.new state.now inputs.now (length graph.now.nodes) table.items) }
{
    let mut table = Vec::new(alloc);
    for k in 0..graph.len() {
        let at = copied(b, graph, k, state, inputs, table.as_slice())?;
        table.reserve(1)?;
        table.push_reserved(at);
    }
    Ok(table)
}
