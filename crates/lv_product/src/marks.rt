ghost use Rattle.std.specs.Prelude.{◌≡◌, ℕ, ◌<◌, true, length, IfOk};
ghost use Rattle.lv_netlist.specs.Net.{IsRight};
ghost use Rattle.lv_product.specs.Tasks.{IsStateNode, IsInputNode};
ghost use Rattle.lv_product.specs.Marks.{marked_at, is_pure, AreMarks};

use lv_bits::NoMemory;
use lv_netlist::{Graph, Node};
use std::alloc::Global;

fn is_marked(marks: &[bool], k: u64) -> bool
    requires { k < length marks.now }
    ensures { result ≡ marked_at marks.now k }
{
    marks[k as usize]
}

// Whether the node reads registers alone, or inputs alone, as far as its operands are marked.
fn is_pure(graph: &Graph, node: &Node, state: bool, marks: &[bool]) -> bool
    requires { IsRight graph.now (length marks.now) node.now }
    ensures { result ≡ is_pure state marks.now node.now }
{
    match *node {
        Node::Input(_) => !state,
        Node::Reg(_) => state,
        Node::Const(_) => true,
        Node::Un(_, a) | Node::Slice(a, _, _) | Node::Ext(a, _, _) => is_marked(marks, a),
        Node::Bin(_, a, b, _) | Node::Cat(a, b) => is_marked(marks, a) && is_marked(marks, b),
        Node::Mux(c, a, b) => is_marked(marks, c) && is_marked(marks, a) && is_marked(marks, b),
    }
}

fn pure_nodes(alloc: Global, graph: &Graph, state: bool) -> Result<Vec<bool>, NoMemory>
    ensures { IfOk result (λ marks. AreMarks state graph.now (length graph.now.nodes) marks.items) }
{
    let mut marks = Vec::new(alloc);
    for k in 0..graph.len() {
        let node = graph.node(k);
        let pure = is_pure(graph, &node, state, marks.as_slice());
        marks.reserve(1)?;
        marks.push_reserved(pure);
    }
    Ok(marks)
}

/// Which nodes read the registers alone. One pass over the graph.
///
/// A node that is marked has one number under all inputs; one that isn't marked may have, too.
pub fn state_nodes(alloc: Global, graph: &Graph) -> Result<Vec<bool>, NoMemory>
    ensures count { IfOk result (λ marks. length marks.items ≡ length graph.now.nodes) }
    ensures are { IfOk result (λ marks. (k : ℕ) → k < length graph.now.nodes → marked_at marks.items k ≡ true → IsStateNode graph.now k) }
{
    let marks = pure_nodes(alloc, graph, true)?;
    Ok(marks)
}

/// Which nodes read the inputs alone. One pass over the graph.
///
/// A node that is marked has one number in all states; one that isn't marked may have, too.
pub fn input_nodes(alloc: Global, graph: &Graph) -> Result<Vec<bool>, NoMemory>
    ensures count { IfOk result (λ marks. length marks.items ≡ length graph.now.nodes) }
    ensures are { IfOk result (λ marks. (k : ℕ) → k < length graph.now.nodes → marked_at marks.items k ≡ true → IsInputNode graph.now k) }
{
    let marks = pure_nodes(alloc, graph, false)?;
    Ok(marks)
}
