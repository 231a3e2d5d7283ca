ghost use Rattle.std.specs.Prelude.{◌≡◌, ℕ, ◌<◌, ◌≤◌, length, IsTrue, IsFalse};
ghost use Rattle.lv_bits.specs.Values.{is_unary, is_apart};
ghost use Rattle.lv_netlist.specs.Net.{IsRight, IsInner, width_at};

use lv_bits::{Text, Word};
use lv_netlist::{Builder, Graph, Node};
use std::alloc::Global;
use std::test::Fail;

fn is_below(graph: &Graph, a: u64, b: u64) -> bool
    ensures { IsTrue result → (a < length graph.now.nodes) × (b < length graph.now.nodes) }
{
    a < graph.len() && b < graph.len()
}

fn is_same(graph: &Graph, a: u64, b: u64) -> bool
    ensures { IsTrue result → (a < length graph.now.nodes) × (b < length graph.now.nodes) × (width_at graph.now.nodes a ≡ width_at graph.now.nodes b) }
{
    if is_below(graph, a, b) {
        graph.width(a) == graph.width(b)
    } else {
        false
    }
}

fn is_right(graph: &Graph, node: &Node) -> bool
    ensures inner { IsTrue result → IsInner node.now }
    ensures right { IsTrue result → IsRight graph.now (length graph.now.nodes) node.now }
{
    match *node {
        Node::Input(_) | Node::Reg(_) => false,
        Node::Const(_) => true,
        Node::Un(op, a) => op.is_unary() && is_below(graph, a, a),
        Node::Bin(op, a, b, _) => {
            if op.is_unary() {
                false
            } else if op.is_apart() {
                is_below(graph, a, b)
            } else {
                is_same(graph, a, b)
            }
        }
        Node::Mux(c, a, b) => is_below(graph, c, c) && is_same(graph, a, b),
        Node::Slice(a, low, width) => {
            if is_below(graph, a, a) {
                let from = graph.width(a);
                1 <= width && width <= from && low <= from - width
            } else {
                false
            }
        }
        Node::Cat(a, b) => {
            if is_below(graph, a, b) {
                graph.width(a) + graph.width(b) <= 128
            } else {
                false
            }
        }
        Node::Ext(a, width, _) => {
            if is_below(graph, a, a) {
                graph.width(a) <= width && width <= 128
            } else {
                false
            }
        }
    }
}

fn empty(alloc: Global) -> Graph {
    Builder::new(alloc).finish()
}

fn add(graph: Graph, node: Node) -> Result<Graph, Fail> {
    if !is_right(&graph, &node) {
        return Err(Fail::from("no such node"));
    }
    let mut builder = graph.reopen();
    builder.node(node)?;
    Ok(builder.finish())
}

/// A register that keeps its value.
fn add_register(alloc: Global, graph: Graph, name: &[u8], width: u32) -> Result<Graph, Fail> {
    let mut builder = graph.reopen();
    let name = Text::new(alloc, name)?;
    if builder.has(&name) || width == 0 || width > 128 {
        return Err(Fail::from("no such register"));
    }
    let at = builder.register(name, width)?;
    builder.next(at, at);
    Ok(builder.finish())
}

fn add_input(alloc: Global, graph: Graph, name: &[u8], width: u32) -> Result<Graph, Fail> {
    let mut builder = graph.reopen();
    let name = Text::new(alloc, name)?;
    if builder.has(&name) || width == 0 || width > 128 {
        return Err(Fail::from("no such input"));
    }
    builder.input(name, width)?;
    Ok(builder.finish())
}

fn set_next(graph: Graph, register: u64, node: u64) -> Result<Graph, Fail> {
    if !is_same(&graph, register, node) {
        return Err(Fail::from("other widths"));
    }
    match graph.node(register) {
        Node::Reg(_) => {
            let mut builder = graph.reopen();
            builder.next(register, node);
            Ok(builder.finish())
        }
        _ => Err(Fail::from("no register")),
    }
}

/// A step of building a graph. Each but the last kind makes the next node.
#[derive(Clone, Copy)]
pub(crate) enum Step {
    Register(u32),
    Input(u32),
    Const(u32, u128),
    Inner(Node),
    Next(u64, u64),
}

/// The low bits of a number.
fn word(width: u32, value: u128) -> Option<Word> {
    if width == 0 || width > 128 {
        return None;
    }
    Some(Word::new(128, value).slice(0, width))
}

fn grown(alloc: Global, graph: Graph, k: usize, step: Step) -> Result<Graph, Fail> {
    let name = [97 + (k % 26) as u8];
    match step {
        Step::Register(width) => add_register(alloc, graph, &name, width),
        Step::Input(width) => add_input(alloc, graph, &name, width),
        Step::Const(width, value) => {
            let Some(word) = word(width, value) else {
                return Err(Fail::from("no such word"));
            };
            add(graph, Node::Const(word))
        }
        Step::Inner(node) => add(graph, node),
        Step::Next(register, node) => set_next(graph, register, node),
    }
}

/// The graph of these steps. Names are letters.
pub(crate) fn built(alloc: Global, steps: &[Step]) -> Result<Graph, Fail> {
    let mut graph = empty(alloc);
    for (k, step) in steps.iter().enumerate() {
        graph = grown(alloc, graph, k, *step)?;
    }
    Ok(graph)
}
