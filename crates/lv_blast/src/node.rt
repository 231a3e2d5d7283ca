ghost use Rattle.std.specs.Prelude.{◌≡◌, ℕ, ◌<◌, [], length, map, IfOk};
ghost use Rattle.lv_netlist.specs.Net.{IsRight, node_at};
ghost use Rattle.lv_netlist.specs.Run.{node_bits};
ghost use Rattle.lv_circuits.specs.Words.{AllBelow, GivesWord, GivesBits, word_of, edge_bits};
ghost use Rattle.lv_blast.specs.Encoding.{FitsPorts, HasWords, word_at};

use lv_aig::{And, Edge};
use lv_bits::NoMemory;
use lv_circuits::{binary, concat, constant, extend, mux_word, slice, unary};
use lv_netlist::{Graph, Node};
use sqlite_items::Items;
use std::alloc::Global;

pub(crate) fn word(words: &[Items<Edge>], k: u64) -> &[Edge]
    requires { k < length words.now }
    ensures { result.now ≡ word_at words.now k }
{
    let word = &words[k as usize];
    word.as_slice()
}

fn copy(alloc: Global, a: &[Edge]) -> Result<Items<Edge>, NoMemory>
    ensures { IfOk result (λ es. es ≡ a.now) }
{
    let es = Items::from_slice(alloc, a)?;
    Ok(es)
}

/// The circuit of node k, over the words of the inputs and of the nodes before it.
pub(crate) fn node_word(
    alloc: Global,
    and: &mut And,
    graph: &Graph,
    k: u64,
    inputs: &[Items<Edge>],
    before: &[Items<Edge>],
) -> Result<Items<Edge>, NoMemory>
    requires within { k < length graph.now.nodes }
    requires combinational { graph.now.registers ≡ [] }
    requires inputs { FitsPorts graph.now.inputs inputs.now }
    requires inputs_below { (i : ℕ) → i < length inputs.now → AllBelow (length and.old) (word_at inputs.now i) }
    requires before { HasWords graph.now k (length and.old) before.now }
    ensures { IfOk result (λ es. GivesWord and.old and.new es (λ values. node_bits [] (map (word_of values) inputs.now) (map (word_of values) before.now) (node_at graph.now.nodes k).node)) }
{
    match graph.node(k) {
        Node::Input(i) => copy(alloc, word(inputs, i)),
        Node::Un(op, a) => unary(alloc, and, op, word(before, a)),
        Node::Bin(op, a, b, signed) => {
            let _width = graph.width(a);
            binary(alloc, and, op, signed, word(before, a), word(before, b))
        }
        Node::Slice(a, low, width) => slice(
            alloc,
            and,
            word(before, a),
            low as usize,
            width as usize,
        ),
        Node::Cat(a, b) => concat(alloc, and, word(before, a), word(before, b)),
        Node::Mux(c, a, b) => mux_word(
            alloc,
            and,
            word(before, c),
            word(before, a),
            word(before, b),
        ),
        Node::Const(word) => constant(alloc, and, word),
        Node::Ext(a, width, signed) => {
            let _width = graph.width(a);
            extend(alloc, and, word(before, a), width as usize, signed)
        }
        Node::Reg(_) => unreachable!(),
    }
}
