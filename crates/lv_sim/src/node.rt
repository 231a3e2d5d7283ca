ghost use Rattle.std.specs.Prelude.{◌≡◌, if◌then◌else◌, ◌==◌, ℕ, ◌<◌, length, ◌≤◌};
ghost use Rattle.lv_bits.specs.Values.{extended};
ghost use Rattle.lv_netlist.specs.Net.{node_at, width_at};
ghost use Rattle.lv_netlist.specs.Run.{node_bits, bits_at};
ghost use Rattle.lv_netlist.specs.Fits.{FitsInputs, FitsState, FitsNodes};

use lv_bits::{Word, binary, unary};
use lv_netlist::{Graph, Node};

pub(crate) fn word_at(words: &[Word], k: u64) -> Word
    requires { k < length words.now }
    ensures { result ≡ bits_at words.now k }
{
    words[k as usize]
}

fn chosen(c: Word, a: Word, b: Word) -> Word
    ensures { result ≡ (if c.value == 0 then b else a) }
{
    if c.value() == 0 { b } else { a }
}

fn extended(a: Word, width: u32, signed: bool) -> Word
    requires wide { a.width ≤ width }
    requires most { width ≤ 128 }
    ensures { result ≡ record { width = width; value = extended signed a.width width a.value } }
{
    if signed { a.sext(width) } else { a.zext(width) }
}

/// The value of node k, by the values of the nodes before it.
pub(crate) fn node_word(
    graph: &Graph,
    k: u64,
    state: &[Word],
    inputs: &[Word],
    before: &[Word],
) -> Word
    requires within { k < length graph.now.nodes }
    requires state { FitsState graph.now state.now }
    requires inputs { FitsInputs graph.now inputs.now }
    requires before { FitsNodes graph.now k before.now }
    ensures is { result ≡ node_bits state.now inputs.now before.now (node_at graph.now.nodes k).node }
    ensures width { result.width ≡ width_at graph.now.nodes k }
{
    match graph.node(k) {
        Node::Input(i) => word_at(inputs, i),
        Node::Reg(i) => word_at(state, i),
        Node::Const(word) => word,
        Node::Un(op, a) => unary(op, word_at(before, a)),
        Node::Bin(op, a, b, signed) => binary(op, word_at(before, a), word_at(before, b), signed),
        Node::Mux(c, a, b) => { chosen(word_at(before, c), word_at(before, a), word_at(before, b)) }
        Node::Slice(a, low, width) => word_at(before, a).slice(low, width),
        Node::Cat(a, b) => word_at(before, a).concat(word_at(before, b)),
        Node::Ext(a, width, signed) => extended(word_at(before, a), width, signed),
    }
}
