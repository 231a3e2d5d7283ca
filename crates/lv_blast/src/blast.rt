ghost use Rattle.std.specs.Prelude.{◌≡◌, ℕ, ◌<◌, Bool, List, map, length, IfOk, [], ◌∷◌};
ghost use Rattle.lv_netlist.specs.Run.{values_of};
ghost use Rattle.lv_aig.specs.Edges.{Grows, IsValuation};
ghost use Rattle.lv_circuits.specs.Words.{AllBelow, edge_at, word_of};
ghost use Rattle.lv_netlist.specs.Net.{node_at, width_at, IsNet};
ghost use Rattle.lv_clauses.specs.Sizes.{IsFew};
ghost use Rattle.lv_gates.specs.Encodes.{CountsGates};
ghost use Rattle.lv_blast.specs.Encoding.{input_widths, input_words, IsEncoding, FitsPorts, HasWords, word_at};
ghost use Rattle.lv_netlist.specs.Net.{Net};
ghost use Rattle.lv_netlist.specs.Fits.{FitsInputs, AreWords};
ghost use Rattle.lv_bits.specs.Words.{Bits};

use crate::encoded::Encoded;
use crate::inputs::open_words;
use crate::node::{node_word, word};
use lv_aig::{And, Edge};
use lv_bits::NoMemory;
use lv_clauses::decided_sets_are_at_rest;
use lv_gates::encode;
use lv_netlist::Graph;
use sqlite_items::Items;
use std::alloc::Global;

// The widths of the inputs.
fn widths_of(alloc: Global, graph: &Graph) -> Result<Vec<u32>, NoMemory>
    ensures widths { IfOk result (λ ws. ws.items ≡ input_widths graph.now) }
    ensures net { IsNet graph.now }
{
    let _ = graph.len();
    let mut widths = Vec::new(alloc);
    for i in 0..graph.inputs() {
        let width = graph.input_width(i);
        widths.reserve(1)?;
        widths.push_reserved(width);
    }
    Ok(widths)
}

fn first(es: &[Edge]) -> Edge
    requires { 0 < length es.now }
    ensures { result ≡ edge_at es.now 0 }
{
    es[0]
}

/// The words of all nodes.
fn all_words(
    alloc: Global,
    and: &mut And,
    graph: &Graph,
    inputs: &[Items<Edge>],
) -> Result<Vec<Items<Edge>>, NoMemory>
    requires combinational { graph.now.registers ≡ [] }
    requires inputs { FitsPorts graph.now.inputs inputs.now }
    requires inputs_below { (i : ℕ) → i < length inputs.now → AllBelow (length and.old) (word_at inputs.now i) }
    ensures grows { IfOk result (λ _. Grows and.old and.new) }
    ensures words { IfOk result (λ ws. HasWords graph.now (length graph.now.nodes) (length and.new) ws.items) }
    ensures is { IfOk result (λ ws. (values : ℕ → Bool) → IsValuation and.new values → map (word_of values) ws.items ≡ values_of graph.now [] (map (word_of values) inputs.now)) }
{
    let mut words = Vec::new(alloc);
    for k in 0..graph.len() {
        let es = node_word(alloc, and, graph, k, inputs, words.as_slice())?;
        let _ = and.nodes();
        words.reserve(1)?;
        words.push_reserved(es);
    }
    Ok(words)
}

/// The clauses by which the goal, a node of width 1, is 1, for a graph without registers. The first variables are the
/// bits of the inputs, inputs in order and the lowest bit of each first.
/// `NoMemory` where there is no room for the gates or the clauses.
pub fn clauses_of(alloc: Global, graph: &Graph, goal: u64) -> Result<Encoded, NoMemory>
    requires combinational { graph.now.registers ≡ [] }
    requires within { goal < length graph.now.nodes }
    requires one { width_at graph.now.nodes goal ≡ 1 }
    ensures encodes { IfOk result (λ e. IsEncoding graph.now goal e.set) }
    ensures gates { IfOk result (λ e. CountsGates e.set e.gates) }
    ensures few { IfOk result (λ e. IsFew e.set) }
    ensures widths { IfOk result (λ e. e.widths ≡ input_widths graph.now) }
{
    let mut and = And::new(alloc);
    let inputs = open_words(alloc, &mut and, graph)?;
    let bits = and.nodes() - 1;
    let words = all_words(alloc, &mut and, graph, inputs.as_slice())?;
    let _ = and.nodes();
    let edge = first(word(words.as_slice(), goal));
    let set = encode(alloc, &and, bits, edge)?;
    decided_sets_are_at_rest();
    set.kept();
    let gates = and.len();
    let widths = widths_of(alloc, graph)?;
    Ok(Encoded::new(set, widths, gates))
}

/// The words of some values fit the inputs, and each list of words that fits them is that of some values. It does
/// nothing: its contract is the law.
pub fn inputs_are_bits()
    ensures fit { (net : Net) (values : ℕ → Bool) → FitsInputs net (input_words net values) × AreWords (input_words net values) }
    ensures each { (net : Net) (words : List Bits) → FitsInputs net words → AreWords words →
        (values : ℕ → Bool) × (input_words net values ≡ words) }
{}
