ghost use Rattle.std.specs.Prelude.{◌≡◌, ◌&&◌, ◌+◌, ◌^◌, ◌<◌, ◌%◌, ℕ, All, Some, length, IfOk};
ghost use Rattle.lv_netlist.specs.Net.{IsWidth};
ghost use Rattle.lv_netlist.specs.Queries.{register_widths, port_widths};
ghost use Rattle.lv_product.specs.Values.{is_met, is_same};
ghost use Rattle.lv_learner.specs.Cuts.{cut};
ghost use Rattle.lv_learner.specs.Confirming.{FitsCert, IsFirstFailing, first_of, IsStatesTest, IsInputTest};

use crate::moment::{is_equal, is_on, settled};
use lv_bits::{NoMemory, Word};
use lv_cert::Cert;
use lv_netlist::Graph;
use lv_product::Task;
use lv_sim::Sim;
use std::alloc::Global;

/// The first expressions that a certificate's states, and its input, don't meet.
#[derive(Drop)]
pub(crate) struct Failing {
    pub(crate) states: Option<u64>,
    pub(crate) input: Option<u64>,
}

/// The low bits of a value.
fn low(width: u32, value: u128) -> Word
    requires { IsWidth width }
    ensures { result ≡ record { width = width; value = value % 2 ^ width } }
{
    Word::new(128, value).slice(0, width)
}

/// The state that the values are.
fn state_words(alloc: Global, graph: &Graph, values: &[u128]) -> Result<Vec<Word>, NoMemory>
    requires { length values.now ≡ length graph.now.registers }
    ensures { IfOk result (λ words. words.items ≡ cut (register_widths graph.now) values.now) }
{
    let mut words = Vec::new(alloc);
    for k in 0..graph.registers() {
        let word = low(graph.register_width(k), values[k as usize]);
        words.reserve(1)?;
        words.push_reserved(word);
    }
    Ok(words)
}

/// The input that the values are.
fn input_words(alloc: Global, graph: &Graph, values: &[u128]) -> Result<Vec<Word>, NoMemory>
    requires { length values.now ≡ length graph.now.inputs }
    ensures { IfOk result (λ words. words.items ≡ cut (port_widths graph.now) values.now) }
{
    let mut words = Vec::new(alloc);
    for k in 0..graph.inputs() {
        let word = low(graph.input_width(k), values[k as usize]);
        words.reserve(1)?;
        words.push_reserved(word);
    }
    Ok(words)
}

/// The first of these nodes that differs between the copies.
fn first_differing(nodes: &[u64], left: &Sim, right: &Sim) -> Option<u64>
    requires left { All (λ (k : ℕ). k < length left.now.values) nodes.now }
    requires right { All (λ (k : ℕ). k < length right.now.values) nodes.now }
    ensures { IsFirstFailing (is_same left.now.values right.now.values) nodes.now result }
{
    for k in 0..nodes.len() {
        if !is_equal(left, right, nodes[k]) {
            return Some(k as u64);
        }
    }
    None
}

/// The first of these nodes that is 0 in a copy.
fn first_off(nodes: &[u64], left: &Sim, right: &Sim) -> Option<u64>
    requires left { All (λ (k : ℕ). k < length left.now.values) nodes.now }
    requires right { All (λ (k : ℕ). k < length right.now.values) nodes.now }
    ensures { IsFirstFailing (λ k. is_met left.now.values k && is_met right.now.values k) nodes.now result }
{
    for k in 0..nodes.len() {
        let node = nodes[k];
        if !(is_on(left, node) && is_on(right, node)) {
            return Some(k as u64);
        }
    }
    None
}

/// The first place of two lists, the first of which has so many entries.
fn earlier(first: Option<u64>, count: u64, second: Option<u64>) -> Option<u64>
    requires { (j : ℕ) → second ≡ Some j → count + j < 2 ^ 64 }
    ensures { result ≡ first_of first count second }
{
    match (first, second) {
        (Some(k), _) => Some(k),
        (None, Some(j)) => Some(count + j),
        (None, None) => None,
    }
}

/// Tests a certificate's states and its input by the simulator.
pub(crate) fn unmet(alloc: Global, task: &Task, cert: &Cert) -> Result<Failing, NoMemory>
    requires { FitsCert task.now cert.now }
    ensures states { IfOk result (λ u. IsStatesTest task.now cert.now u.states) }
    ensures input { IfOk result (λ u. IsInputTest task.now cert.now u.input) }
{
    let graph = &task.graph;
    let l = state_words(alloc, graph, cert.left.as_slice())?;
    let r = state_words(alloc, graph, cert.right.as_slice())?;
    let i = input_words(alloc, graph, cert.input.as_slice())?;
    let left = settled(alloc, graph, l.as_slice(), i.as_slice())?;
    let right = settled(alloc, graph, r.as_slice(), i.as_slice())?;
    let differing = first_differing(task.equal.as_slice(), &left, &right);
    let off = first_off(task.each.as_slice(), &left, &right);
    let states = earlier(differing, task.equal.len() as u64, off);
    let input = first_off(task.assume.as_slice(), &left, &right);
    Ok(Failing { states, input })
}
