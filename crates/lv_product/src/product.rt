ghost use Rattle.std.specs.Prelude.{◌≡◌, ℕ, ◌+◌, ◌*◌, ◌<◌, ◌≤◌, ◌==◌, not, take, drop, length, IfOk};
ghost use Rattle.lv_netlist.specs.Run.{bits_at};
ghost use Rattle.lv_netlist.specs.Fits.{FitsInputs};
ghost use Rattle.lv_netlist.specs.Queries.{pieces};
ghost use Rattle.lv_product.specs.Pairs.{IsPairOf, words_of};

use crate::task::Pair;
use lv_bits::{NoMemory, Word};
use lv_netlist::{Graph, Inputs};
use std::alloc::Global;
use std::marker::Model;

/// A graph whose goal is 1 exactly where its inputs meet a query. Contracts see the graph, the goal, and how many registers,
/// inputs and cycles the query has.
pub struct Product {
    graph: Graph,
    goal: u64,
    registers: u64,
    inputs: u64,
    cycles: u64,
}

impl Model for Product {
    ghost use Rattle.std.specs.Prelude.{◌≡◌, ◌+◌, ◌*◌, length};
    ghost use Rattle.lv_product.specs.Pairs.{ProductValue};

    ghost Value = { ProductValue };

    ghost view = { λ p. record { net = p.graph; goal = p.goal; registers = p.registers; inputs = p.inputs; cycles = p.cycles } };

    ghost invariant = { λ p. length p.graph.inputs ≡ p.registers + p.registers + p.cycles * p.inputs + 1 };
}

impl Drop for Product {
    fn drop(self) {
        let Product {
            graph,
            goal: _,
            registers: _,
            inputs: _,
            cycles: _,
        } = self;
        drop(graph);
    }
}

impl Product {
    pub(crate) fn new(graph: Graph, goal: u64, registers: u64, inputs: u64, cycles: u64) -> Product
        requires { length graph.inputs ≡ registers + registers + cycles * inputs + 1 }
        ensures { result ≡ record { net = graph; goal = goal; registers = registers; inputs = inputs; cycles = cycles } }
    {
        Product {
            graph,
            goal,
            registers,
            inputs,
            cycles,
        }
    }

    /// The graph. It takes no memory.
    pub fn graph(&self) -> &Graph
        ensures { result.now ≡ self.now.net }
    {
        &self.graph
    }

    /// The node of the graph that is the goal. It takes no memory.
    pub fn goal(&self) -> u64
        ensures { result ≡ self.now.goal }
    {
        self.goal
    }

    /// The states, the inputs and the truth value that the words of the graph's inputs are.
    ///
    /// There is one word for each input of the graph, of its width.
    pub fn pair(&self, alloc: Global, words: &[Word]) -> Result<Pair, NoMemory>
        requires { FitsInputs self.now.net words.now }
        ensures { IfOk result (IsPairOf self.now.registers self.now.inputs self.now.cycles words.now) }
    {
        let pair = pair_of(alloc, self.registers, self.inputs, self.cycles, words)?;
        Ok(pair)
    }
}

fn first(words: &[Word], count: u64) -> &[Word]
    requires { count ≤ length words.now }
    ensures { result.now ≡ take count words.now }
{
    &words[..count as usize]
}

fn after(words: &[Word], count: u64) -> &[Word]
    requires { count ≤ length words.now }
    ensures { result.now ≡ drop count words.now }
{
    &words[count as usize..]
}

// Whether the last word isn't 0.
fn is_last_on(words: &[Word]) -> bool
    requires { 0 < length words.now }
    ensures { (k : ℕ) → k + 1 ≡ length words.now → result ≡ not ((bits_at words.now k).value == 0) }
{
    words[words.len() - 1].value() != 0
}

// The words in pieces, one for each cycle.
fn cycles_of(
    alloc: Global,
    count: u64,
    cycles: u64,
    words: &[Word],
) -> Result<Vec<Inputs>, NoMemory>
    requires { length words.now ≡ cycles * count + 1 }
    ensures { IfOk result (λ inputs. words_of inputs.items ≡ pieces count cycles words.now) }
{
    let mut inputs = Vec::new(alloc);
    let mut rest = words;
    for _k in 0..cycles {
        let part = first(rest, count);
        let piece = Vec::from_slice(alloc, part)?;
        let more = after(rest, count);
        inputs.reserve(1)?;
        inputs.push_reserved(Inputs { words: piece });
        rest = more;
    }
    Ok(inputs)
}

/// The parts of the words.
pub fn pair_of(
    alloc: Global,
    registers: u64,
    inputs: u64,
    cycles: u64,
    words: &[Word],
) -> Result<Pair, NoMemory>
    requires { length words.now ≡ registers + registers + cycles * inputs + 1 }
    ensures { IfOk result (IsPairOf registers inputs cycles words.now) }
{
    let l = first(words, registers);
    let left = Vec::from_slice(alloc, l)?;
    let others = after(words, registers);
    let r = first(others, registers);
    let right = Vec::from_slice(alloc, r)?;
    let rest = after(others, registers);
    let inputs = cycles_of(alloc, inputs, cycles, rest)?;
    let aligned = is_last_on(words);
    Ok(Pair {
        left,
        right,
        inputs,
        aligned,
    })
}
