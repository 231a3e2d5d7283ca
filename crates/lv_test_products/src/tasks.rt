ghost use Rattle.std.specs.Prelude.{◌≡◌, length, IfOk, IsTrue};
ghost use Rattle.std.specs.List.{list_all};
ghost use Rattle.lv_product.specs.Queries.{FitsKept};
ghost use Rattle.lv_product.specs.Marks.{marked_at};
ghost use Rattle.lv_test_products.specs.Marked.{candidate_marked};

use crate::building::fits_inputs;
use lv_bits::{Text, Word};
use lv_netlist::Graph;
use lv_product::{Candidate, Kept, Pair, Port, Product, Task, state_nodes};
use lv_sim::Sim;
use std::alloc::Global;
use std::test::Fail;

fn is_marked(marks: &[bool], k: u64) -> bool
    ensures { result ≡ marked_at marks.now k }
{
    if k < marks.len() as u64 {
        marks[k as usize]
    } else {
        false
    }
}

fn are_marked(marks: &[bool], nodes: &[u64]) -> bool
    ensures { result ≡ list_all (marked_at marks.now) nodes.now }
{
    nodes.iter().all(|k| is_marked(marks, *k))
}

fn reads_marked(marks: &[bool], candidate: Candidate) -> bool
    ensures { result ≡ candidate_marked marks.now candidate }
{
    match candidate {
        Candidate::Eq(e) => is_marked(marks, e),
        Candidate::When(guard, e) => is_marked(marks, guard) && is_marked(marks, e),
        Candidate::Each(p) => is_marked(marks, p),
        Candidate::Aligned => true,
    }
}

fn read_marked(marks: &[bool], candidates: &[Candidate]) -> bool
    ensures { result ≡ list_all (candidate_marked marks.now) candidates.now }
{
    candidates.iter().all(|c| reads_marked(marks, *c))
}

fn texts(alloc: Global, count: usize) -> Result<Vec<Text>, Fail>
    ensures { IfOk result (λ texts. length texts.items ≡ count) }
{
    let mut texts = Vec::new(alloc);
    for _k in 0..count {
        let text = Text::new(alloc, b"candidate")?;
        texts.push(text)?;
    }
    Ok(texts)
}

/// A task with one port, which shows one node, and one node for the attacker.
pub(crate) fn task(
    alloc: Global,
    graph: Graph,
    retire: u64,
    contract: u64,
    attacker: u64,
    equal: &[u64],
    candidates: &[Candidate],
    lookahead: u32,
) -> Result<Task, Fail> {
    let marks = state_nodes(alloc, &graph)?;
    let m = marks.as_slice();
    let count = graph.len();
    if retire >= count || contract >= count || attacker >= count || lookahead > 32 {
        return Err(Fail::from("no such node"));
    }
    if !are_marked(m, equal) || !read_marked(m, candidates) {
        return Err(Fail::from("it reads inputs"));
    }
    let shown = Vec::from_slice(alloc, &[contract])?;
    let mut ports = Vec::new(alloc);
    ports.reserve(1)?;
    ports.push_reserved(Port {
        retire,
        contract: shown,
    });
    let attacker = Vec::from_slice(alloc, &[attacker])?;
    let equal = Vec::from_slice(alloc, equal)?;
    let list = Vec::from_slice(alloc, candidates)?;
    let texts = texts(alloc, candidates.len())?;
    Ok(Task {
        graph,
        ports,
        attacker,
        assume: Vec::new(alloc),
        equal,
        each: Vec::new(alloc),
        candidates: list,
        texts,
        lookahead,
    })
}

fn fits_kept(task: &Task, numbers: &[u64]) -> bool
    ensures { IsTrue result → FitsKept task.now numbers.now }
{
    for k in 0..numbers.len() {
        if numbers[k] >= task.candidates.len() as u64 {
            return false;
        }
        if k + 1 < numbers.len() && numbers[k] >= numbers[k + 1] {
            return false;
        }
    }
    true
}

/// The list of these numbers.
pub(crate) fn kept(alloc: Global, task: &Task, numbers: &[u64]) -> Result<Kept, Fail>
    ensures { IfOk result (λ kept. FitsKept task.now kept.numbers.items) }
{
    if !fits_kept(task, numbers) {
        return Err(Fail::from("no such list"));
    }
    let numbers = Vec::from_slice(alloc, numbers)?;
    Ok(Kept { numbers })
}

/// The number of the goal under these words.
pub(crate) fn goal(alloc: Global, product: &Product, words: &[Word]) -> Result<u128, Fail> {
    goal_of(alloc, product.graph(), product.goal(), words)
}

/// The number of this node under these words.
pub(crate) fn goal_of(
    alloc: Global,
    graph: &Graph,
    goal: u64,
    words: &[Word],
) -> Result<u128, Fail> {
    if graph.registers() != 0 || !fits_inputs(graph, words) || graph.len() <= goal {
        return Err(Fail::from("no such words"));
    }
    let none: Vec<Word> = Vec::new(alloc);
    let mut sim = Sim::new(alloc, graph, none.as_slice())?;
    sim.settle(graph, words);
    Ok(sim.value(goal).value())
}

/// The pair that these words are.
pub(crate) fn pair_of(alloc: Global, product: &Product, words: &[Word]) -> Result<Pair, Fail> {
    if !fits_inputs(product.graph(), words) {
        return Err(Fail::from("no such words"));
    }
    let pair = product.pair(alloc, words)?;
    Ok(pair)
}
