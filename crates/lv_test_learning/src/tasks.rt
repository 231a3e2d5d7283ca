ghost use Rattle.std.specs.Prelude.{◌≡◌, length, IfOk, IsTrue};
ghost use Rattle.std.specs.List.{list_all};
ghost use Rattle.lv_product.specs.Queries.{FitsKept};
ghost use Rattle.lv_product.specs.Marks.{marked_at};
ghost use Rattle.lv_learner.specs.Confirming.{FitsCert};
ghost use Rattle.lv_test_learning.specs.Marked.{candidate_marked};

use lv_bits::Text;
use lv_cert::Cert;
use lv_netlist::Graph;
use lv_product::{Candidate, Port, Task, input_nodes, state_nodes};
use std::alloc::Global;
use std::test::Fail;

fn is_marked(marks: &[bool], k: u64) -> bool
    ensures { result ≡ marked_at marks.now k }
{
    if k < marks.len() as u64 {
        marks[k as usize]
    } else {
        false
    }
}

fn are_marked(marks: &[bool], nodes: &[u64]) -> bool
    ensures { result ≡ list_all (marked_at marks.now) nodes.now }
{
    nodes.iter().all(|k| is_marked(marks, *k))
}

fn reads_marked(marks: &[bool], candidate: Candidate) -> bool
    ensures { result ≡ candidate_marked marks.now candidate }
{
    match candidate {
        Candidate::Eq(e) => is_marked(marks, e),
        Candidate::When(guard, e) => is_marked(marks, guard) && is_marked(marks, e),
        Candidate::Each(p) => is_marked(marks, p),
        Candidate::Aligned => true,
    }
}

fn read_marked(marks: &[bool], candidates: &[Candidate]) -> bool
    ensures { result ≡ list_all (candidate_marked marks.now) candidates.now }
{
    candidates.iter().all(|c| reads_marked(marks, *c))
}

fn texts(alloc: Global, count: usize) -> Result<Vec<Text>, Fail>
    ensures { IfOk result (λ texts. length texts.items ≡ count) }
{
    let mut texts = Vec::new(alloc);
    for _k in 0..count {
        let text = Text::new(alloc, b"candidate")?;
        texts.push(text)?;
    }
    Ok(texts)
}

/// A task with one port, which shows one node, and one node for the attacker.
pub(crate) fn task(
    alloc: Global,
    graph: Graph,
    retire: u64,
    contract: u64,
    attacker: u64,
    equal: &[u64],
    each: &[u64],
    assume: &[u64],
    candidates: &[Candidate],
    lookahead: u32,
) -> Result<Task, Fail> {
    let marks = state_nodes(alloc, &graph)?;
    let m = marks.as_slice();
    let count = graph.len();
    if retire >= count || contract >= count || attacker >= count || lookahead > 32 {
        return Err(Fail::from("no such node"));
    }
    if !are_marked(m, equal) || !read_marked(m, candidates) {
        return Err(Fail::from("it reads inputs"));
    }
    let inputs = input_nodes(alloc, &graph)?;
    let i = inputs.as_slice();
    if !are_marked(m, each) || !are_marked(i, assume) {
        return Err(Fail::from("it reads the other part"));
    }
    let shown = Vec::from_slice(alloc, &[contract])?;
    let mut ports = Vec::new(alloc);
    ports.reserve(1)?;
    ports.push_reserved(Port {
        retire,
        contract: shown,
    });
    let attacker = Vec::from_slice(alloc, &[attacker])?;
    let equal = Vec::from_slice(alloc, equal)?;
    let each = Vec::from_slice(alloc, each)?;
    let assume = Vec::from_slice(alloc, assume)?;
    let list = Vec::from_slice(alloc, candidates)?;
    let texts = texts(alloc, candidates.len())?;
    Ok(Task {
        graph,
        ports,
        attacker,
        assume,
        equal,
        each,
        candidates: list,
        texts,
        lookahead,
    })
}

fn fits_kept(task: &Task, numbers: &[u64]) -> bool
    ensures { IsTrue result → FitsKept task.now numbers.now }
{
    for k in 0..numbers.len() {
        if numbers[k] >= task.candidates.len() as u64 {
            return false;
        }
        if k + 1 < numbers.len() && numbers[k] >= numbers[k + 1] {
            return false;
        }
    }
    true
}

/// Whether a certificate fits a task.
pub(crate) fn fits(task: &Task, cert: &Cert) -> bool
    ensures { IsTrue result → FitsCert task.now cert.now }
{
    let registers = task.graph.registers();
    fits_kept(task, cert.kept.as_slice())
        && cert.left.len() as u64 == registers
        && cert.right.len() as u64 == registers
        && cert.input.len() as u64 == task.graph.inputs()
}
