ghost use Rattle.std.specs.Prelude.{◌≡◌, ℕ, ◌<◌, All, length, IfOk, IfSome};
ghost use Rattle.lv_netlist.specs.Net.{register_width};
ghost use Rattle.lv_unroll.specs.Copies.{AreStates};
ghost use Rattle.lv_product.specs.Values.{ReadsNodes};
ghost use Rattle.lv_product.specs.Queries.{FitsKept};
ghost use Rattle.lv_product.specs.Sharing.{IsEqualityOf, Shares, held_first};

use crate::task::{Candidate, Kept, Query, Task};
use lv_bits::NoMemory;
use lv_netlist::{Builder, Graph, Node};
use lv_unroll::{always, at, both, equal};
use std::alloc::Global;

// The register that has one number in both copies where the candidate holds, if that is what the candidate says.
fn equal_register(graph: &Graph, candidate: Candidate) -> Option<u64>
    requires { ReadsNodes graph.now candidate }
    ensures { IfSome result (IsEqualityOf graph.now candidate) }
{
    match candidate {
        Candidate::Eq(node) => {
            match graph.node(node) {
                Node::Reg(i) => Some(i),
                _ => None,
            }
        }
        _ => None,
    }
}

// The first nodes of the right copy: the left ones of the registers whose equality is among these numbers, else its own; and
// a node that is 1 where both copies have one number in each of these registers.
fn shared(
    alloc: Global,
    b: &mut Builder,
    graph: &Graph,
    candidates: &[Candidate],
    numbers: &[u64],
    left: &[u64],
    right: &[u64],
) -> Result<(Vec<u64>, u64), NoMemory>
    requires left { AreStates b.old graph.now left.now }
    requires right { AreStates b.old graph.now right.now }
    requires candidates { All (ReadsNodes graph.now) candidates.now }
    requires numbers { All (λ k. k < length candidates.now) numbers.now }
    ensures { IfOk result (λ p. Shares graph.now b.old b.new candidates.now numbers.now left.now right.now (length numbers.now) p.0.items p.1) }
{
    let mut nodes = Vec::from_slice(alloc, right)?;
    let mut all = always(b)?;
    for k in 0..numbers.len() as u64 {
        let number = at(numbers, k);
        let candidate = candidates[number as usize];
        if let Some(i) = equal_register(graph, candidate) {
            let x = at(left, i);
            let y = at(right, i);
            let same = equal(b, x, y)?;
            all = both(b, all, same)?;
            nodes[i as usize] = x;
        }
    }
    Ok((nodes, all))
}

/// The first nodes of the right copy for a query, and a node that is 1 where they are as good as its own.
///
/// The left node of a register is shared where the list keeps the register's equality and the query asks that the list holds
/// at first.
pub(crate) fn first_nodes(
    alloc: Global,
    b: &mut Builder,
    task: &Task,
    kept: &Kept,
    query: Query,
    left: &[u64],
    right: &[u64],
) -> Result<(Vec<u64>, u64), NoMemory>
    requires left { AreStates b.old task.now.graph left.now }
    requires right { AreStates b.old task.now.graph right.now }
    requires kept { FitsKept task.now kept.now.numbers.items }
    ensures { IfOk result (λ p.
        let s = held_first query kept.now.numbers.items in
        Shares task.now.graph b.old b.new task.now.candidates.items s left.now right.now (length s) p.0.items p.1) }
{
    let none = Vec::new(alloc);
    let numbers = match query {
        Query::Step | Query::Imply => kept.numbers.as_slice(),
        _ => none.as_slice(),
    };
    let nodes = shared(
        alloc,
        b,
        &task.graph,
        task.candidates.as_slice(),
        numbers,
        left,
        right,
    )?;
    Ok(nodes)
}
