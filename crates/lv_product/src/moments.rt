ghost use Rattle.std.specs.Prelude.{◌≡◌, ℕ, ◌<◌, ◌==◌, ◌&&◌, not, All, length, IfOk};
ghost use Rattle.std.specs.List.{list_all};
ghost use Rattle.lv_model.specs.Design.{holds_test};
ghost use Rattle.lv_unroll.specs.Wires.{is_on, GivesTest};
ghost use Rattle.lv_product.specs.Queries.{candidate_by};
ghost use Rattle.lv_product.specs.Values.{value_at, values_in, IsTableOf, AreNodes, is_met, is_same, holds_at, ReadsNodes, GivesTruth};

use crate::task::Candidate;
use lv_bits::NoMemory;
use lv_netlist::{Builder, Graph};
use lv_unroll::{always, at, both, either, equal, negated};

// A node that is 1 where node k has one number in both copies.
fn same(
    b: &mut Builder,
    graph: &Graph,
    k: u64,
    left: &[u64],
    right: &[u64],
) -> Result<u64, NoMemory>
    requires within { k < length graph.now.nodes }
    requires left { IsTableOf b.old graph.now left.now }
    requires right { IsTableOf b.old graph.now right.now }
    ensures { IfOk result (λ at. GivesTest b.old b.new at (λ ws. is_same (values_in b.old left.now ws) (values_in b.old right.now ws) k)) }
{
    let _ = graph.len();
    let x = at(left, k);
    let y = at(right, k);
    let same = equal(b, x, y)?;
    Ok(same)
}

// A node that is 1 where the copy of node k is 0.
fn off(b: &mut Builder, graph: &Graph, k: u64, table: &[u64]) -> Result<u64, NoMemory>
    requires within { k < length graph.now.nodes }
    requires table { IsTableOf b.old graph.now table.now }
    ensures { IfOk result (λ at. GivesTest b.old b.new at (λ ws. value_at k (values_in b.old table.now ws) == 0)) }
{
    let _ = graph.len();
    let x = at(table, k);
    let off = negated(b, x)?;
    Ok(off)
}

// A node that is 1 where node k isn't 0 in either copy.
fn met(b: &mut Builder, graph: &Graph, k: u64, left: &[u64], right: &[u64]) -> Result<u64, NoMemory>
    requires within { k < length graph.now.nodes }
    requires left { IsTableOf b.old graph.now left.now }
    requires right { IsTableOf b.old graph.now right.now }
    ensures { IfOk result (λ at. GivesTest b.old b.new at (λ ws. is_met (values_in b.old left.now ws) k && is_met (values_in b.old right.now ws) k)) }
{
    let _ = graph.len();
    let x = at(left, k);
    let y = at(right, k);
    let met = both(b, x, y)?;
    Ok(met)
}

/// A node that isn't 0 where the candidate holds; `aligned` is the truth value of the moment.
pub fn holds(
    b: &mut Builder,
    graph: &Graph,
    candidate: Candidate,
    left: &[u64],
    right: &[u64],
    aligned: u64,
) -> Result<u64, NoMemory>
    requires left { IsTableOf b.old graph.now left.now }
    requires right { IsTableOf b.old graph.now right.now }
    requires nodes { ReadsNodes graph.now candidate }
    requires aligned { aligned < length b.old.nodes }
    ensures { IfOk result (λ at.
        GivesTruth b.old b.new at (λ ws.
        holds_test (candidate_by value_at candidate) (values_in b.old left.now ws) (values_in b.old right.now ws) (is_on b.old ws aligned))) }
{
    match candidate {
        Candidate::Eq(e) => {
            let at = same(b, graph, e, left, right)?;
            Ok(at)
        }
        Candidate::When(guard, e) => {
            let same = same(b, graph, e, left, right)?;
            let first = off(b, graph, guard, left)?;
            let second = off(b, graph, guard, right)?;
            let some = either(b, same, first)?;
            let at = either(b, some, second)?;
            Ok(at)
        }
        Candidate::Each(p) => {
            let at = met(b, graph, p, left, right)?;
            Ok(at)
        }
        Candidate::Aligned => Ok(aligned),
    }
}

/// A node that is 1 where none of the copies of these nodes is 0.
pub(crate) fn all_met(
    b: &mut Builder,
    graph: &Graph,
    nodes: &[u64],
    table: &[u64],
) -> Result<u64, NoMemory>
    requires table { IsTableOf b.old graph.now table.now }
    requires nodes { AreNodes graph.now nodes.now }
    ensures { IfOk result (λ at. GivesTest b.old b.new at (λ ws. list_all (is_met (values_in b.old table.now ws)) nodes.now)) }
{
    let _ = graph.len();
    let mut all = always(b)?;
    for k in 0..nodes.len() as u64 {
        let node = at(nodes, k);
        let x = at(table, node);
        all = both(b, all, x)?;
    }
    Ok(all)
}

/// A node that is 1 where each of these nodes has one number in both copies.
pub(crate) fn all_same(
    b: &mut Builder,
    graph: &Graph,
    nodes: &[u64],
    left: &[u64],
    right: &[u64],
) -> Result<u64, NoMemory>
    requires left { IsTableOf b.old graph.now left.now }
    requires right { IsTableOf b.old graph.now right.now }
    requires nodes { AreNodes graph.now nodes.now }
    ensures { IfOk result (λ at.
        GivesTest b.old b.new at (λ ws. list_all (is_same (values_in b.old left.now ws) (values_in b.old right.now ws)) nodes.now)) }
{
    let mut all = always(b)?;
    for k in 0..nodes.len() as u64 {
        let node = at(nodes, k);
        let one = same(b, graph, node, left, right)?;
        all = both(b, all, one)?;
    }
    Ok(all)
}

/// A node that is 1 where each candidate of these numbers holds; `aligned` is the truth value of the moment.
pub(crate) fn all_hold(
    b: &mut Builder,
    graph: &Graph,
    candidates: &[Candidate],
    numbers: &[u64],
    left: &[u64],
    right: &[u64],
    aligned: u64,
) -> Result<u64, NoMemory>
    requires left { IsTableOf b.old graph.now left.now }
    requires right { IsTableOf b.old graph.now right.now }
    requires candidates { All (ReadsNodes graph.now) candidates.now }
    requires numbers { All (λ k. k < length candidates.now) numbers.now }
    requires aligned { aligned < length b.old.nodes }
    ensures { IfOk result (λ at.
        GivesTest b.old b.new at (λ ws.
        list_all (holds_at candidates.now (values_in b.old left.now ws) (values_in b.old right.now ws) (is_on b.old ws aligned)) numbers.now)) }
{
    let mut all = always(b)?;
    for k in 0..numbers.len() as u64 {
        let number = at(numbers, k);
        let candidate = candidates[number as usize];
        let one = holds(b, graph, candidate, left, right, aligned)?;
        all = both(b, all, one)?;
    }
    Ok(all)
}
