ghost use Rattle.std.specs.Prelude.{◌≡◌, ℕ, ◌<◌, ◌||◌, not, All, length, IfOk};
ghost use Rattle.std.specs.List.{list_all};
ghost use Rattle.lv_model.specs.Design.{holds_test};
ghost use Rattle.lv_unroll.specs.Wires.{is_on, GivesTest};
ghost use Rattle.lv_product.specs.Queries.{candidate_by};
ghost use Rattle.lv_product.specs.Values.{value_at, values_in, IsTableOf, holds_at, ReadsNodes};
ghost use Rattle.lv_switched.specs.Switches.{switched_on, AreSwitches};

use lv_bits::NoMemory;
use lv_netlist::{Builder, Graph};
use lv_product::Candidate;
use lv_product::moments::holds;
use lv_unroll::{always, both, either, negated};

// A node that is 1 where the switch is 0 or the candidate holds; `aligned` is the truth value of the moment.
fn guarded(
    b: &mut Builder,
    graph: &Graph,
    candidate: Candidate,
    switch: u64,
    left: &[u64],
    right: &[u64],
    aligned: u64,
) -> Result<u64, NoMemory>
    requires left { IsTableOf b.old graph.now left.now }
    requires right { IsTableOf b.old graph.now right.now }
    requires nodes { ReadsNodes graph.now candidate }
    requires switch { switch < length b.old.nodes }
    requires aligned { aligned < length b.old.nodes }
    ensures { IfOk result (λ at.
        GivesTest b.old b.new at (λ ws.
        not (is_on b.old ws switch) || holds_test (candidate_by value_at candidate) (values_in b.old left.now ws) (values_in b.old right.now ws) (is_on b.old ws aligned))) }
{
    let one = holds(b, graph, candidate, left, right, aligned)?;
    let off = negated(b, switch)?;
    let at = either(b, off, one)?;
    Ok(at)
}

/// A node that is 1 where each candidate holds whose switch isn't 0; `aligned` is the truth value of the moment.
///
/// The switches are the inputs from `from` on, one for each candidate.
pub fn all_guarded(
    b: &mut Builder,
    graph: &Graph,
    candidates: &[Candidate],
    from: u64,
    left: &[u64],
    right: &[u64],
    aligned: u64,
) -> Result<u64, NoMemory>
    requires left { IsTableOf b.old graph.now left.now }
    requires right { IsTableOf b.old graph.now right.now }
    requires candidates { All (ReadsNodes graph.now) candidates.now }
    requires switches { AreSwitches b.old from (length candidates.now) }
    requires aligned { aligned < length b.old.nodes }
    ensures { IfOk result (λ at.
        GivesTest b.old b.new at (λ ws.
        list_all (holds_at candidates.now (values_in b.old left.now ws) (values_in b.old right.now ws) (is_on b.old ws aligned))
        (switched_on from (length candidates.now) ws))) }
{
    let _ = b.len();
    let mut all = always(b)?;
    for k in 0..candidates.len() as u64 {
        let candidate = candidates[k as usize];
        let one = guarded(b, graph, candidate, from + k, left, right, aligned)?;
        all = both(b, all, one)?;
    }
    Ok(all)
}
