ghost use Rattle.std.specs.Prelude.{◌≡◌, ℕ, length, IfOk};
ghost use Rattle.std.specs.List.{AllByRecursion};
ghost use Rattle.lv_unroll.specs.Copies.{AreStates};
ghost use Rattle.lv_unroll.specs.Unrolls.{next_nodes, IsCycle, Unrolls};

use crate::copies::{Nodes, at, copy};
use lv_bits::NoMemory;
use lv_netlist::{Builder, Graph};
use std::alloc::Global;

// The copies of the registers' next nodes.
fn next_nodes(alloc: Global, graph: &Graph, table: &[u64]) -> Result<Vec<u64>, NoMemory>
    requires { length table.now ≡ length graph.now.nodes }
    ensures { IfOk result (λ nodes. nodes.items ≡ next_nodes graph.now table.now) }
{
    let mut nodes = Vec::new(alloc);
    for k in 0..graph.registers() {
        let node = at(table, graph.next_of(k));
        nodes.reserve(1)?;
        nodes.push_reserved(node);
    }
    Ok(nodes)
}

/// A copy of the graph for each cycle, from these nodes for its registers on: for each cycle the table of the copies.
///
/// `state` has a node for each register, and each cycle one for each input, of its width. The words of the tables are those
/// of the graph's nodes in the run from the words of `state` under those of the inputs.
pub fn unroll(
    alloc: Global,
    b: &mut Builder,
    graph: &Graph,
    state: &[u64],
    inputs: &[Nodes],
) -> Result<Vec<Nodes>, NoMemory>
    requires state { AreStates b.old graph.now state.now }
    requires inputs { AllByRecursion (IsCycle b.old graph.now) inputs.now }
    ensures { IfOk result (λ tables. Unrolls graph.now b.old b.new state.now inputs.now tables.items) }
{
    let _ = graph.len();
    let mut tables = Vec::new(alloc);
    let mut now = Vec::from_slice(alloc, state)?;
    for cycle in inputs {
        let table = copy(alloc, b, graph, now.as_slice(), cycle.list.as_slice())?;
        now = next_nodes(alloc, graph, table.as_slice())?;
        tables.reserve(1)?;
        tables.push_reserved(Nodes { list: table });
    }
    Ok(tables)
}
