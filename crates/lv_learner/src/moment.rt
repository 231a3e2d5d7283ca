ghost use Rattle.std.specs.Prelude.{◌≡◌, ◌==◌, ◌<◌, length, IfOk};
ghost use Rattle.lv_netlist.specs.Fits.{FitsInputs, FitsState, FitsNodes};
ghost use Rattle.lv_netlist.specs.Run.{values_of, next_state};
ghost use Rattle.lv_product.specs.Values.{value_at, is_met, is_same};

use lv_bits::{NoMemory, Word};
use lv_netlist::Graph;
use lv_sim::Sim;
use std::alloc::Global;

/// A simulator that has settled in a state.
pub(crate) fn settled(
    alloc: Global,
    graph: &Graph,
    state: &[Word],
    inputs: &[Word],
) -> Result<Sim, NoMemory>
    requires state { FitsState graph.now state.now }
    requires inputs { FitsInputs graph.now inputs.now }
    ensures values { IfOk result (λ s. s.values ≡ values_of graph.now state.now inputs.now) }
    ensures state { IfOk result (λ s. s.state ≡ state.now) }
    ensures fits { IfOk result (λ s. FitsNodes graph.now (length graph.now.nodes) s.values) }
{
    let mut sim = Sim::new(alloc, graph, state)?;
    sim.settle(graph, inputs);
    Ok(sim)
}

/// Goes on by one cycle.
pub(crate) fn go_on(graph: &Graph, sim: &mut Sim, inputs: &[Word])
    requires state { FitsState graph.now sim.old.state }
    requires settled { FitsNodes graph.now (length graph.now.nodes) sim.old.values }
    requires inputs { FitsInputs graph.now inputs.now }
    ensures values { sim.new.values ≡ values_of graph.now (next_state graph.now sim.old.values) inputs.now }
    ensures fits { FitsNodes graph.now (length graph.now.nodes) sim.new.values }
{
    sim.step(graph);
    sim.settle(graph, inputs);
}

/// The number of a node.
fn number(sim: &Sim, node: u64) -> u128
    requires { node < length sim.now.values }
    ensures { result ≡ value_at node sim.now.values }
{
    sim.value(node).value()
}

/// Whether the node is 0.
pub(crate) fn is_off(sim: &Sim, node: u64) -> bool
    requires { node < length sim.now.values }
    ensures { result ≡ (value_at node sim.now.values == 0) }
{
    number(sim, node) == 0
}

/// Whether the node isn't 0.
pub(crate) fn is_on(sim: &Sim, node: u64) -> bool
    requires { node < length sim.now.values }
    ensures { result ≡ is_met sim.now.values node }
{
    number(sim, node) != 0
}

/// Whether the node has one number in both copies.
pub(crate) fn is_equal(left: &Sim, right: &Sim, node: u64) -> bool
    requires left { node < length left.now.values }
    requires right { node < length right.now.values }
    ensures { result ≡ is_same left.now.values right.now.values node }
{
    number(left, node) == number(right, node)
}
