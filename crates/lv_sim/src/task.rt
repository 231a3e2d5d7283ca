ghost use Rattle.lv_sim.specs.Task.{FitsTask};

use lv_bits::Word;
use lv_netlist::{Graph, Inputs};

/// What a run of the simulator needs: the graph, the nodes to show, the first values of the registers in order, and the inputs of each cycle.
#[derive(Drop)]
pub struct SimTask {
    pub graph: Graph,
    pub show: Vec<u64>,
    pub state: Vec<Word>,
    pub inputs: Vec<Inputs>,
    pub ghost fits: { FitsTask graph show.items state.items inputs.items },
}
