ghost use Rattle.std.specs.Prelude.{◌≡◌, ℕ, ◌<◌, length, IfOk};
ghost use Rattle.lv_netlist.specs.Net.{Net};
ghost use Rattle.lv_netlist.specs.Run.{values_of, next_state, bits_at};
ghost use Rattle.lv_netlist.specs.Fits.{FitsInputs, FitsState, FitsNodes};

use crate::node::{node_word, word_at};
use lv_bits::{NoMemory, Word};
use lv_netlist::Graph;
use std::alloc::Global;
use std::marker::Model;

/// A graph in some cycle: the words of its registers, and those of its nodes at the last settle. Each call gets the graph of `new`.
pub struct Sim {
    state: Vec<Word>,
    values: Vec<Word>,
}

impl Model for Sim {
    ghost use Rattle.lv_sim.specs.Simulation.{Simulation};

    ghost Value = { Simulation };

    ghost view = { λ s. record { state = s.state.items; values = s.values.items } };
}

impl Drop for Sim {
    fn drop(self) {
        let Sim { state, values } = self;
        drop(state);
        drop(values);
    }
}

impl Sim {
    /// In a state with one word per register, of its width. `NoMemory` where there is no room for the words.
    pub fn new(alloc: Global, graph: &Graph, state: &[Word]) -> Result<Sim, NoMemory>
        requires { FitsState graph.now state.now }
        ensures state { IfOk result (λ s. s.state ≡ state.now) }
        ensures room { IfOk result (λ s. length s.values ≡ length graph.now.nodes) }
    {
        let state = Vec::from_slice(alloc, state)?;
        let values = vec![in alloc; Word::new(1, 0); graph.len() as usize]?;
        Ok(Sim { state, values })
    }

    /// Computes all nodes under inputs with one word each, of its width. It takes no memory.
    pub fn settle(&mut self, graph: &Graph, inputs: &[Word])
        requires state { FitsState graph.now self.old.state }
        requires room { length self.old.values ≡ length graph.now.nodes }
        requires inputs { FitsInputs graph.now inputs.now }
        ensures state { self.new.state ≡ self.old.state }
        ensures values { self.new.values ≡ values_of graph.now self.old.state inputs.now }
        ensures fits { FitsNodes graph.now (length graph.now.nodes) self.new.values }
    {
        settle(
            graph,
            self.state.as_slice(),
            inputs,
            self.values.as_mut_slice(),
        );
    }

    /// Moves all registers to their next values together, after a settle. It takes no memory.
    pub fn step(&mut self, graph: &Graph)
        requires state { FitsState graph.now self.old.state }
        requires settled { FitsNodes graph.now (length graph.now.nodes) self.old.values }
        ensures values { self.new.values ≡ self.old.values }
        ensures state { self.new.state ≡ next_state graph.now self.old.values }
        ensures fits { FitsState graph.now self.new.state }
    {
        step(graph, self.values.as_slice(), self.state.as_mut_slice());
    }

    /// The word of a node at the last settle. It takes no memory.
    pub fn value(&self, node: u64) -> Word
        requires { node < length self.now.values }
        ensures { result ≡ bits_at self.now.values node }
    {
        word_at(self.values.as_slice(), node)
    }
}

fn settle(graph: &Graph, state: &[Word], inputs: &[Word], values: &mut [Word])
    requires state { FitsState graph.now state.now }
    requires room { length values.old ≡ length graph.now.nodes }
    requires inputs { FitsInputs graph.now inputs.now }
    ensures values { values.new ≡ values_of graph.now state.now inputs.now }
    ensures fits { FitsNodes graph.now (length graph.now.nodes) values.new }
{
    for k in 0..graph.len() {
        let word = node_word(graph, k, state, inputs, &values[..k as usize]);
        values[k as usize] = word;
    }
}

fn step(graph: &Graph, values: &[Word], state: &mut [Word])
    requires state { FitsState graph.now state.old }
    requires settled { FitsNodes graph.now (length graph.now.nodes) values.now }
    ensures state { state.new ≡ next_state graph.now values.now }
    ensures fits { FitsState graph.now state.new }
{
    for k in 0..graph.registers() {
        let word = word_at(values, graph.next_of(k));
        state[k as usize] = word;
    }
}
