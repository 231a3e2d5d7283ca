ghost use Rattle.std.specs.Prelude.{◌≡◌, ℕ, ◌<◌, List, ◌∷◌, length, map, Some};
ghost use Rattle.std.specs.List.{AllByRecursion};
ghost use Rattle.lv_bits.specs.Words.{Bits};
ghost use Rattle.lv_model.specs.Machine.{IsRun};
ghost use Rattle.lv_model.specs.Design.{Observers};
ghost use Rattle.lv_model.specs.Stepper.{unrolled};
ghost use Rattle.lv_netlist.specs.Stepping.{GraphCycle, stepper_of, graph_machine};
ghost use Rattle.lv_netlist.specs.Net.{Net, IsNet, IsNode, IsWidth, HasNexts, node_at, width_at, input_name, input_width, register_name, register_width, register_next};

use crate::{Builder, Node};
use lv_bits::{Text, Word};
use std::marker::Model;

/// One word per input of a graph, in order.
pub struct Inputs {
    pub words: Vec<Word>,
}

impl Drop for Inputs {
    fn drop(self) {
        let Inputs { words } = self;
        drop(words);
    }
}

/// A graph in which each register has its next node. Contracts see its nodes, its inputs and its registers.
pub struct Graph {
    builder: Builder,
}

impl Drop for Graph {
    fn drop(self) {
        let Graph { builder } = self;
        drop(builder);
    }
}

impl Model for Graph {
    ghost use Rattle.lv_netlist.specs.Net.{Net, IsNet, HasNexts};

    ghost Value = { Net };

    ghost view = { λ g. g.builder };

    ghost invariant = { λ g. IsNet g.builder × HasNexts g.builder };
}

impl Graph {
    pub(crate) fn of(builder: Builder) -> Graph
        requires { HasNexts builder }
        ensures { result ≡ builder }
    {
        let _ = builder.len();
        Graph { builder }
    }

    /// A builder that holds the same nodes, names and next nodes. It takes no memory.
    pub fn reopen(self) -> Builder
        ensures same { result ≡ self }
        ensures nexts { HasNexts self }
    {
        let Graph { builder } = self;
        builder
    }

    /// What a graph unrolls to from a state is a run of its machine, and each run is what it unrolls to. It does nothing: its contract is the law.
    pub fn runs(&self)
        ensures state { (s i : List Bits) →
            (stepper_of self.now).IsState s → (stepper_of self.now).IsInput i → (stepper_of self.now).IsState ((stepper_of self.now).next s i) }
        ensures run { (o : Observers GraphCycle) (s : List Bits) (inputs : List (List Bits)) →
            (stepper_of self.now).IsState s → AllByRecursion (stepper_of self.now).IsInput inputs →
            IsRun (graph_machine self.now o) (unrolled (stepper_of self.now) s inputs) }
        ensures only { (o : Observers GraphCycle) (v : GraphCycle) (vs : List GraphCycle) →
            IsRun (graph_machine self.now o) (v ∷ vs) →
            v ∷ vs ≡ unrolled (stepper_of self.now) v.state (map (λ c. c.input) (v ∷ vs)) }
    {
        let _ = self.len();
    }

    /// The number of nodes.
    pub fn len(&self) -> u64
        ensures is { result ≡ length self.now.nodes }
        ensures net { IsNet self.now }
        ensures nexts { HasNexts self.now }
    {
        self.builder.len()
    }

    /// The node with this number.
    pub fn node(&self, k: u64) -> Node
        requires { k < length self.now.nodes }
        ensures is { result ≡ (node_at self.now.nodes k).node }
        ensures typed { IsNode self.now k (node_at self.now.nodes k) }
    {
        let _ = self.builder.len();
        self.builder.typed(k).node
    }

    /// The width of a node in bits, 1 to 128.
    pub fn width(&self, k: u64) -> u32
        requires { k < length self.now.nodes }
        ensures is { result ≡ width_at self.now.nodes k }
        ensures width { IsWidth result }
    {
        let _ = self.builder.len();
        self.builder.typed(k).width
    }

    /// The number of inputs.
    pub fn inputs(&self) -> u64
        ensures { result ≡ length self.now.inputs }
    {
        self.builder.inputs()
    }

    /// The number of registers.
    pub fn registers(&self) -> u64
        ensures { result ≡ length self.now.registers }
    {
        self.builder.registers()
    }

    /// The name of an input.
    pub fn input_name(&self, k: u64) -> &Text
        requires { k < length self.now.inputs }
        ensures { result.now ≡ input_name self.now k }
    {
        self.builder.input_at(k).0
    }

    /// The width of an input in bits, 1 to 128.
    pub fn input_width(&self, k: u64) -> u32
        requires { k < length self.now.inputs }
        ensures is { result ≡ input_width self.now k }
        ensures width { IsWidth result }
    {
        let _ = self.builder.len();
        self.builder.input_at(k).1
    }

    /// The name of a register.
    pub fn register_name(&self, k: u64) -> &Text
        requires { k < length self.now.registers }
        ensures { result.now ≡ register_name self.now k }
    {
        self.builder.register_at(k).0
    }

    /// The width of a register in bits, 1 to 128.
    pub fn register_width(&self, k: u64) -> u32
        requires { k < length self.now.registers }
        ensures is { result ≡ register_width self.now k }
        ensures width { IsWidth result }
    {
        let _ = self.builder.len();
        self.builder.register_at(k).1.width
    }

    /// The next node of a register.
    pub fn next_of(&self, k: u64) -> u64
        requires { k < length self.now.registers }
        ensures is { register_next self.now k ≡ Some result }
        ensures within { result < length self.now.nodes }
        ensures same { width_at self.now.nodes result ≡ register_width self.now k }
    {
        let _ = self.builder.len();
        match self.builder.register_at(k).1.next {
            Some(node) => node,
            None => unreachable!(),
        }
    }
}
