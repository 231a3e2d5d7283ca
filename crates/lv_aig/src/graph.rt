ghost use Rattle.std.specs.Prelude.{◌≡◌, ◌≢◌, ℕ, ◌+◌, ◌^◌, ◌<◌, ◌≤◌, Bool, false, not, ◌&&◌, [], ◌∷◌, ◌++◌, length, OnOk, OnErr, IfOk, IfSome, Option, Some, None, Ok, count_by, is_some, MatchOption};
ghost use Rattle.lv_aig.specs.declared.edge.Edge.{Edge};
ghost use Rattle.lv_aig.specs.Edges.{Nodes, gate_at, zero_edge, edge_bit, IsValuation, IsGraph, Grows, Gives, folded, ordered};

use crate::{Edge, Gate};
use lv_bits::NoMemory;
use std::alloc::Global;
use std::collections::HashMap;
use std::marker::Model;

/// Gates over inputs, each pair of edges at most once.
pub struct And {
    // The node after the constant stands first.
    nodes: Vec<Option<Gate>>,
    shared: HashMap<Gate, u64>,
}

impl Model for And {
    ghost use Rattle.std.specs.Prelude.{None, ◌∷◌, length, ◌+◌, ◌^◌, ◌<◌};
    ghost use Rattle.lv_aig.specs.Edges.{Nodes, IsGraph};
    ghost use Rattle.lv_aig.specs.Shared.{Agrees};

    ghost Value = { Nodes };

    ghost view = { λ a. None ∷ a.nodes.items };

    ghost invariant = { λ a. IsGraph (None ∷ a.nodes.items) × Agrees (None ∷ a.nodes.items) a.shared × (length a.nodes.items + 1 < 2 ^ 63) };
}

impl Drop for And {
    fn drop(self) {
        let And { nodes, shared } = self;
        drop(nodes);
        drop(shared);
    }
}

impl And {
    /// The graph that has the constant alone.
    pub fn new(alloc: Global) -> And
        ensures { result ≡ None ∷ [] }
    {
        And {
            nodes: Vec::new(alloc),
            shared: HashMap::new(alloc),
        }
    }

    /// A further node, whose value is free.
    pub fn input(&mut self) -> Result<Edge, NoMemory>
        ensures kept { OnErr result (self.new ≡ self.old) }
        ensures is { OnOk result (self.new ≡ self.old ++ None ∷ []) }
        ensures edge { IfOk result (λ e. e ≡ record { node = length self.old; neg = false }) }
    {
        // Room for one more than is needed: a graph has fewer than 2^63 nodes.
        self.nodes.reserve(2)?;
        let node = self.nodes.len() as u64 + 1;
        self.nodes.push_reserved(None);
        Ok(Edge { node, neg: false })
    }

    /// The edge whose value is always 0.
    pub fn zero(&self) -> Edge
        ensures is { result ≡ zero_edge }
        ensures some { 0 < length self.now }
    {
        let _ = self.nodes.len();
        Edge {
            node: 0,
            neg: false,
        }
    }

    /// The negation of an edge.
    pub fn not(&self, a: Edge) -> Edge
        ensures { result ≡ record { node = a.node; neg = not a.neg } }
    {
        Edge {
            node: a.node,
            neg: !a.neg,
        }
    }

    /// The edges of a gate, `None` exactly where the node is no gate.
    pub fn gate(&self, node: u64) -> Option<(Edge, Edge)>
        requires { node < length self.now }
        ensures { MatchOption result (gate_at self.now node ≡ None) (λ pair. gate_at self.now node ≡ Some (record { left = pair.0; right = pair.1 })) }
    {
        let nodes = self.nodes.as_slice();
        if node == 0 {
            return None;
        }
        match nodes[node as usize - 1] {
            Some(gate) => Some((gate.left, gate.right)),
            None => None,
        }
    }

    /// The number of gates.
    pub fn len(&self) -> u64
        ensures { result ≡ count_by is_some self.now }
    {
        self.nodes.iter().filter(|gate| gate.is_some()).count() as u64
    }

    /// The number of nodes, the constant at 0 among them.
    pub fn nodes(&self) -> u64
        ensures is { result ≡ length self.now }
        ensures graph { IsGraph self.now }
        ensures few { result < 2 ^ 63 }
    {
        self.nodes.len() as u64 + 1
    }

    fn find(&self, wanted: Gate) -> Option<u64>
        ensures found { IfSome result (λ k. (k < length self.now) × (gate_at self.now k ≡ Some wanted)) }
        ensures none { (k : ℕ) → k < length self.now → gate_at self.now k ≡ Some wanted → result ≡ Some k }
    {
        self.shared.get(&wanted).copied()
    }

    // A further gate, unlike those that stand there.
    fn add(&mut self, gate: Gate) -> Result<Edge, NoMemory>
        requires some { 0 < gate.left.node }
        requires rise { gate.left.node < gate.right.node }
        requires within { gate.right.node < length self.old }
        requires fresh { (k : ℕ) → k < length self.old → gate_at self.old k ≢ Some gate }
        ensures kept { OnErr result (self.new ≡ self.old) }
        ensures is { OnOk result (self.new ≡ self.old ++ Some gate ∷ []) }
        ensures edge { IfOk result (λ e. e ≡ record { node = length self.old; neg = false }) }
    {
        // Room for one more than is needed: a graph has fewer than 2^63 nodes.
        self.nodes.reserve(2)?;
        let node = self.nodes.len() as u64 + 1;
        match self.shared.insert(gate, node) {
            Ok(_) => {
                self.nodes.push_reserved(Some(gate));
                Ok(Edge { node, neg: false })
            }
            Err(_) => Err(NoMemory),
        }
    }

    // The edge of the gate that joins these edges, with no further gate where one stands there.
    fn joined(&mut self, wanted: Gate) -> Result<Edge, NoMemory>
        requires some { 0 < wanted.left.node }
        requires rise { wanted.left.node < wanted.right.node }
        requires within { wanted.right.node < length self.old }
        ensures kept { OnErr result (self.new ≡ self.old) }
        ensures shares { (k : ℕ) → k < length self.old → gate_at self.old k ≡ Some wanted → (result ≡ Ok (record { node = k; neg = false })) × (self.new ≡ self.old) }
        ensures makes { ((k : ℕ) → k < length self.old → gate_at self.old k ≢ Some wanted) → IfOk result (λ e. (e ≡ record { node = length self.old; neg = false }) × (self.new ≡ self.old ++ Some wanted ∷ [])) }
        ensures gives { IfOk result (λ e. Gives self.old self.new e (λ values. edge_bit values wanted.left && edge_bit values wanted.right)) }
    {
        match self.find(wanted) {
            Some(node) => Ok(Edge { node, neg: false }),
            None => self.add(wanted),
        }
    }

    /// An edge whose value is both. No gate is made where an edge is constant, equal to the other or its negation
    /// (`folded`), nor where a gate joins the same two edges, in either order (`ordered`).
    pub fn and(&mut self, a: Edge, b: Edge) -> Result<Edge, NoMemory>
        requires a { a.node < length self.old }
        requires b { b.node < length self.old }
        ensures kept { OnErr result (self.new ≡ self.old) }
        ensures folds { (e : Edge) → folded a b ≡ Some e → (result ≡ Ok e) × (self.new ≡ self.old) }
        ensures shares { folded a b ≡ None → (k : ℕ) → k < length self.old → gate_at self.old k ≡ Some (ordered a b) → (result ≡ Ok (record { node = k; neg = false })) × (self.new ≡ self.old) }
        ensures makes { folded a b ≡ None → ((k : ℕ) → k < length self.old → gate_at self.old k ≢ Some (ordered a b)) → IfOk result (λ e. (e ≡ record { node = length self.old; neg = false }) × (self.new ≡ self.old ++ Some (ordered a b) ∷ [])) }
        ensures gives { IfOk result (λ e. Gives self.old self.new e (λ values. edge_bit values a && edge_bit values b)) }
    {
        let _ = self.nodes.len();
        let zero = self.zero();
        if a.node == b.node {
            return Ok(if a.neg == b.neg { a } else { zero });
        }
        if a.node == 0 {
            return Ok(if a.neg { b } else { zero });
        }
        if b.node == 0 {
            return Ok(if b.neg { a } else { zero });
        }
        if a.node < b.node {
            self.joined(Gate { left: a, right: b })
        } else {
            self.joined(Gate { left: b, right: a })
        }
    }
}
