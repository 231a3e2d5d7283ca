ghost use Rattle.std.specs.Prelude.{◌≡◌, ℕ, ◌+◌, ◌<◌, ◌≤◌, length, IsSome, IfSome, OnOk, OnErr, IfOk, IsFalse, ◌↔◌};
ghost use Rattle.std.specs.List.{list_any};
ghost use Rattle.std.specs.Str.{bytes_eq};
ghost use Rattle.lv_bits.specs.Values.{result_width};
ghost use Rattle.lv_netlist.specs.Net.{Net, IsNet, IsRight, IsInner, IsNew, IsWidth, HoldsWord, HasNexts, node_at, width_at, input_name, input_width, register_at, register_name, node_width, register_of, no_nodes, with_node, with_input, with_register, with_next};

use crate::Graph;
use crate::node::{Node, Register, Typed};
use lv_bits::{NoMemory, Op, Text};
use std::alloc::Global;
use std::marker::Model;

/// A graph in the making. Contracts see its nodes, its inputs and its registers.
pub struct Builder {
    nodes: Vec<Typed>,
    // Names with widths, in lists and not in a table: no names can be chosen that collide.
    inputs: Vec<(Text, u32)>,
    registers: Vec<(Text, Register)>,
}

impl Model for Builder {
    ghost use Rattle.lv_netlist.specs.Net.{Net, IsNet};

    ghost Value = { Net };

    ghost view = { λ b. record { nodes = b.nodes.items; inputs = b.inputs.items; registers = b.registers.items } };

    ghost invariant = { λ b. IsNet (record { nodes = b.nodes.items; inputs = b.inputs.items; registers = b.registers.items }) };
}

impl Drop for Builder {
    fn drop(self) {
        let Builder {
            nodes,
            inputs,
            registers,
        } = self;
        drop(nodes);
        drop(inputs);
        drop(registers);
    }
}

// Whether one of these has the name.
fn is_named<T>(list: &[(Text, T)], name: &Text) -> bool
    ensures { result ≡ list_any (λ e. bytes_eq name.now e.0) list.now }
{
    list.iter().any(|e| *name == e.0)
}

impl Builder {
    /// No nodes.
    pub fn new(alloc: Global) -> Builder
        ensures { result ≡ no_nodes }
    {
        Builder {
            nodes: Vec::new(alloc),
            inputs: Vec::new(alloc),
            registers: Vec::new(alloc),
        }
    }

    /// Whether an input or a register has the name. It looks at each name.
    pub fn has(&self, name: &Text) -> bool
        ensures { IsFalse result ↔ IsNew self.now name.now }
    {
        is_named(self.inputs.as_slice(), name) || is_named(self.registers.as_slice(), name)
    }

    /// Adds an input of 1 to 128 bits, and gives its node. After `NoMemory` the builder is unchanged.
    pub fn input(&mut self, name: Text, width: u32) -> Result<u64, NoMemory>
        requires new { IsNew self.old name }
        requires width { IsWidth width }
        ensures kept { OnErr result (self.new ≡ self.old) }
        ensures is { OnOk result (self.new ≡ with_input self.old name width) }
        ensures number { IfOk result (λ at. at ≡ length self.old.nodes) }
    {
        self.nodes.reserve(1)?;
        self.inputs.reserve(1)?;
        let at = self.nodes.len() as u64;
        let node = Node::Input(self.inputs.len() as u64);
        self.inputs.push_reserved((name, width));
        self.nodes.push_reserved(Typed { node, width });
        Ok(at)
    }

    /// Adds a register of 1 to 128 bits, and gives its node. After `NoMemory` the builder is unchanged.
    pub fn register(&mut self, name: Text, width: u32) -> Result<u64, NoMemory>
        requires new { IsNew self.old name }
        requires width { IsWidth width }
        ensures kept { OnErr result (self.new ≡ self.old) }
        ensures is { OnOk result (self.new ≡ with_register self.old name width) }
        ensures number { IfOk result (λ at. at ≡ length self.old.nodes) }
    {
        self.nodes.reserve(1)?;
        self.registers.reserve(1)?;
        let at = self.nodes.len() as u64;
        let node = Node::Reg(self.registers.len() as u64);
        let next = None;
        self.registers
            .push_reserved((name, Register { width, next }));
        self.nodes.push_reserved(Typed { node, width });
        Ok(at)
    }

    fn width_at(&self, k: u64) -> u32
        requires { k < length self.now.nodes }
        ensures is { result ≡ width_at self.now.nodes k }
        ensures width { IsWidth result }
    {
        self.nodes[k as usize].width
    }

    fn op_width(&self, op: Op, a: u64) -> u32
        requires { a < length self.now.nodes }
        ensures is { result ≡ result_width op (width_at self.now.nodes a) }
        ensures width { IsWidth result }
    {
        if op.keeps_width() {
            self.width_at(a)
        } else {
            1
        }
    }

    fn node_width(&self, node: &Node) -> u32
        requires inner { IsInner node.now }
        requires right { IsRight self.now (length self.now.nodes) node.now }
        ensures is { result ≡ node_width self.now node.now }
        ensures width { IsWidth result }
        ensures word { HoldsWord node.now }
    {
        match *node {
            Node::Input(_) | Node::Reg(_) => unreachable!(),
            Node::Const(word) => {
                let _ = word.value();
                word.width()
            }
            Node::Un(op, a) => self.op_width(op, a),
            Node::Bin(op, a, _, _) => self.op_width(op, a),
            Node::Mux(_, a, _) => self.width_at(a),
            Node::Slice(a, _, width) => {
                let _ = self.width_at(a);
                width
            }
            Node::Cat(a, b) => self.width_at(a) + self.width_at(b),
            Node::Ext(a, width, _) => {
                let _ = self.width_at(a);
                width
            }
        }
    }

    /// Adds a node that is neither an input nor a register, and gives its number. After `NoMemory` the builder is unchanged.
    pub fn node(&mut self, node: Node) -> Result<u64, NoMemory>
        requires inner { IsInner node }
        requires right { IsRight self.old (length self.old.nodes) node }
        ensures kept { OnErr result (self.new ≡ self.old) }
        ensures is { OnOk result (self.new ≡ with_node self.old (record { node = node; width = node_width self.old node })) }
        ensures number { IfOk result (λ at. at ≡ length self.old.nodes) }
    {
        let width = self.node_width(&node);
        let at = self.nodes.len() as u64;
        self.nodes.reserve(1)?;
        self.nodes.push_reserved(Typed { node, width });
        Ok(at)
    }

    /// Makes `node` the next of the register that the node `register` is. It takes no memory.
    pub fn next(&mut self, register: u64, node: u64)
        requires is_register { (register < length self.old.nodes) × IsSome (register_of (node_at self.old.nodes register).node) }
        requires within { node < length self.old.nodes }
        requires same { width_at self.old.nodes register ≡ width_at self.old.nodes node }
        ensures { IfSome (register_of (node_at self.old.nodes register).node) (λ i. self.new ≡ with_next self.old i node) }
    {
        match self.nodes[register as usize].node {
            Node::Reg(at) => {
                let entry = &mut self.registers[at as usize];
                entry.1.next = Some(node);
            }
            _ => unreachable!(),
        }
    }

    /// The graph. It takes no memory.
    pub fn finish(self) -> Graph
        requires { HasNexts self }
        ensures { result ≡ self }
    {
        Graph::of(self)
    }

    /// The number of nodes.
    pub fn len(&self) -> u64
        ensures is { result ≡ length self.now.nodes }
        ensures net { IsNet self.now }
    {
        self.nodes.len() as u64
    }

    pub(crate) fn typed(&self, k: u64) -> &Typed
        requires { k < length self.now.nodes }
        ensures { result.now ≡ node_at self.now.nodes k }
    {
        &self.nodes[k as usize]
    }

    pub(crate) fn inputs(&self) -> u64
        ensures { result ≡ length self.now.inputs }
    {
        self.inputs.len() as u64
    }

    pub(crate) fn registers(&self) -> u64
        ensures { result ≡ length self.now.registers }
    {
        self.registers.len() as u64
    }

    pub(crate) fn input_at(&self, k: u64) -> (&Text, u32)
        requires { k < length self.now.inputs }
        ensures name { result.0.now ≡ input_name self.now k }
        ensures width { result.1 ≡ input_width self.now k }
    {
        let entry = &self.inputs[k as usize];
        (&entry.0, entry.1)
    }

    pub(crate) fn register_at(&self, k: u64) -> (&Text, Register)
        requires { k < length self.now.registers }
        ensures name { result.0.now ≡ register_name self.now k }
        ensures is { result.1 ≡ (register_at self.now.registers k).1 }
    {
        let entry = &self.registers[k as usize];
        (&entry.0, entry.1)
    }
}
