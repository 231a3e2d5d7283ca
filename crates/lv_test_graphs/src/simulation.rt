//! Graphs that are checked as they are built, and their runs.
ghost use Rattle.std.specs.Prelude.{◌≡◌, ℕ, ◌<◌, ◌≤◌, length, IsTrue, IsFalse};
ghost use Rattle.lv_bits.specs.Values.{is_unary, is_apart};
ghost use Rattle.lv_netlist.specs.Net.{IsRight, IsInner, width_at};
ghost use Rattle.lv_netlist.specs.Fits.{FitsInputs, FitsState};

use crate::graphs::{add, add_input, empty, is_same};
use lv_bits::{Op, Text, Word};
use lv_netlist::{Builder, Graph, Node};
use lv_sim::Sim;
use std::alloc::Global;
use std::test::Fail;

/// A register that keeps its value.
fn add_register(alloc: Global, graph: Graph, name: &[u8], width: u32) -> Result<Graph, Fail> {
    let mut builder = graph.reopen();
    let name = Text::new(alloc, name)?;
    if builder.has(&name) || width == 0 || width > 128 {
        return Err(Fail::from("no such register"));
    }
    let at = builder.register(name, width)?;
    builder.next(at, at);
    Ok(builder.finish())
}

fn set_next(graph: Graph, register: u64, node: u64) -> Result<Graph, Fail> {
    if !is_same(&graph, register, node) {
        return Err(Fail::from("other widths"));
    }
    match graph.node(register) {
        Node::Reg(_) => {
            let mut builder = graph.reopen();
            builder.next(register, node);
            Ok(builder.finish())
        }
        _ => Err(Fail::from("no register")),
    }
}

fn fits_state(graph: &Graph, words: &[Word]) -> bool
    ensures { IsTrue result → FitsState graph.now words.now }
{
    if words.len() as u64 != graph.registers() {
        return false;
    }
    for k in 0..words.len() {
        if words[k].width() != graph.register_width(k as u64) {
            return false;
        }
    }
    true
}

fn fits_inputs(graph: &Graph, words: &[Word]) -> bool
    ensures { IsTrue result → FitsInputs graph.now words.now }
{
    if words.len() as u64 != graph.inputs() {
        return false;
    }
    for k in 0..words.len() {
        if words[k].width() != graph.input_width(k as u64) {
            return false;
        }
    }
    true
}

#[derive(Drop)]
struct Run {
    graph: Graph,
    sim: Sim,
    ghost fits: { FitsState graph sim.state },
    ghost room: { length sim.values ≡ length graph.nodes },
}

impl Run {
    fn new(alloc: Global, graph: Graph, state: &[Word]) -> Result<Run, Fail> {
        if !fits_state(&graph, state) {
            return Err(Fail::from("no such state"));
        }
        let sim = Sim::new(alloc, &graph, state)?;
        Ok(Run { graph, sim })
    }

    /// The value of a node in this cycle.
    fn cycle(&mut self, inputs: &[Word], show: u64) -> Result<u128, Fail> {
        if !fits_inputs(&self.graph, inputs) || self.graph.len() <= show {
            return Err(Fail::from("no such inputs"));
        }
        self.sim.settle(&self.graph, inputs);
        let word = self.sim.value(show);
        self.sim.step(&self.graph);
        Ok(word.value())
    }
}

/// A step of building a graph. Each but the last kind makes the next node.
#[derive(Clone, Copy)]
enum Step {
    Input(u32),
    Register(u32),
    Const(u32, u128),
    Inner(Node),
    Next(u64, u64),
}

/// The low bits of a number.
fn word(width: u32, value: u128) -> Option<Word> {
    if width == 0 || width > 128 {
        return None;
    }
    Some(Word::new(128, value).slice(0, width))
}

/// The k-th step. Names are letters.
fn grown(alloc: Global, graph: Graph, k: usize, step: Step) -> Result<Graph, Fail> {
    let name = [97 + (k % 26) as u8];
    match step {
        Step::Input(width) => add_input(alloc, graph, &name, width),
        Step::Register(width) => add_register(alloc, graph, &name, width),
        Step::Const(width, value) => {
            let Some(word) = word(width, value) else {
                return Err(Fail::from("no such word"));
            };
            add(graph, Node::Const(word))
        }
        Step::Inner(node) => add(graph, node),
        Step::Next(register, node) => set_next(graph, register, node),
    }
}

fn built(alloc: Global, steps: &[Step]) -> Result<Graph, Fail> {
    let mut graph = empty(alloc);
    for (k, step) in steps.iter().enumerate() {
        graph = grown(alloc, graph, k, *step)?;
    }
    Ok(graph)
}

/// The words of the registers with these values, or 0 past their end.
fn state_of(alloc: Global, graph: &Graph, values: &[u128]) -> Result<Vec<Word>, Fail> {
    let mut words = Vec::new(alloc);
    for k in 0..graph.registers() {
        let value = values.get(k as usize).copied().unwrap_or(0);
        let Some(word) = word(graph.register_width(k), value) else {
            return Err(Fail::from("no such word"));
        };
        words.push(word)?;
    }
    Ok(words)
}

/// The words of the inputs with these values, or 0 past their end.
fn inputs_of(alloc: Global, graph: &Graph, values: &[u128]) -> Result<Vec<Word>, Fail> {
    let mut words = Vec::new(alloc);
    for k in 0..graph.inputs() {
        let value = values.get(k as usize).copied().unwrap_or(0);
        let Some(word) = word(graph.input_width(k), value) else {
            return Err(Fail::from("no such word"));
        };
        words.push(word)?;
    }
    Ok(words)
}

/// Whether node `show` has in each cycle, under the inputs, the value beside them.
fn shows(
    alloc: Global,
    steps: &[Step],
    state: &[u128],
    show: u64,
    cycles: &[([u128; 2], u128)],
) -> Result<bool, Fail> {
    let graph = built(alloc, steps)?;
    let state = state_of(alloc, &graph, state)?;
    let mut run = Run::new(alloc, graph, state.as_slice())?;
    for (inputs, value) in cycles {
        let words = inputs_of(alloc, &run.graph, inputs.as_slice())?;
        if run.cycle(words.as_slice(), show)? != *value {
            return Ok(false);
        }
    }
    Ok(true)
}

const COUNTER: [Step; 4] = [
    Step::Register(8),
    Step::Const(8, 1),
    Step::Inner(Node::Bin(Op::Add, 0, 1, false)),
    Step::Next(0, 2),
];

const SHIFTER: [Step; 7] = [
    Step::Input(1),
    Step::Register(1),
    Step::Register(1),
    Step::Register(1),
    Step::Next(3, 2),
    Step::Next(2, 1),
    Step::Next(1, 0),
];

const MEMORY: [Step; 9] = [
    Step::Input(1),
    Step::Input(8),
    Step::Register(8),
    Step::Register(8),
    Step::Inner(Node::Mux(0, 2, 1)),
    Step::Inner(Node::Mux(0, 1, 3)),
    Step::Next(2, 4),
    Step::Next(3, 5),
    Step::Inner(Node::Cat(3, 2)),
];

const WIDE: [Step; 6] = [
    Step::Input(128),
    Step::Const(128, 1),
    Step::Inner(Node::Bin(Op::Add, 0, 1, false)),
    Step::Inner(Node::Slice(0, 120, 8)),
    Step::Inner(Node::Ext(3, 128, true)),
    Step::Inner(Node::Ext(3, 128, false)),
];

#[test]
fn runs_of_small_graphs(rt: HostRuntime) -> Result<(), Fail> {
    let alloc = rt.alloc();
    let counts = [([0, 0], 254), ([0, 0], 255), ([0, 0], 0), ([0, 0], 1)];
    assert!(rt; shows(alloc, &COUNTER, &[254], 0, &counts)?);
    let shifts = [
        ([1, 0], 0),
        ([0, 0], 0),
        ([1, 0], 0),
        ([1, 0], 1),
        ([0, 0], 0),
        ([0, 0], 1),
        ([0, 0], 1),
    ];
    assert!(rt; shows(alloc, &SHIFTER, &[0, 0, 0], 3, &shifts)?);
    let writes = [([0, 7], 0x0201), ([1, 9], 0x0207), ([1, 0], 0x0907)];
    assert!(rt; shows(alloc, &MEMORY, &[1, 2], 6, &writes)?);
    assert!(rt; shows(alloc, &WIDE, &[], 2, &[([u128::MAX, 0], 0)])?);
    assert!(rt; shows(alloc, &WIDE, &[], 4, &[([3 << 126, 0], u128::MAX - 63)])?);
    assert!(rt; shows(alloc, &WIDE, &[], 5, &[([3 << 126, 0], 192)])?);
    Ok(())
}

#[test]
fn long_chain(rt: HostRuntime) -> Result<(), Fail> {
    let alloc = rt.alloc();
    let mut graph = built(alloc, &[Step::Input(4)])?;
    for last in 0..100_001u64 {
        graph = add(graph, Node::Un(Op::Not, last))?;
    }
    let words = inputs_of(alloc, &graph, &[5])?;
    let mut run = Run::new(alloc, graph, &[])?;
    assert_eq!(rt; run.cycle(words.as_slice(), 100_001)?, 10);
    Ok(())
}
