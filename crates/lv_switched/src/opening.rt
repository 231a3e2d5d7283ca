ghost use Rattle.std.specs.Prelude.{◌≡◌, ◌+◌, ◌*◌, ◌^◌, ◌<◌, ◌++◌, [], ◌∷◌, length, IfOk};
ghost use Rattle.lv_netlist.specs.Queries.{repeated};
ghost use Rattle.lv_product.specs.Opening.{AreWidths};
ghost use Rattle.lv_switched.specs.Opened.{AreOpened};

use lv_bits::NoMemory;
use lv_netlist::{Builder, Graph};
use lv_product::inputs::{cycle_nodes, open, product_widths, range};
use lv_unroll::Nodes;
use std::alloc::Global;

/// A builder with the inputs of a query and its switches, and the nodes of both states, of the inputs of each cycle, and of the
/// truth value of the first moment; the switches follow it.
#[derive(Drop)]
pub struct Opened {
    pub builder: Builder,
    pub left: Vec<u64>,
    pub right: Vec<u64>,
    pub inputs: Vec<Nodes>,
    pub aligned: u64,
}

// The widths, and 1 for each switch.
fn with_switches(widths: Vec<u32>, count: u64) -> Result<Vec<u32>, NoMemory>
    requires { AreWidths widths.items }
    ensures is { IfOk result (λ all. all.items ≡ widths.items ++ repeated count (1 ∷ [])) }
    ensures widths { IfOk result (λ all. AreWidths all.items) }
{
    let mut all = widths;
    for _k in 0..count {
        all.reserve(1)?;
        all.push_reserved(1);
    }
    Ok(all)
}

/// Opens all inputs.
pub fn open_all(alloc: Global, graph: &Graph, cycles: u64, count: u64) -> Result<Opened, NoMemory>
    ensures { IfOk result (λ o. AreOpened graph.now o.builder cycles count o.aligned o.left.items o.right.items o.inputs.items) }
{
    let first = product_widths(alloc, graph, cycles)?;
    let f = first.as_slice();
    let from = f.len() as u64;
    let widths = with_switches(first, count)?;
    let registers = graph.registers();
    let ports = graph.inputs();
    let start = registers + registers;
    let w = widths.as_slice();
    let builder = open(alloc, w)?;
    let left = range(alloc, 0, registers)?;
    let right = range(alloc, registers, registers)?;
    let inputs = cycle_nodes(alloc, start, ports, cycles)?;
    Ok(Opened {
        builder,
        left,
        right,
        inputs,
        aligned: from - 1,
    })
}
