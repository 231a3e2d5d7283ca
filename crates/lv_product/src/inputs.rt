ghost use Rattle.std.specs.Prelude.{◌≡◌, ℕ, ◌+◌, ◌*◌, ◌^◌, ◌<◌, ◌++◌, length, IfOk};
ghost use Rattle.std.specs.List.{range_with_len};
ghost use Rattle.std.specs.Int.{w64, to_le_bytes};
ghost use Rattle.lv_netlist.specs.Queries.{register_widths, port_widths, product_widths};
ghost use Rattle.lv_product.specs.Opening.{AreWidths, Opens, ranges, lists_of};

use lv_bits::{NoMemory, Text};
use lv_netlist::{Builder, Graph};
use lv_unroll::Nodes;
use std::alloc::Global;

fn register_widths(alloc: Global, graph: &Graph) -> Result<Vec<u32>, NoMemory>
    ensures { IfOk result (λ widths. widths.items ≡ register_widths graph.now) }
{
    let mut widths = Vec::new(alloc);
    for k in 0..graph.registers() {
        let width = graph.register_width(k);
        widths.reserve(1)?;
        widths.push_reserved(width);
    }
    Ok(widths)
}

pub(crate) fn port_widths(alloc: Global, graph: &Graph) -> Result<Vec<u32>, NoMemory>
    ensures { IfOk result (λ widths. widths.items ≡ port_widths graph.now) }
{
    let mut widths = Vec::new(alloc);
    for k in 0..graph.inputs() {
        let width = graph.input_width(k);
        widths.reserve(1)?;
        widths.push_reserved(width);
    }
    Ok(widths)
}

fn joined(widths: Vec<u32>, more: &[u32]) -> Result<Vec<u32>, NoMemory>
    ensures { IfOk result (λ all. all.items ≡ widths.items ++ more.now) }
{
    let mut all = widths;
    all.extend_from_slice(more)?;
    Ok(all)
}

/// The widths of a query's words: the left registers, the right registers, the inputs of each cycle, and 1.
pub fn product_widths(alloc: Global, graph: &Graph, cycles: u64) -> Result<Vec<u32>, NoMemory>
    ensures is { IfOk result (λ widths. widths.items ≡ product_widths graph.now cycles) }
    ensures widths { IfOk result (λ widths. AreWidths widths.items) }
{
    let _ = graph.len();
    let registers = register_widths(alloc, graph)?;
    let ports = port_widths(alloc, graph)?;
    let r = registers.as_slice();
    let p = ports.as_slice();
    let first = Vec::from_slice(alloc, r)?;
    let mut all = joined(first, r)?;
    for _k in 0..cycles {
        all = joined(all, p)?;
    }
    all.reserve(1)?;
    all.push_reserved(1);
    Ok(all)
}

// The number as a name of eight bytes.
fn name_of(alloc: Global, number: u64) -> Result<Text, NoMemory>
    ensures { IfOk result (λ name. name ≡ to_le_bytes w64 number) }
{
    let bytes = number.to_le_bytes();
    let name = Text::new(alloc, &bytes)?;
    Ok(name)
}

/// A builder with an input of each of these widths and nothing else.
pub fn open(alloc: Global, widths: &[u32]) -> Result<Builder, NoMemory>
    requires { AreWidths widths.now }
    ensures { IfOk result (Opens widths.now) }
{
    let mut b = Builder::new(alloc);
    for k in 0..widths.len() as u64 {
        let name = name_of(alloc, k)?;
        b.input(name, widths[k as usize])?;
    }
    Ok(b)
}

/// The numbers from this one on, so many.
pub fn range(alloc: Global, from: u64, count: u64) -> Result<Vec<u64>, NoMemory>
    requires { from + count < 2 ^ 64 }
    ensures { IfOk result (λ nodes. nodes.items ≡ range_with_len from count) }
{
    let mut nodes = Vec::new(alloc);
    for k in 0..count {
        nodes.reserve(1)?;
        nodes.push_reserved(from + k);
    }
    Ok(nodes)
}

/// The nodes of each cycle's inputs, the first of them at `from`.
pub fn cycle_nodes(
    alloc: Global,
    from: u64,
    count: u64,
    cycles: u64,
) -> Result<Vec<Nodes>, NoMemory>
    requires { from + cycles * count < 2 ^ 64 }
    ensures { IfOk result (λ nodes. lists_of nodes.items ≡ ranges from count cycles) }
{
    let mut nodes = Vec::new(alloc);
    let mut at = from;
    for _k in 0..cycles {
        let list = range(alloc, at, count)?;
        nodes.reserve(1)?;
        nodes.push_reserved(Nodes { list });
        at += count;
    }
    Ok(nodes)
}
