ghost use Rattle.std.specs.Prelude.{◌≡◌, ◌<◌, length, IfOk, OnOk};
ghost use Rattle.lv_netlist.specs.Net.{width_at};
ghost use Rattle.lv_values.specs.Worlds.{IsIn};
ghost use Rattle.lv_lower_blocks.specs.Rewritten.{Muxes, AreAlike, Merges, Picks};

use lv_bits::NoMemory;
use lv_netlist::{Builder, Node};
use lv_values::Value;
use std::alloc::Global;

/// `x` where `c` isn't 0, else `y`.
#[tactic(auto, using(crate::proofs::Merging::mux_added))]
fn mux(b: &mut Builder, c: u64, x: u64, y: u64) -> Result<u64, NoMemory>
    requires c_in { c < length b.old.nodes }
    requires x_in { x < length b.old.nodes }
    requires y_in { y < length b.old.nodes }
    requires same { width_at b.old.nodes x ≡ width_at b.old.nodes y }
    ensures { IfOk result (λ m. Muxes b.old b.new c x y m) }
{
    let m = b.node(Node::Mux(c, x, y))?;
    Ok(m)
}

/// Makes the table that of a choice: as it is where `c` isn't 0, else the other one. A node is added for each place that differs.
pub(crate) fn merge(
    b: &mut Builder,
    c: u64,
    table: &mut [u64],
    other: &[u64],
) -> Result<(), NoMemory>
    requires c_in { c < length b.old.nodes }
    requires alike { AreAlike b.old table.old other.now }
    ensures { OnOk result (Merges b.old b.new c table.old other.now table.new) }
{
    for i in 0..table.len() {
        if table[i] != other[i] {
            let m = mux(b, c, table[i], other[i])?;
            table[i] = m;
        }
    }
    Ok(())
}

/// The same nodes once more.
pub(crate) fn copy(alloc: Global, table: &[u64]) -> Result<Vec<u64>, NoMemory>
    ensures { IfOk result (λ t. t.items ≡ table.now) }
{
    let mut copied = Vec::new(alloc);
    for k in table {
        copied.reserve(1)?;
        copied.push_reserved(*k);
    }
    Ok(copied)
}

/// The table that a choice makes of two.
fn merged(b: &mut Builder, c: u64, table: Vec<u64>, other: &[u64]) -> Result<Vec<u64>, NoMemory>
    requires c_in { c < length b.old.nodes }
    requires alike { AreAlike b.old table.items other.now }
    ensures { IfOk result (λ r. Merges b.old b.new c table.items other.now r.items) }
{
    let mut table = table;
    merge(b, c, table.as_mut_slice(), other)?;
    Ok(table)
}

/// The nodes of what reads see, and of what all writes leave.
#[derive(Drop)]
pub(crate) struct Tables {
    pub now: Vec<u64>,
    pub done: Vec<u64>,
}

/// Makes a table the other one.
pub(crate) fn fill(table: &mut [u64], other: &[u64])
    requires { length other.now ≡ length table.old }
    ensures { table.new ≡ other.now }
{
    for i in 0..table.len() {
        table[i] = other[i];
    }
}

/// `x` where `t` isn't 0, else `y`.
pub(crate) fn choose_tables(
    b: &mut Builder,
    t: Value,
    x: Tables,
    y: Tables,
) -> Result<Tables, NoMemory>
    requires t_in { IsIn b.old t }
    requires now { AreAlike b.old x.now.items y.now.items }
    requires done { AreAlike b.old x.done.items y.done.items }
    ensures now { IfOk result (λ r. Picks b.old b.new t x.now.items y.now.items r.now.items) }
    ensures done { IfOk result (λ r. Picks b.old b.new t x.done.items y.done.items r.done.items) }
{
    match t {
        Value::Known(word) => {
            if word.value() == 0 {
                return Ok(y);
            }
            Ok(x)
        }
        Value::Node(k, _) => {
            let Tables { now, done } = x;
            let now = merged(b, k, now, y.now.as_slice())?;
            let done = merged(b, k, done, y.done.as_slice())?;
            Ok(Tables { now, done })
        }
    }
}
