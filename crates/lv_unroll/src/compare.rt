ghost use Rattle.std.specs.Prelude.{◌≡◌, ℕ, length, IfOk};
ghost use Rattle.std.specs.List.{AllByRecursion};
ghost use Rattle.lv_unroll.specs.Wires.{GivesTest};
ghost use Rattle.lv_unroll.specs.Entries.{ArePorts, IsTable};
ghost use Rattle.lv_unroll.specs.Unrolls.{IsCopy};
ghost use Rattle.lv_unroll.specs.Agreements.{RowsAgree, rows_match, GivesFact};

use crate::copies::Nodes;
use crate::rows::{Port, append_row};
use crate::slots::{agree, same_count};
use lv_bits::NoMemory;
use lv_netlist::{Builder, Graph};
use std::alloc::Global;

/// A node that is 1 where what both copies show in these cycles agrees, the k-th entry of the one with the k-th of the other,
/// as far as both go, else 0.
///
/// Both copies have a table for each of equally many cycles. All ports show equally many nodes.
pub fn agreement(
    alloc: Global,
    b: &mut Builder,
    graph: &Graph,
    ports: &[Port],
    left: &[Nodes],
    right: &[Nodes],
) -> Result<u64, NoMemory>
    requires ports { ArePorts (length graph.now.nodes) ports.now }
    requires left { AllByRecursion (IsCopy b.old graph.now) left.now }
    requires right { AllByRecursion (IsCopy b.old graph.now) right.now }
    requires same { length left.now ≡ length right.now }
    ensures { IfOk result (λ at. GivesFact b.old b.new at (RowsAgree b.old ports.now left.now right.now)) }
{
    let _ = graph.len();
    let mut ls = Vec::new(alloc);
    let mut rs = Vec::new(alloc);
    for k in 0..left.len() {
        let l = &left[k];
        let r = &right[k];
        ls = append_row(alloc, b, ls, ports, l.list.as_slice())?;
        rs = append_row(alloc, b, rs, ports, r.list.as_slice())?;
    }
    let at = agree(b, ls.as_slice(), rs.as_slice())?;
    Ok(at)
}

/// A node that is 1 where equally many ports retire in both copies of a cycle, else 0.
///
/// Each copy has its table, and both are equally long. All ports show equally many nodes.
pub fn matching(
    alloc: Global,
    b: &mut Builder,
    ports: &[Port],
    left: &[u64],
    right: &[u64],
) -> Result<u64, NoMemory>
    requires ports { ArePorts (length left.now) ports.now }
    requires left { IsTable b.old left.now }
    requires right { IsTable b.old right.now }
    requires same { length left.now ≡ length right.now }
    ensures { IfOk result (λ at. GivesTest b.old b.new at (rows_match b.old ports.now left.now right.now)) }
{
    let ls = append_row(alloc, b, Vec::new(alloc), ports, left)?;
    let rs = append_row(alloc, b, Vec::new(alloc), ports, right)?;
    let at = same_count(b, ls.as_slice(), rs.as_slice())?;
    Ok(at)
}
