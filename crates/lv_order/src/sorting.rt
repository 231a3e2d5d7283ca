ghost use Rattle.std.specs.Prelude.{IfOk};
ghost use Rattle.lv_order.specs.Graphs.{graph, IsGraph, IsSorting};

use crate::ring::ring;
use crate::walk::Walk;
use lv_bits::NoMemory;
use std::alloc::Global;

/// How the vertices of a graph stand to one another.
#[derive(Drop)]
pub enum Sorting {
    /// Each vertex once, behind all that it has an edge to.
    Sorted(Vec<usize>),
    /// Distinct vertices, the least first: each has an edge to the next, and the last one to the first.
    Cycle(Vec<usize>),
}

/// All vertices of a graph, given by the vertices to which each has an edge, in order; or a cycle, exactly where there is one.
pub fn order(alloc: Global, edges: &[Vec<usize>]) -> Result<Sorting, NoMemory>
    requires { IsGraph (graph edges.now) }
    ensures { IfOk result (λ r. IsSorting (graph edges.now) r) }
{
    let mut walk = Walk::new(alloc, edges)?;
    match walk.run(edges)? {
        None => Ok(Sorting::Sorted(walk.into_list())),
        Some(v) => {
            let list = ring(alloc, walk.path(), v)?;
            Ok(Sorting::Cycle(list))
        }
    }
}
