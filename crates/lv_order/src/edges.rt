ghost use Rattle.std.specs.Prelude.{◌≡◌, ◌↔◌, IsTrue};
ghost use Rattle.lv_order.specs.Graphs.{graph, IsGraph};
ghost use Rattle.lv_order.specs.Walks.{is_row};

/// Whether each edge leads to a vertex.
pub fn is_graph(edges: &[Vec<usize>]) -> bool
    ensures { IsTrue result ↔ IsGraph (graph edges.now) }
{
    for row in edges {
        if !is_row(row.as_slice(), edges.len()) {
            return false;
        }
    }
    true
}

fn is_row(row: &[usize], count: usize) -> bool
    ensures { result ≡ is_row count row.now }
{
    row.iter().all(|w| *w < count)
}
