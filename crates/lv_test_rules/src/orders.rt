use lv_order::{Sorting, is_graph, order};
use std::alloc::Global;
use std::test::Fail;

/// The vertices, and each edge.
fn graph(alloc: Global, count: usize, edges: &[(usize, usize)]) -> Result<Vec<Vec<usize>>, Fail> {
    let mut rows = Vec::new(alloc);
    for v in 0..count {
        let mut row = Vec::new(alloc);
        for edge in edges {
            if edge.0 == v {
                row.push(edge.1)?;
            }
        }
        rows.push(row)?;
    }
    Ok(rows)
}

/// Whether the vertices are sorted, and the list.
fn answer(alloc: Global, rows: &[Vec<usize>]) -> Result<(bool, Vec<usize>), Fail> {
    if !is_graph(rows) {
        return Err(Fail::from("an edge leads out of the graph"));
    }
    match order(alloc, rows)? {
        Sorting::Sorted(list) => Ok((true, list)),
        Sorting::Cycle(list) => Ok((false, list)),
    }
}

/// A graph's vertices and edges, whether it is sorted, and the list.
const ROWS: [(usize, &[(usize, usize)], bool, &[usize]); 11] = [
    (0, &[], true, &[]),
    (1, &[], true, &[0]),
    (3, &[], true, &[0, 1, 2]),
    (3, &[(0, 1), (1, 2)], true, &[2, 1, 0]),
    (4, &[(0, 1), (0, 2), (1, 3), (2, 3)], true, &[3, 1, 2, 0]),
    (2, &[(1, 0), (1, 0)], true, &[0, 1]),
    (1, &[(0, 0)], false, &[0]),
    (3, &[(0, 1), (2, 2)], false, &[2]),
    (2, &[(0, 1), (1, 0)], false, &[0, 1]),
    (4, &[(0, 3), (3, 2), (2, 1), (1, 3)], false, &[1, 3, 2]),
    (
        5,
        &[(4, 0), (0, 1), (1, 2), (2, 3), (3, 1), (1, 4)],
        false,
        &[1, 2, 3],
    ),
];

#[test]
fn orders(rt: HostRuntime) -> Result<(), Fail> {
    for (count, edges, sorted, list) in ROWS {
        let rows = graph(rt.alloc(), count, edges)?;
        let told = answer(rt.alloc(), rows.as_slice())?;
        if told.0 != sorted || told.1.as_slice() != list {
            return Err(Fail::from("another order"));
        }
    }
    Ok(())
}

const MANY: usize = 200_000;

/// A path through many vertices, and back to the first.
#[test]
fn long_paths(rt: HostRuntime) -> Result<(), Fail> {
    let mut rows = Vec::new(rt.alloc());
    for v in 0..MANY {
        let mut row = Vec::new(rt.alloc());
        row.push(v + 1)?;
        rows.push(row)?;
    }
    rows.push(Vec::new(rt.alloc()))?;
    let told = answer(rt.alloc(), rows.as_slice())?;
    if !told.0 || told.1.len() != MANY + 1 {
        return Err(Fail::from("the path is not sorted"));
    }
    let mut back = Vec::new(rt.alloc());
    back.push(0usize)?;
    let _ = rows.pop();
    rows.push(back)?;
    let told = answer(rt.alloc(), rows.as_slice())?;
    if told.0 || told.1.len() != MANY + 1 {
        return Err(Fail::from("the cycle is not found"));
    }
    Ok(())
}
