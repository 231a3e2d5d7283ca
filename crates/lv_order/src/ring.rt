// The cycle at the end of a path.
ghost use Rattle.std.specs.Prelude.{◌≡◌, ℕ, ◌<◌, ◌≤◌, true, ◌++◌, ◌∷◌, [], length, slice_index, take, drop, List, IfOk};
ghost use Rattle.lv_order.specs.Graphs.{has};
ghost use Rattle.lv_order.specs.Walks.{IsRing};

use lv_bits::NoMemory;
use std::alloc::Global;

/// The first place of a number in a list that has it.
fn place_of(list: &[usize], v: usize) -> usize
    requires { has list.now v ≡ true }
    ensures within { result < length list.now }
    ensures at { slice_index list.now result ≡ v }
{
    let mut at = 0;
    while at + 1 < list.len() {
        if list[at] == v {
            return at;
        }
        at += 1;
    }
    at
}

/// The place of the least number.
fn least(list: &[usize]) -> usize
    requires { 0 < length list.now }
    ensures within { result < length list.now }
    ensures least { (k : ℕ) → k < length list.now → slice_index list.now result ≤ slice_index list.now k }
{
    let mut best = 0;
    for k in 0..list.len() {
        if list[k] < list[best] {
            best = k;
        }
    }
    best
}

/// The end of the path from the vertex on, turned so that its least vertex is the first.
pub(crate) fn ring(alloc: Global, path: &[usize], v: usize) -> Result<Vec<usize>, NoMemory>
    requires { has path.now v ≡ true }
    ensures { IfOk result (λ r. IsRing path.now v r.items) }
{
    let end = &path[place_of(path, v)..];
    let at = least(end);
    let mut list = Vec::new(alloc);
    list.extend_from_slice(&end[at..])?;
    list.extend_from_slice(&end[..at])?;
    Ok(list)
}
