ghost use Rattle.std.specs.Prelude.{◌≡◌, ℕ, ◌+◌, ◌<◌, ◌≤◌, ◌&&◌, not, length, map, IfOk};
ghost use Rattle.std.specs.List.{list_all, AllByRecursion};
ghost use Rattle.lv_model.specs.Machine.{aligned_after};
ghost use Rattle.lv_model.specs.Meeting.{cycles_of};
ghost use Rattle.lv_unroll.specs.Wires.{is_on, GivesTest};
ghost use Rattle.lv_unroll.specs.Unrolls.{words_in, IsCopy};
ghost use Rattle.lv_unroll.specs.Agreements.{GivesFact};
ghost use Rattle.lv_product.specs.Queries.{FitsKept, asked};
ghost use Rattle.lv_product.specs.Values.{value_machine, values_in, IsTableOf, AreNodes, is_met};
ghost use Rattle.lv_product.specs.Meets.{AreAlike, AreHolding, CopiesMeet, cycles_by};

use crate::moments::{all_hold, all_met, all_same};
use crate::task::{Kept, Query, Task};
use lv_bits::NoMemory;
use lv_netlist::{Builder, Graph};
use lv_unroll::{Nodes, agreement, always, both, either, matching, negated};
use std::alloc::Global;

/// A node that is 1 where x isn't 0 and y is.
pub fn unless(b: &mut Builder, x: u64, y: u64) -> Result<u64, NoMemory>
    requires left { x < length b.old.nodes }
    requires right { y < length b.old.nodes }
    ensures { IfOk result (λ at. GivesTest b.old b.new at (λ ws. is_on b.old ws x && not (is_on b.old ws y))) }
{
    let off = negated(b, y)?;
    let at = both(b, x, off)?;
    Ok(at)
}

/// A node that is 1 where both states are an initial pair.
pub fn initial_pair(
    b: &mut Builder,
    task: &Task,
    left: &[u64],
    right: &[u64],
) -> Result<u64, NoMemory>
    requires left { IsTableOf b.old task.now.graph left.now }
    requires right { IsTableOf b.old task.now.graph right.now }
    ensures { IfOk result (λ at.
        GivesFact b.old b.new at (λ ws. (value_machine task.now).IsInitialPair (values_in b.old left.now ws) (values_in b.old right.now ws))) }
{
    let same = all_same(b, &task.graph, task.equal.as_slice(), left, right)?;
    let first = all_met(b, &task.graph, task.each.as_slice(), left)?;
    let second = all_met(b, &task.graph, task.each.as_slice(), right)?;
    let each = both(b, first, second)?;
    let at = both(b, same, each)?;
    Ok(at)
}

// A node that is 1 where the inputs are allowed in this cycle.
fn allowed(b: &mut Builder, task: &Task, table: &[u64]) -> Result<u64, NoMemory>
    requires { IsTableOf b.old task.now.graph table.now }
    ensures { IfOk result (λ at. GivesFact b.old b.new at (λ ws. (value_machine task.now).IsAllowed (values_in b.old table.now ws))) }
{
    let at = all_met(b, &task.graph, task.assume.as_slice(), table)?;
    Ok(at)
}

// A node that is 1 where the inputs of all these cycles are allowed.
fn all_allowed(
    b: &mut Builder,
    graph: &Graph,
    assume: &[u64],
    tables: &[Nodes],
) -> Result<u64, NoMemory>
    requires tables { AllByRecursion (IsCopy b.old graph.now) tables.now }
    requires nodes { AreNodes graph.now assume.now }
    ensures { IfOk result (λ at. GivesTest b.old b.new at (λ ws. list_all (λ t. list_all (is_met (words_in b.old ws t)) assume.now) tables.now)) }
{
    let mut all = always(b)?;
    for k in 0..tables.len() {
        let table = &tables[k];
        let one = all_met(b, graph, assume, table.list.as_slice())?;
        all = both(b, all, one)?;
    }
    Ok(all)
}

/// A node that is 1 where what both copies show agrees, if they are aligned, and the inputs of all these cycles are allowed.
pub fn alike(
    alloc: Global,
    b: &mut Builder,
    task: &Task,
    left: &[Nodes],
    right: &[Nodes],
    aligned: u64,
) -> Result<u64, NoMemory>
    requires left { AllByRecursion (IsCopy b.old task.now.graph) left.now }
    requires right { AllByRecursion (IsCopy b.old task.now.graph) right.now }
    requires same { length left.now ≡ length right.now }
    requires aligned { aligned < length b.old.nodes }
    ensures { IfOk result (λ at.
        GivesFact b.old b.new at (λ ws. AreAlike task.now (cycles_by b.old left.now ws) (cycles_by b.old right.now ws) (is_on b.old ws aligned))) }
{
    let graph = &task.graph;
    let agree = agreement(alloc, b, graph, task.ports.as_slice(), left, right)?;
    let loose = negated(b, aligned)?;
    let kept = either(b, loose, agree)?;
    let first = all_allowed(b, graph, task.assume.as_slice(), left)?;
    let second = all_allowed(b, graph, task.assume.as_slice(), right)?;
    let allowed = both(b, first, second)?;
    let at = both(b, kept, allowed)?;
    Ok(at)
}

/// A node that isn't 0 where the next moment is aligned.
pub fn next_aligned(
    alloc: Global,
    b: &mut Builder,
    task: &Task,
    left: &[u64],
    right: &[u64],
    aligned: u64,
) -> Result<u64, NoMemory>
    requires left { IsTableOf b.old task.now.graph left.now }
    requires right { IsTableOf b.old task.now.graph right.now }
    requires aligned { aligned < length b.old.nodes }
    ensures { IfOk result (λ at.
        GivesTest b.old b.new at (λ ws.
        aligned_after (value_machine task.now) (values_in b.old left.now ws) (values_in b.old right.now ws) (is_on b.old ws aligned))) }
{
    let same = matching(alloc, b, task.ports.as_slice(), left, right)?;
    let at = both(b, aligned, same)?;
    Ok(at)
}

// A node that is 1 where both copies are alike in the cycles 0 to b and all candidates hold at first.
fn holding(
    alloc: Global,
    b: &mut Builder,
    task: &Task,
    kept: &Kept,
    left: &[Nodes],
    right: &[Nodes],
    aligned: u64,
) -> Result<u64, NoMemory>
    requires left { AllByRecursion (IsCopy b.old task.now.graph) left.now }
    requires right { AllByRecursion (IsCopy b.old task.now.graph) right.now }
    requires many { task.now.lookahead < length left.now }
    requires same { length left.now ≡ length right.now }
    requires kept { FitsKept task.now kept.now.numbers.items }
    requires aligned { aligned < length b.old.nodes }
    ensures { IfOk result (λ at.
        GivesFact b.old b.new at (λ ws.
        AreHolding task.now kept.now.numbers.items (cycles_by b.old left.now ws) (cycles_by b.old right.now ws) (is_on b.old ws aligned))) }
{
    let seen = task.lookahead as usize + 1;
    let ls = &left[..seen];
    let rs = &right[..seen];
    let alike = alike(alloc, b, task, ls, rs, aligned)?;
    let first = &left[0];
    let second = &right[0];
    let l = first.list.as_slice();
    let r = second.list.as_slice();
    let hold = all_hold(
        b,
        &task.graph,
        task.candidates.as_slice(),
        kept.numbers.as_slice(),
        l,
        r,
        aligned,
    )?;
    let at = both(b, alike, hold)?;
    Ok(at)
}

fn base(
    b: &mut Builder,
    task: &Task,
    kept: &Kept,
    left: &[Nodes],
    right: &[Nodes],
    aligned: u64,
) -> Result<u64, NoMemory>
    requires left { AllByRecursion (IsCopy b.old task.now.graph) left.now }
    requires right { AllByRecursion (IsCopy b.old task.now.graph) right.now }
    requires many { 0 < length left.now }
    requires same { length left.now ≡ length right.now }
    requires kept { FitsKept task.now kept.now.numbers.items }
    requires aligned { aligned < length b.old.nodes }
    ensures { IfOk result (λ at. GivesFact b.old b.new at (CopiesMeet b.old task.now kept.now.numbers.items Query.Base left.now right.now aligned)) }
{
    let first = &left[0];
    let second = &right[0];
    let l = first.list.as_slice();
    let r = second.list.as_slice();
    let initial = initial_pair(b, task, l, r)?;
    let hold = all_hold(
        b,
        &task.graph,
        task.candidates.as_slice(),
        kept.numbers.as_slice(),
        l,
        r,
        aligned,
    )?;
    let start = both(b, initial, aligned)?;
    let at = unless(b, start, hold)?;
    Ok(at)
}

fn step(
    alloc: Global,
    b: &mut Builder,
    task: &Task,
    kept: &Kept,
    left: &[Nodes],
    right: &[Nodes],
    aligned: u64,
) -> Result<u64, NoMemory>
    requires left { AllByRecursion (IsCopy b.old task.now.graph) left.now }
    requires right { AllByRecursion (IsCopy b.old task.now.graph) right.now }
    requires many { task.now.lookahead + 1 < length left.now }
    requires same { length left.now ≡ length right.now }
    requires kept { FitsKept task.now kept.now.numbers.items }
    requires aligned { aligned < length b.old.nodes }
    ensures { IfOk result (λ at. GivesFact b.old b.new at (CopiesMeet b.old task.now kept.now.numbers.items Query.Step left.now right.now aligned)) }
{
    let holding = holding(alloc, b, task, kept, left, right, aligned)?;
    let first = &left[0];
    let second = &right[0];
    let l = first.list.as_slice();
    let r = second.list.as_slice();
    let after = next_aligned(alloc, b, task, l, r, aligned)?;
    let third = &left[1];
    let fourth = &right[1];
    let x = third.list.as_slice();
    let y = fourth.list.as_slice();
    let hold = all_hold(
        b,
        &task.graph,
        task.candidates.as_slice(),
        kept.numbers.as_slice(),
        x,
        y,
        after,
    )?;
    let at = unless(b, holding, hold)?;
    Ok(at)
}

fn imply(
    alloc: Global,
    b: &mut Builder,
    task: &Task,
    kept: &Kept,
    left: &[Nodes],
    right: &[Nodes],
    aligned: u64,
) -> Result<u64, NoMemory>
    requires left { AllByRecursion (IsCopy b.old task.now.graph) left.now }
    requires right { AllByRecursion (IsCopy b.old task.now.graph) right.now }
    requires many { task.now.lookahead < length left.now }
    requires same { length left.now ≡ length right.now }
    requires kept { FitsKept task.now kept.now.numbers.items }
    requires aligned { aligned < length b.old.nodes }
    ensures { IfOk result (λ at. GivesFact b.old b.new at (CopiesMeet b.old task.now kept.now.numbers.items Query.Imply left.now right.now aligned)) }
{
    let holding = holding(alloc, b, task, kept, left, right, aligned)?;
    let first = &left[0];
    let second = &right[0];
    let l = first.list.as_slice();
    let r = second.list.as_slice();
    let same = all_same(b, &task.graph, task.attacker.as_slice(), l, r)?;
    let at = unless(b, holding, same)?;
    Ok(at)
}

/// A node that is 1 where the copies meet the query.
///
/// Both copies have a table for each cycle of the query.
pub(crate) fn goal(
    alloc: Global,
    b: &mut Builder,
    task: &Task,
    kept: &Kept,
    query: Query,
    left: &[Nodes],
    right: &[Nodes],
    aligned: u64,
) -> Result<u64, NoMemory>
    requires left { AllByRecursion (IsCopy b.old task.now.graph) left.now }
    requires right { AllByRecursion (IsCopy b.old task.now.graph) right.now }
    requires many { length left.now ≡ cycles_of (asked query) task.now.lookahead }
    requires same { length left.now ≡ length right.now }
    requires kept { FitsKept task.now kept.now.numbers.items }
    requires aligned { aligned < length b.old.nodes }
    ensures { IfOk result (λ at. GivesFact b.old b.new at (CopiesMeet b.old task.now kept.now.numbers.items query left.now right.now aligned)) }
{
    match query {
        Query::Initial => {
            let first = &left[0];
            let second = &right[0];
            let l = first.list.as_slice();
            let r = second.list.as_slice();
            let at = initial_pair(b, task, l, r)?;
            Ok(at)
        }
        Query::Allowed => {
            let first = &left[0];
            let l = first.list.as_slice();
            let at = allowed(b, task, l)?;
            Ok(at)
        }
        Query::Base => {
            let at = base(b, task, kept, left, right, aligned)?;
            Ok(at)
        }
        Query::Step => {
            let at = step(alloc, b, task, kept, left, right, aligned)?;
            Ok(at)
        }
        Query::Imply => {
            let at = imply(alloc, b, task, kept, left, right, aligned)?;
            Ok(at)
        }
    }
}
