ghost use Rattle.std.specs.Prelude.{◌≡◌, ℕ, ◌+◌, ◌<◌, length, IfOk};
ghost use Rattle.std.specs.List.{AllByRecursion};
ghost use Rattle.lv_model.specs.Meeting.{cycles_of};
ghost use Rattle.lv_unroll.specs.Wires.{is_on};
ghost use Rattle.lv_unroll.specs.Unrolls.{IsCopy};
ghost use Rattle.lv_unroll.specs.Agreements.{GivesFact};
ghost use Rattle.lv_product.specs.declared.task.Query.TheVariants.{Base, Step};
ghost use Rattle.lv_product.specs.Queries.{asked};
ghost use Rattle.lv_product.specs.Meets.{AreHolding, CopiesMeet, cycles_by};
ghost use Rattle.lv_switched.specs.Switches.{switched_on, AreSwitches, HasSwitches};

use crate::guards::all_guarded;
use lv_bits::NoMemory;
use lv_netlist::Builder;
use lv_product::goals::{alike, initial_pair, next_aligned, unless};
use lv_product::{Query, Task};
use lv_unroll::{Nodes, both};
use std::alloc::Global;

// A node that is 1 where both copies are alike in the cycles 0 to b and all candidates hold at first whose switches aren't 0.
fn holding(
    alloc: Global,
    b: &mut Builder,
    task: &Task,
    from: u64,
    left: &[Nodes],
    right: &[Nodes],
    aligned: u64,
) -> Result<u64, NoMemory>
    requires left { AllByRecursion (IsCopy b.old task.now.graph) left.now }
    requires right { AllByRecursion (IsCopy b.old task.now.graph) right.now }
    requires many { task.now.lookahead < length left.now }
    requires same { length left.now ≡ length right.now }
    requires switches { AreSwitches b.old from (length task.now.candidates.items) }
    requires aligned { aligned < length b.old.nodes }
    ensures { IfOk result (λ at.
        GivesFact b.old b.new at (λ ws.
        AreHolding task.now (switched_on from (length task.now.candidates.items) ws) (cycles_by b.old left.now ws) (cycles_by b.old right.now ws) (is_on b.old ws aligned))) }
{
    let seen = task.lookahead as usize + 1;
    let ls = &left[..seen];
    let rs = &right[..seen];
    let alike = alike(alloc, b, task, ls, rs, aligned)?;
    let first = &left[0];
    let second = &right[0];
    let l = first.list.as_slice();
    let r = second.list.as_slice();
    let cs = task.candidates.as_slice();
    let hold = all_guarded(b, &task.graph, cs, from, l, r, aligned)?;
    let at = both(b, alike, hold)?;
    Ok(at)
}

fn base(
    b: &mut Builder,
    task: &Task,
    from: u64,
    left: &[Nodes],
    right: &[Nodes],
    aligned: u64,
) -> Result<u64, NoMemory>
    requires left { AllByRecursion (IsCopy b.old task.now.graph) left.now }
    requires right { AllByRecursion (IsCopy b.old task.now.graph) right.now }
    requires many { 0 < length left.now }
    requires same { length left.now ≡ length right.now }
    requires switches { AreSwitches b.old from (length task.now.candidates.items) }
    requires aligned { aligned < length b.old.nodes }
    ensures { IfOk result (λ at.
        GivesFact b.old b.new at (λ ws. CopiesMeet b.old task.now (switched_on from (length task.now.candidates.items) ws) Base left.now right.now aligned ws)) }
{
    let first = &left[0];
    let second = &right[0];
    let l = first.list.as_slice();
    let r = second.list.as_slice();
    let initial = initial_pair(b, task, l, r)?;
    let cs = task.candidates.as_slice();
    let hold = all_guarded(b, &task.graph, cs, from, l, r, aligned)?;
    let start = both(b, initial, aligned)?;
    let at = unless(b, start, hold)?;
    Ok(at)
}

fn step(
    alloc: Global,
    b: &mut Builder,
    task: &Task,
    from: u64,
    left: &[Nodes],
    right: &[Nodes],
    aligned: u64,
) -> Result<u64, NoMemory>
    requires left { AllByRecursion (IsCopy b.old task.now.graph) left.now }
    requires right { AllByRecursion (IsCopy b.old task.now.graph) right.now }
    requires many { task.now.lookahead + 1 < length left.now }
    requires same { length left.now ≡ length right.now }
    requires switches { AreSwitches b.old from (length task.now.candidates.items) }
    requires aligned { aligned < length b.old.nodes }
    ensures { IfOk result (λ at.
        GivesFact b.old b.new at (λ ws. CopiesMeet b.old task.now (switched_on from (length task.now.candidates.items) ws) Step left.now right.now aligned ws)) }
{
    let holding = holding(alloc, b, task, from, left, right, aligned)?;
    let first = &left[0];
    let second = &right[0];
    let l = first.list.as_slice();
    let r = second.list.as_slice();
    let after = next_aligned(alloc, b, task, l, r, aligned)?;
    let third = &left[1];
    let fourth = &right[1];
    let x = third.list.as_slice();
    let y = fourth.list.as_slice();
    let cs = task.candidates.as_slice();
    let hold = all_guarded(b, &task.graph, cs, from, x, y, after)?;
    let at = unless(b, holding, hold)?;
    Ok(at)
}

/// A node that is 1 where the copies meet the query, for the candidates whose switches aren't 0.
///
/// Both copies have a table for each cycle of the query.
pub fn goal(
    alloc: Global,
    b: &mut Builder,
    task: &Task,
    from: u64,
    query: Query,
    left: &[Nodes],
    right: &[Nodes],
    aligned: u64,
) -> Result<u64, NoMemory>
    requires query { HasSwitches query }
    requires left { AllByRecursion (IsCopy b.old task.now.graph) left.now }
    requires right { AllByRecursion (IsCopy b.old task.now.graph) right.now }
    requires many { length left.now ≡ cycles_of (asked query) task.now.lookahead }
    requires same { length left.now ≡ length right.now }
    requires switches { AreSwitches b.old from (length task.now.candidates.items) }
    requires aligned { aligned < length b.old.nodes }
    ensures { IfOk result (λ at.
        GivesFact b.old b.new at (λ ws. CopiesMeet b.old task.now (switched_on from (length task.now.candidates.items) ws) query left.now right.now aligned ws)) }
{
    match query {
        Query::Base => {
            let at = base(b, task, from, left, right, aligned)?;
            Ok(at)
        }
        Query::Step => {
            let at = step(alloc, b, task, from, left, right, aligned)?;
            Ok(at)
        }
        Query::Initial | Query::Allowed | Query::Imply => unreachable!(),
    }
}
