ghost use Rattle.std.specs.Prelude.{◌≡◌, ℕ, ◌<◌, length, IsTrue, OnOk};
ghost use Rattle.lv_clauses.specs.Literals.{has, negated};
ghost use Rattle.lv_trail.specs.Trail.{IsTrail, entry};
ghost use Rattle.lv_solver.specs.Seen.{kept};
ghost use Rattle.lv_solver.specs.Resolving.{IsDerived};
ghost use Rattle.lv_solver.specs.Learning.{AreFalse};

use crate::resolve::{reason_at, resolve};
use crate::seen::Seen;
use lv_bits::NoMemory;
use lv_trail::Trail;
use std::alloc::Global;
use std::collections::BinaryHeap;

/// Puts the places of what was seen behind the first `from` literals into a heap. Nothing is claimed of it: it only says where to look.
fn add_places(
    trail: &Trail,
    seen: &Seen,
    from: usize,
    places: &mut BinaryHeap<u64>,
) -> Result<(), NoMemory>
    requires sound { IsTrail trail.now }
    requires false_all { AreFalse trail.now seen.now.lits }
{
    let lits = seen.lits();
    for k in from..lits.len() {
        if let Some(place) = trail.place(lits[k].var()) {
            places.push(place)?;
        }
    }
    Ok(())
}

/// Resolves with the reason of the literal at place k, if it is seen and has one.
fn resolve_at(
    trail: &Trail,
    seen: &mut Seen,
    hints: &mut Vec<u64>,
    top: u64,
    k: u64,
) -> Result<(), NoMemory>
    requires sound { IsTrail trail.now }
    requires below { k < length trail.now.entries }
    requires derived { IsDerived trail.now seen.old hints.old.items }
    ensures { OnOk result (IsDerived trail.now seen.new hints.new.items) }
{
    let reason = reason_at(trail, k);
    if reason != 0 && seen.has(trail.at(k).var()) {
        resolve(trail, seen, hints, top, k, reason)?;
    }
    Ok(())
}

/// Resolves with the reasons of what is seen, the latest first. Only such places are looked at.
pub fn resolve_marked(
    alloc: Global,
    trail: &Trail,
    seen: &mut Seen,
    hints: &mut Vec<u64>,
    top: u64,
) -> Result<(), NoMemory>
    requires sound { IsTrail trail.now }
    requires derived { IsDerived trail.now seen.old hints.old.items }
    ensures { OnOk result (IsDerived trail.now seen.new hints.new.items) }
{
    let mut places = BinaryHeap::new(alloc);
    let mut known = 0;
    let len = trail.len();
    for _turn in 0..len {
        add_places(trail, seen, known, &mut places)?;
        known = seen.lits().len();
        let Some(k) = places.pop() else {
            return Ok(());
        };
        if k < len {
            resolve_at(trail, seen, hints, top, k)?;
        }
    }
    Ok(())
}

/// Whether all literals that are kept are negations of decisions.
pub fn are_decisions(trail: &Trail, seen: &Seen) -> bool
    requires sound { IsTrail trail.now }
    requires sized { length seen.now.turns ≡ trail.now.vars }
    requires false_all { AreFalse trail.now seen.now.lits }
    ensures { IsTrue result → (k : ℕ) → k < length trail.now.entries → IsTrue (has (kept seen.now) (negated (entry trail.now k).lit)) → (entry trail.now k).reason ≡ 0 }
{
    for x in seen.lits() {
        if seen.has(x.var()) && trail.reason(x.var()).is_some() {
            return false;
        }
    }
    true
}
