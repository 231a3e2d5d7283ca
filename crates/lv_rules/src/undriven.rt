// Bits that are read and that no part drives.
ghost use Rattle.std.specs.Prelude.{◌≡◌, ℕ, ◌<◌, true, List, length, slice_index, IfOk};
ghost use Rattle.std.specs.List.{list_any};
ghost use Rattle.lv_source.specs.Names.{is_variable_sort};
ghost use Rattle.lv_source.specs.Views.{View, undriven_views};
ghost use Rattle.lv_flat.specs.Cells.{AreDistinct, all_cells};
ghost use Rattle.lv_flat.specs.Signals.{declared_all, bounds_of, signal_at};
ghost use Rattle.lv_spans.specs.Sets.{Cell, has};
ghost use Rattle.lv_spans.specs.Domain.{spans_have};
ghost use Rattle.lv_extents.specs.Extents.{AreExtents};
ghost use Rattle.lv_rules.specs.Rules.{unclocked, IsToldBy};
ghost use Rattle.lv_rules.specs.Wires.{is_wired, IsLacking, IsCommon, AreCommon, LacksSpan, LacksSome, IsUndriven};

use crate::marks::Class;
use crate::told::Told;
use crate::{marks, sets, ways};
use lv_bits::NoMemory;
use lv_extents::Extent;
use lv_flat::{Signal, Sort};
use lv_spans::{BitSet, Span};
use std::alloc::Global;

/// Whether the mask has a bit that the other one lacks.
fn lacks(mask: u128, covered: u128) -> bool
    ensures { IsLacking mask covered result }
{
    let rest = mask ^ (mask & covered);
    if rest == 0 {
        return false;
    }
    true
}

/// The bits that all elements have.
fn common_elements(driven: &BitSet, k: u64, bounds: (u32, u32)) -> u128
    ensures { IsCommon driven.now k (bounds_of (Some bounds)) result }
{
    let low = u64::from(bounds.0.min(bounds.1));
    let high = u64::from(bounds.0.max(bounds.1));
    let mut mask = driven.mask(k, Some(low));
    for e in low + 1..high + 1 {
        mask = mask & driven.mask(k, Some(e));
    }
    mask
}

/// The bits that all cells of a signal have.
fn common(driven: &BitSet, k: u64, array: Option<(u32, u32)>) -> u128
    ensures { IsCommon driven.now k (bounds_of array) result }
{
    match array {
        None => driven.mask(k, None),
        Some(bounds) => common_elements(driven, k, bounds),
    }
}

fn common_if(on: bool, driven: &BitSet, k: u64, array: Option<(u32, u32)>) -> u128
    ensures { on ≡ true → IsCommon driven.now k (bounds_of array) result }
{
    if on { common(driven, k, array) } else { 0 }
}

/// A net, or a variable that a combinational block drives.
fn is_wired(signals: &[Signal], comb: &[bool], k: u64) -> bool
    ensures { result ≡ is_wired (declared_all signals.now) comb.now k }
{
    match ways::sort_at(signals, k) {
        Some(Sort::Input) => false,
        Some(Sort::Variable) => marks::is_marked(comb, k),
        _ => true,
    }
}

/// Of each signal the bits that all its cells have, where it is wired.
fn commons(
    alloc: Global,
    signals: &[Signal],
    comb: &[bool],
    driven: &BitSet,
) -> Result<Vec<u128>, NoMemory>
    ensures { IfOk result (λ r. AreCommon (declared_all signals.now) comb.now driven.now r.items) }
{
    let mut masks = Vec::new(alloc);
    for (k, signal) in signals.iter().enumerate() {
        let number = k as u64;
        let mask = common_if(
            is_wired(signals, comb, number),
            driven,
            number,
            signal.array,
        );
        masks.push(mask)?;
    }
    Ok(masks)
}

fn mask_at(masks: &[u128], k: u64) -> u128
    ensures { result ≡ slice_index masks.now k }
{
    match masks.get(k as usize) {
        Some(mask) => *mask,
        None => 0,
    }
}

/// The span is of a wired signal, and has a bit that no part drives.
fn lacks_span(signals: &[Signal], comb: &[bool], driven: &BitSet, masks: &[u128], s: Span) -> bool
    requires { AreCommon (declared_all signals.now) comb.now driven.now masks.now }
    ensures { LacksSpan (declared_all signals.now) comb.now driven.now s result }
{
    if !is_wired(signals, comb, s.signal) {
        return false;
    }
    match s.element {
        Some(e) => lacks(s.mask, driven.mask(s.signal, Some(e))),
        None => lacks(s.mask, mask_at(masks, s.signal)),
    }
}

fn lacks_some(
    signals: &[Signal],
    comb: &[bool],
    driven: &BitSet,
    masks: &[u128],
    spans: &[Span],
) -> bool
    requires { AreCommon (declared_all signals.now) comb.now driven.now masks.now }
    ensures { LacksSome (declared_all signals.now) comb.now driven.now spans.now result }
{
    for s in spans {
        if lacks_span(signals, comb, driven, masks, *s) {
            return true;
        }
    }
    false
}

/// The bits that parts drive.
fn all_driven(alloc: Global, extents: &[Extent]) -> Result<BitSet, NoMemory>
    ensures { IfOk result (λ r. (q : Cell) (i : ℕ) → has r q i ≡ list_any (λ x. spans_have x.drives q i) extents.now) }
{
    let mut driven = BitSet::new(alloc);
    for x in extents {
        driven = sets::with_spans(driven, x.drives.as_slice())?;
    }
    Ok(driven)
}

fn first_lacking(
    signals: &[Signal],
    comb: &[bool],
    driven: &BitSet,
    masks: &[u128],
    extents: &[Extent],
) -> Option<Told>
    requires { AreCommon (declared_all signals.now) comb.now driven.now masks.now }
    ensures { IsUndriven (declared_all signals.now) comb.now driven.now extents.now result }
{
    for (part, x) in extents.iter().enumerate() {
        if lacks_some(signals, comb, driven, masks, x.reads.as_slice()) {
            return Some(Told {
                part,
                place: x.place,
            });
        }
    }
    None
}

/// A part of which Undriven is told, and where; none exactly where it is told of none.
pub fn first_undriven(
    alloc: Global,
    signals: &[Signal],
    extents: &[Extent],
) -> Result<Option<Told>, NoMemory>
    requires { AreDistinct (all_cells (declared_all signals.now)) }
    ensures { IfOk result (λ r. IsToldBy (declared_all signals.now) extents.now (undriven_views (unclocked (declared_all signals.now))) r) }
{
    let comb = marks::driven_by(alloc, signals.len(), extents, Class::Combinational)?;
    let driven = all_driven(alloc, extents)?;
    let masks = commons(alloc, signals, comb.as_slice(), &driven)?;
    let r = first_lacking(signals, comb.as_slice(), &driven, masks.as_slice(), extents);
    Ok(r)
}
