// The sets.
ghost use Rattle.std.specs.Prelude.{◌≡◌, ◌<◌, ◌^◌, ℕ, true, false, ◌&&◌, ◌||◌, Some, None, OnOk, IfOk, length, unwrap_or, bit_or, max, min};
ghost use Rattle.std.specs.BTreeMap.{get};
ghost use Rattle.std.specs.Ordering.{nat_cmp};
ghost use Rattle.lv_source.specs.Names.{width_of};
ghost use Rattle.lv_flat.specs.Signals.{Signals, declared_all};
ghost use Rattle.lv_spans.specs.Sets.{Cell, order, own_at, mask_at, has, is_set, is_under};
ghost use Rattle.lv_spans.specs.Domain.{IsSpan, IsWithin, Meets, Exceeds};
ghost use Rattle.lv_spans.specs.Touched.{AreTouched};

use crate::span::Span;
use lv_bits::NoMemory;
use lv_flat::Signal;
use std::alloc::Global;
use std::collections::BTreeMap;
use std::marker::Model;

/// A set of bits: masks by signal and element. What stands under `None` is in each element of an array. Contracts see the masks.
#[derive(Drop)]
pub struct BitSet {
    masks: BTreeMap<(u64, Option<u64>), u128>,
    /// For each signal the places at which some cell has a bit.
    touched: BTreeMap<u64, u128>,
}

impl Model for BitSet {
    ghost use Rattle.lv_spans.specs.Sets.{Masks};
    ghost use Rattle.lv_spans.specs.Touched.{AreTouched};

    ghost Value = { Masks };

    ghost view = { λ s. s.masks.entries };

    ghost invariant = { λ s. AreTouched s.masks.entries s.touched };
}

fn own_mask(masks: &BTreeMap<(u64, Option<u64>), u128>, cell: (u64, Option<u64>)) -> u128
    ensures { result ≡ own_at masks.now.entries cell }
{
    match masks.get(&cell) {
        Some(mask) => *mask,
        None => 0,
    }
}

fn touched_mask(touched: &BTreeMap<u64, u128>, signal: u64) -> u128
    ensures { result ≡ unwrap_or (get nat_cmp touched.now signal) 0 }
{
    match touched.get(&signal) {
        Some(mask) => *mask,
        None => 0,
    }
}

impl BitSet {
    /// The empty set.
    pub fn new(alloc: Global) -> BitSet
        ensures none { (q : Cell) (i : ℕ) → has result q i ≡ false }
        ensures within { (S : Signals) → IsWithin S result }
    {
        BitSet {
            masks: BTreeMap::new(alloc),
            touched: BTreeMap::new(alloc),
        }
    }

    /// The mask of a cell: an element of an array, or with `None` a signal that is none.
    pub fn mask(&self, signal: u64, element: Option<u64>) -> u128
        ensures { result ≡ mask_at self.now (signal, element) }
    {
        own_mask(&self.masks, (signal, element)) | own_mask(&self.masks, (signal, None))
    }

    /// With the bits of a span too, in the time of a look-up.
    pub fn add(self, span: Span) -> Result<BitSet, NoMemory>
        ensures added { IfOk result (λ r. (q : Cell) (i : ℕ) → has r q i ≡ (has self q i || (is_under span.signal span.element q && is_set span.mask i))) }
        ensures within { IfOk result (λ r. (S : Signals) → IsWithin S self → IsSpan S span → IsWithin S r) }
    {
        let BitSet {
            mut masks,
            mut touched,
        } = self;
        let cell = (span.signal, span.element);
        let mask = own_mask(&masks, cell) | span.mask;
        let all = touched_mask(&touched, span.signal) | span.mask;
        masks.insert(cell, mask)?;
        touched.insert(span.signal, all)?;
        Ok(BitSet { masks, touched })
    }

    /// Whether some bit of the span is in the set, in the time of a look-up.
    pub fn meets(&self, span: Span) -> bool
        ensures meet { result ≡ true → (S : Signals) → IsWithin S self.now → IsSpan S span → Meets S self.now span }
        ensures apart { result ≡ false → (q : Cell) (i : ℕ) → (is_under span.signal span.element q && (is_set span.mask i && has self.now q i)) ≡ false }
    {
        match span.element {
            Some(_) => self.mask(span.signal, span.element) & span.mask != 0,
            None => touched_mask(&self.touched, span.signal) & span.mask != 0,
        }
    }
}
