// The bits of marked signals.
ghost use Rattle.std.specs.Prelude.{◌≡◌, ℕ, ◌≤◌, ◌-◌, ◌^◌, true, None, ◌&&◌, ◌||◌, length, IfOk};
ghost use Rattle.lv_source.specs.Names.{is_signal_sort};
ghost use Rattle.lv_flat.specs.Cells.{AreDistinct, all_cells};
ghost use Rattle.lv_flat.specs.Signals.{Signals, declared, declared_all, signal_at};
ghost use Rattle.lv_spans.specs.Sets.{Cell, has, is_under, is_set};
ghost use Rattle.lv_spans.specs.Domain.{IsWithin};
ghost use Rattle.lv_reach.specs.Spreading.{is_marked, IsStart, whole_mask};

use lv_bits::NoMemory;
use lv_flat::{Signal, Sort};
use lv_spans::{BitSet, Span};
use std::alloc::Global;

pub(crate) fn is_marked(marks: &[bool], signal: u64) -> bool
    ensures { result ≡ is_marked marks.now signal }
{
    match marks.get(signal as usize) {
        Some(mark) => *mark,
        None => false,
    }
}

fn ones(width: u32) -> u128
    requires { width ≤ 128 }
    ensures { result ≡ 2 ^ width - 1 }
{
    if width == 128 {
        u128::MAX
    } else {
        (1u128 << width) - 1
    }
}

/// All bits of a signal.
pub(crate) fn whole(k: u64, signal: &Signal) -> Span
    ensures signal { result.signal ≡ k }
    ensures every { result.element ≡ None }
    ensures mask { result.mask ≡ whole_mask (declared signal.now) }
{
    let mask = ones(signal.width);
    Span {
        signal: k,
        element: None,
        mask,
    }
}

pub(crate) fn is_signal(signal: &Signal) -> bool
    ensures { result ≡ is_signal_sort (declared signal.now).sort }
{
    !matches!(signal.sort, Sort::Clock)
}

fn is_asked(marks: &[bool], k: u64, signal: &Signal) -> bool
    ensures { result ≡ (is_signal_sort (declared signal.now).sort && is_marked marks.now k) }
{
    is_signal(signal) && is_marked(marks, k)
}

/// With all bits of a signal, if this is asked for.
fn with_signal(set: BitSet, on: bool, k: u64, signal: &Signal) -> Result<BitSet, NoMemory>
    ensures added { IfOk result (λ r. (q : Cell) (i : ℕ) → has r q i ≡ (has set q i || (on && (is_under k None q && is_set (whole_mask (declared signal.now)) i)))) }
    ensures within { IfOk result (λ r. (S : Signals) → AreDistinct (all_cells S) → IsWithin S set → (on ≡ true → is_signal_sort (declared signal.now).sort ≡ true) →
        signal_at S k ≡ declared signal.now → IsWithin S r) }
{
    if on {
        let made = set.add(whole(k, signal))?;
        Ok(made)
    } else {
        Ok(set)
    }
}

/// The bits of the marked signals.
pub(crate) fn start(alloc: Global, signals: &[Signal], marks: &[bool]) -> Result<BitSet, NoMemory>
    requires { AreDistinct (all_cells (declared_all signals.now)) }
    ensures { IfOk result (IsStart (declared_all signals.now) marks.now) }
{
    let mut set = BitSet::new(alloc);
    for (k, signal) in signals.iter().enumerate() {
        let number = k as u64;
        let on = is_asked(marks, number, signal);
        set = with_signal(set, on, number, signal)?;
    }
    Ok(set)
}
