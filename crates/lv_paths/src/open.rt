ghost use Rattle.std.specs.Prelude.{◌≡◌, ◌≤◌, ◌<◌, ◌^◌, ℕ, true, false, not, ◌&&◌, ◌||◌, ◌∷◌, Some, All, List};
ghost use Rattle.lv_source.specs.Places.{Bit};
ghost use Rattle.lv_flat.specs.Signals.{declared_all};
ghost use Rattle.lv_spans.specs.Sets.{Cell};
ghost use Rattle.lv_spans.specs.Domain.{is_bit, IsSpan, AreSpansOf};
ghost use Rattle.lv_paths.specs.Bits.{is_open_bit, is_cell_open, IsElementOpen, IsOpen, IsExposed};

use crate::done::{Done, mask_of};
use lv_flat::Signal;
use lv_lower_exprs::signal_of;
use lv_spans::{BitSet, Span};

/// Whether some bit of the mask of a cell is written and not done.
fn is_cell_open(
    written: &BitSet,
    done: &Done,
    signal: u64,
    element: Option<u64>,
    mask: u128,
) -> bool
    ensures { result ≡ is_cell_open written.now done.now.entries mask (signal, element) }
{
    let bits = written.mask(signal, element) & mask;
    let rest = bits ^ (bits & mask_of(done, (signal, element)));
    rest != 0
}

/// Whether some bit of the mask of one of the elements is.
fn is_element_open(
    written: &BitSet,
    done: &Done,
    signal: u64,
    low: u64,
    end: u64,
    mask: u128,
) -> bool
    ensures open { result ≡ true → IsElementOpen written.now done.now.entries mask signal low end }
    ensures shut { result ≡ false → (e : ℕ) → low ≤ e → e < end → is_cell_open written.now done.now.entries mask (signal, Some e) ≡ false }
{
    for e in low..end {
        if is_cell_open(written, done, signal, Some(e), mask) {
            return true;
        }
    }
    false
}

/// Whether some bit of a span is written in the block and not done. Of a whole array the elements are gone through up to the first
/// that has such a bit.
fn is_open(signals: &[Signal], written: &BitSet, done: &Done, span: Span) -> bool
    requires { IsSpan (declared_all signals.now) span }
    ensures open { result ≡ true → IsOpen (declared_all signals.now) written.now done.now.entries span }
    ensures shut { result ≡ false → (q : Cell) (i : ℕ) → is_bit (declared_all signals.now) q i ≡ true → is_open_bit written.now done.now.entries span q i ≡ false }
{
    let k = span.signal;
    match span.element {
        Some(e) => is_cell_open(written, done, k, Some(e), span.mask),
        None => match signal_of(signals, k).array {
            None => is_cell_open(written, done, k, None, span.mask),
            Some((left, right)) => {
                let low = u64::from(left.min(right));
                let end = u64::from(left.max(right)) + 1;
                is_element_open(written, done, k, low, end, span.mask)
            }
        },
    }
}

/// Whether one of the spans has such a bit, or it is known already.
pub(crate) fn are_open(
    signals: &[Signal],
    written: &BitSet,
    done: &Done,
    spans: &[Span],
    already: bool,
) -> bool
    requires { All (IsSpan (declared_all signals.now)) spans.now }
    ensures { (bits : List Bit) → AreSpansOf (declared_all signals.now) bits spans.now → IsExposed (declared_all signals.now) written.now done.now.entries already result bits }
{
    if already {
        return true;
    }
    for span in spans {
        if is_open(signals, written, done, *span) {
            return true;
        }
    }
    false
}
