// Sets of bits, span by span.
ghost use Rattle.std.specs.Prelude.{◌≡◌, ℕ, true, false, ◌&&◌, ◌||◌, IfOk, All};
ghost use Rattle.lv_flat.specs.Signals.{Signals};
ghost use Rattle.lv_spans.specs.Sets.{Cell, has};
ghost use Rattle.lv_spans.specs.Domain.{IsSpan, IsWithin, spans_have};
ghost use Rattle.lv_reach.specs.Spreading.{MeetsSome};

use lv_bits::NoMemory;
use lv_spans::{BitSet, Span};

/// With the bits of these spans too.
pub(crate) fn with_spans(set: BitSet, spans: &[Span]) -> Result<BitSet, NoMemory>
    ensures added { IfOk result (λ r. (q : Cell) (i : ℕ) → has r q i ≡ (has set q i || spans_have spans.now q i)) }
    ensures within { IfOk result (λ r. (S : Signals) → IsWithin S set → All (IsSpan S) spans.now → IsWithin S r) }
{
    let mut made = set;
    for s in spans {
        made = made.add(*s)?;
    }
    Ok(made)
}

/// Whether the set has some bit of these spans.
pub(crate) fn meets(set: &BitSet, spans: &[Span]) -> bool
    ensures meet { result ≡ true → (S : Signals) → IsWithin S set.now → All (IsSpan S) spans.now → MeetsSome S set.now spans.now }
    ensures apart { result ≡ false → (q : Cell) (i : ℕ) → (spans_have spans.now q i && has set.now q i) ≡ false }
{
    for s in spans {
        if set.meets(*s) {
            return true;
        }
    }
    false
}
