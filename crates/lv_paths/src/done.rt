ghost use Rattle.std.specs.Prelude.{◌≡◌, ℕ, not, ◌&&◌, ◌||◌, ◌++◌, IfOk, OnOk};
ghost use Rattle.lv_spans.specs.Sets.{Cell, own_at};
ghost use Rattle.lv_paths.specs.Bits.{holds, is_of, cells_have, some_span, surely_have, IsLogged, remains};

use lv_bits::NoMemory;
use lv_extents::Aim;
use lv_spans::Span;
use sqlite_items::Items;
use std::alloc::Global;
use std::collections::BTreeMap;

/// Bits that are written for sure on the way so far: masks by signal and element.
pub(crate) type Done = BTreeMap<(u64, Option<u64>), u128>;

pub(crate) fn mask_of(done: &Done, cell: (u64, Option<u64>)) -> u128
    ensures { result ≡ own_at done.now.entries cell }
{
    match done.get(&cell) {
        Some(mask) => *mask,
        None => 0,
    }
}

/// Adds a span, where it has a bit.
fn push_some(into: &mut Items<Span>, span: Span) -> Result<(), NoMemory>
    ensures { OnOk result (into.new ≡ into.old ++ some_span span) }
{
    if span.mask == 0 {
        return Ok(());
    }
    into.push(span)?;
    Ok(())
}

/// Adds the bits of a span of one cell, and to the log those that are new.
fn add_span(done: &mut Done, log: &mut Items<Span>, span: Span) -> Result<(), NoMemory>
    ensures done { OnOk result ((q : Cell) (i : ℕ) → holds done.new.entries q i ≡ (holds done.old.entries q i || is_of span q i)) }
    ensures logged { OnOk result (IsLogged done.old.entries done.new.entries log.old log.new) }
{
    let cell = (span.signal, span.element);
    let own = mask_of(done, cell);
    let all = own | span.mask;
    done.insert(cell, all)?;
    push_some(
        log,
        Span {
            signal: span.signal,
            element: span.element,
            mask: all ^ own,
        },
    )?;
    Ok(())
}

/// Adds the bits of spans of one cell each.
pub(crate) fn add_spans(
    done: &mut Done,
    log: &mut Items<Span>,
    spans: &[Span],
) -> Result<(), NoMemory>
    ensures done { OnOk result ((q : Cell) (i : ℕ) → holds done.new.entries q i ≡ (holds done.old.entries q i || cells_have spans.now q i)) }
    ensures logged { OnOk result (IsLogged done.old.entries done.new.entries log.old log.new) }
{
    for span in spans {
        add_span(done, log, *span)?;
    }
    Ok(())
}

/// Adds the bits of a name in a target, where it writes them for sure.
fn add_aim(done: &mut Done, log: &mut Items<Span>, aim: &Aim) -> Result<(), NoMemory>
    ensures done { OnOk result ((q : Cell) (i : ℕ) → holds done.new.entries q i ≡ (holds done.old.entries q i || (aim.now.sure && cells_have aim.now.bits q i))) }
    ensures logged { OnOk result (IsLogged done.old.entries done.new.entries log.old log.new) }
{
    if !aim.sure {
        return Ok(());
    }
    add_spans(done, log, aim.bits.as_slice())?;
    Ok(())
}

/// Adds the bits that a target writes for sure.
pub(crate) fn add_sure(done: &mut Done, log: &mut Items<Span>, aims: &[Aim]) -> Result<(), NoMemory>
    ensures done { OnOk result ((q : Cell) (i : ℕ) → holds done.new.entries q i ≡ (holds done.old.entries q i || surely_have aims.now q i)) }
    ensures logged { OnOk result (IsLogged done.old.entries done.new.entries log.old log.new) }
{
    for aim in aims {
        add_aim(done, log, aim)?;
    }
    Ok(())
}

/// Takes away the bits of a span of one cell.
fn take_span(done: &mut Done, span: Span) -> Result<(), NoMemory>
    ensures { OnOk result ((q : Cell) (i : ℕ) → holds done.new.entries q i ≡ (holds done.old.entries q i && not (is_of span q i))) }
{
    let cell = (span.signal, span.element);
    let own = mask_of(done, cell);
    done.insert(cell, own ^ (own & span.mask))?;
    Ok(())
}

/// Takes away what a log has.
fn undo(done: &mut Done, log: &[Span]) -> Result<(), NoMemory>
    ensures { OnOk result ((q : Cell) (i : ℕ) → holds done.new.entries q i ≡ (holds done.old.entries q i && not (cells_have log.now q i))) }
{
    for span in log {
        take_span(done, *span)?;
    }
    Ok(())
}

/// The bits of spans that are done.
fn kept(alloc: Global, done: &Done, spans: &[Span]) -> Result<Items<Span>, NoMemory>
    ensures { IfOk result (λ r. (q : Cell) (i : ℕ) → cells_have r q i ≡ (cells_have spans.now q i && holds done.now.entries q i)) }
{
    let mut rest = Items::new(alloc);
    for span in spans {
        let own = mask_of(done, (span.signal, span.element));
        push_some(
            &mut rest,
            Span {
                signal: span.signal,
                element: span.element,
                mask: span.mask & own,
            },
        )?;
    }
    Ok(rest)
}

/// Goes back to where a way began, by its log, and answers what all ways share so far. `shared` is none before the first.
///
/// What is left shrinks to what the way did, so that no way costs more than what it or the first one writes.
pub(crate) fn leave(
    alloc: Global,
    done: &mut Done,
    log: Items<Span>,
    shared: Option<Items<Span>>,
) -> Result<Items<Span>, NoMemory>
    ensures undone { OnOk result ((q : Cell) (i : ℕ) → holds done.new.entries q i ≡ (holds done.old.entries q i && not (cells_have log q i))) }
    ensures shared { IfOk result (λ r. (q : Cell) (i : ℕ) → cells_have r q i ≡ remains done.old.entries log shared q i) }
{
    match shared {
        None => {
            undo(done, log.as_slice())?;
            Ok(log)
        }
        Some(spans) => {
            let rest = kept(alloc, done, spans.as_slice())?;
            undo(done, log.as_slice())?;
            Ok(rest)
        }
    }
}
