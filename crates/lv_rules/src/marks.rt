// Signals that are marked, by number.
ghost use Rattle.std.specs.Prelude.{◌≡◌, ℕ, ◌<◌, true, ◌&&◌, ◌||◌, length, slice_set, IfOk};
ghost use Rattle.std.specs.List.{list_any};
ghost use Rattle.lv_source.specs.Names.{is_variable_sort};
ghost use Rattle.lv_flat.specs.Signals.{declared_all, signal_at};
ghost use Rattle.lv_extents.specs.Extents.{way_of};
ghost use Rattle.lv_rules.specs.Rules.{sort_or};
ghost use Rattle.lv_rules.specs.Drives.{is_marked, names, is_of};

use crate::ways;
use lv_bits::NoMemory;
use lv_extents::{Extent, Way};
use lv_flat::{Signal, Sort};
use lv_spans::Span;
use std::alloc::Global;

/// Which parts are looked at.
#[derive(Clone, Copy)]
pub(crate) enum Class {
    Clocked,
    Unclocked,
    Combinational,
}

pub(crate) fn is_of(class: Class, way: Way) -> bool
    ensures { result ≡ is_of class (way_of way) }
{
    match class {
        Class::Clocked => ways::is_edge(way),
        Class::Unclocked => !ways::is_edge(way),
        Class::Combinational => ways::is_combinational(way),
    }
}

pub(crate) fn is_marked(marks: &[bool], signal: u64) -> bool
    ensures { result ≡ is_marked marks.now signal }
{
    match marks.get(signal as usize) {
        Some(mark) => *mark,
        None => false,
    }
}

fn with_mark(marks: Vec<bool>, signal: u64) -> Vec<bool>
    ensures { result.items ≡ slice_set marks.items signal true }
{
    let mut made = marks;
    let k = signal as usize;
    if k < made.len() {
        made[k] = true;
    }
    made
}

fn with_marks(marks: Vec<bool>, spans: &[Span]) -> Vec<bool>
    ensures len { length result.items ≡ length marks.items }
    ensures marked { (s : ℕ) → s < length marks.items → is_marked result.items s ≡ (is_marked marks.items s || names s spans.now) }
{
    let mut made = marks;
    for span in spans {
        made = with_mark(made, span.signal);
    }
    made
}

pub(crate) fn with_marks_if(on: bool, marks: Vec<bool>, spans: &[Span]) -> Vec<bool>
    ensures len { length result.items ≡ length marks.items }
    ensures marked { (s : ℕ) → s < length marks.items → is_marked result.items s ≡ (is_marked marks.items s || on && names s spans.now) }
{
    if on { with_marks(marks, spans) } else { marks }
}

/// The signals that parts of a class drive.
pub(crate) fn driven_by(
    alloc: Global,
    count: usize,
    extents: &[Extent],
    class: Class,
) -> Result<Vec<bool>, NoMemory>
    ensures { IfOk result (λ r. (s : ℕ) → s < count → is_marked r.items s ≡ list_any (λ x. is_of class (way_of x.way) && names s x.drives) extents.now) }
{
    let none = false;
    let mut marks = vec![in alloc; none; count]?;
    for x in extents {
        marks = with_marks_if(is_of(class, x.way), marks, x.drives.as_slice());
    }
    Ok(marks)
}

pub(crate) fn is_variable(sort: Option<Sort>) -> bool
    ensures { result ≡ is_variable_sort (sort_or sort) }
{
    match sort {
        Some(Sort::Variable) => true,
        _ => false,
    }
}

/// Some span is of a variable that is marked.
pub(crate) fn some_marked(signals: &[Signal], marks: &[bool], spans: &[Span]) -> bool
    ensures { result ≡ list_any (λ s. is_variable_sort (signal_at (declared_all signals.now) s.signal).sort && is_marked marks.now s.signal) spans.now }
{
    for s in spans {
        if is_variable(ways::sort_at(signals, s.signal)) && is_marked(marks, s.signal) {
            return true;
        }
    }
    false
}
