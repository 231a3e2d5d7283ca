// Signals that clocked parts write by `<=`.
ghost use Rattle.std.specs.Prelude.{◌≡◌, ℕ, ◌<◌, ◌&&◌, ◌||◌, not, length, IfOk};
ghost use Rattle.std.specs.List.{list_any};
ghost use Rattle.lv_source.specs.Views.{is_edge};
ghost use Rattle.lv_extents.specs.Extents.{way_of};
ghost use Rattle.lv_rules.specs.Drives.{is_marked};
ghost use Rattle.lv_rules.specs.Reads.{aims_name, steps_later};

use crate::{marks, ways};
use lv_bits::NoMemory;
use lv_extents::{Aim, Extent, Step};
use std::alloc::Global;

fn with_aims(on: bool, marks: Vec<bool>, aims: &[Aim]) -> Vec<bool>
    ensures len { length result.items ≡ length marks.items }
    ensures marked { (s : ℕ) → s < length marks.items → is_marked result.items s ≡ (is_marked marks.items s || on && aims_name s aims.now) }
{
    let mut made = marks;
    for a in aims {
        made = marks::with_marks_if(on, made, a.bits.as_slice());
    }
    made
}

fn with_steps(on: bool, marks: Vec<bool>, steps: &[Step]) -> Vec<bool>
    ensures len { length result.items ≡ length marks.items }
    ensures marked { (s : ℕ) → s < length marks.items → is_marked result.items s ≡ (is_marked marks.items s || on && steps_later s steps.now) }
{
    let mut made = marks;
    for s in steps {
        made = with_aims(on && !s.at_once, made, s.aims.as_slice());
    }
    made
}

/// The signals that clocked parts write by `<=`.
pub(crate) fn late_signals(
    alloc: Global,
    count: usize,
    extents: &[Extent],
) -> Result<Vec<bool>, NoMemory>
    ensures { IfOk result (λ r. (s : ℕ) → s < count → is_marked r.items s ≡ list_any (λ x. is_edge (way_of x.way) && steps_later s x.steps) extents.now) }
{
    let none = false;
    let mut marks = vec![in alloc; none; count]?;
    for x in extents {
        marks = with_steps(ways::is_edge(x.way), marks, x.steps.as_slice());
    }
    Ok(marks)
}
