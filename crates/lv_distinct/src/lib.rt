//! The cells of a design's signals have names of their own.
#![tactic(auto)]

ghost use Rattle.std.specs.Prelude.{◌≡◌, [], true};
ghost use Rattle.lv_ast.specs.PlainNames.{HasPlainNames};
ghost use Rattle.lv_source.specs.Parts.{Design, declared_of};
ghost use Rattle.lv_source.specs.Limits.{IsWithinLimits};
ghost use Rattle.lv_source.specs.Legal.{places_of, Duplicate};
ghost use Rattle.lv_flat.specs.Cells.{AreDistinct, all_cells};
ghost use Rattle.lv_flat.specs.Signals.{declared_all, bounds_of};
ghost use Rattle.lv_distinct.specs.Small.{is_small, are_small};

use lv_flat::Signal;

fn bounds_are_small(array: Option<(u32, u32)>)
    ensures { is_small (bounds_of array) ≡ true }
{
    match array {
        None => {}
        Some(_) => {}
    }
}

fn arrays_are_small(signals: &[Signal])
    ensures { are_small signals.now ≡ true }
{
    for signal in signals {
        bounds_are_small(signal.array);
    }
}

/// No two cells of a design's signals have one name, where none is declared twice in a scope, within the limits, and no name has a
/// space inside, as none has that tokens spell (IEEE 1364-2005, section 12.5). It changes nothing: its contract is a law.
pub fn cells_are_distinct(signals: &[Signal])
    ensures { (d : Design) → HasPlainNames d.source → IsWithinLimits d → places_of d Duplicate ≡ [] → declared_all signals.now ≡ declared_of d →
        AreDistinct (all_cells (declared_all signals.now)) }
{
    arrays_are_small(signals)
}
