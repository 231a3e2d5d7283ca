//! Laws of the parts of a flat design that have a clock: what their writes leave, one after another, where all read one valuation.
//! Each function below does nothing: its contract is the law.
#![tactic(auto)]

ghost use Rattle.std.specs.Prelude.{◌≡◌, List};
ghost use Rattle.lv_source.specs.Names.{Valuation};
ghost use Rattle.lv_source.specs.Places.{Bit, bit_at};
ghost use Rattle.lv_source.specs.Views.{next_view_bit};
ghost use Rattle.lv_flat.specs.declared.part.FlatPart.{FlatPart};
ghost use Rattle.lv_flat.specs.Cells.{all_cells, AreDistinct};
ghost use Rattle.lv_flat.specs.Signals.{Signals};
ghost use Rattle.lv_flat.specs.FlatViews.{flat_views};
ghost use Rattle.lv_settles.specs.Clocked.{AreOverlays};
ghost use Rattle.lv_settles.specs.Rules.{AreRight, signals_in};
ghost use Rattle.lv_overlays.specs.Writes.{overlays_of, all_writes_on};

/// The writes of a part with a clock, where no rule is broken: they leave the bits that the part doesn't drive, they do the same to
/// each bit whatever others there are, and of what the part reads they leave what the part leaves.
pub fn clocked_parts_are_overlays()
    ensures { (S : Signals) (ps : List FlatPart) (v : Valuation) → AreDistinct (all_cells S) → AreRight (signals_in S) (flat_views S ps) →
        AreOverlays v (overlays_of S v ps) }
{}

/// The writes of all parts with a clock, carried out one after another on what all parts read, leave the next state.
pub fn clocked_writes_give_next()
    ensures { (S : Signals) (ps : List FlatPart) (v : Valuation) → AreDistinct (all_cells S) → AreRight (signals_in S) (flat_views S ps) → (b : Bit) →
        bit_at (all_writes_on S ps v v) b ≡ next_view_bit (flat_views S ps) v b }
{}
