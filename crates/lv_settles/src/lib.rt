//! Laws of the parts of a flat design: what they leave, one after another in an order, is the one settled valuation. Each function
//! below does nothing: its contract is the law.
#![tactic(auto)]

ghost use Rattle.std.specs.Prelude.{◌≡◌, ℕ, List};
ghost use Rattle.lv_source.specs.Names.{Declared, Valuation};
ghost use Rattle.lv_source.specs.Places.{Bit, bit_at};
ghost use Rattle.lv_source.specs.Views.{View, IsViewSettled, next_view_bit};
ghost use Rattle.lv_flat.specs.declared.part.FlatPart.{FlatPart};
ghost use Rattle.lv_flat.specs.Cells.{all_cells, AreDistinct};
ghost use Rattle.lv_flat.specs.Signals.{Signals};
ghost use Rattle.lv_flat.specs.FlatViews.{flat_views};
ghost use Rattle.lv_settles.specs.Clocked.{Overlay, AreOverlays, views_in, overlaid};
ghost use Rattle.lv_settles.specs.Lawful.{AreLawful};
ghost use Rattle.lv_settles.specs.Orders.{IsOrder, carried};
ghost use Rattle.lv_settles.specs.Rules.{AreRight, AreApart, IsStart, SameStart, signals_in};

/// The parts of a flat design that break no rule leave the bits that they don't drive, and set those that they drive by the bits
/// that they read, if they have no clock; all drive bits of signals.
pub fn flat_parts_are_lawful()
    ensures { (S : Signals) (ps : List FlatPart) → AreDistinct (all_cells S) → AreRight (signals_in S) (flat_views S ps) →
        AreLawful (signals_in S) (flat_views S ps) }
{}

/// Signals whose cells have distinct names share no cell.
pub fn signals_are_apart()
    ensures { (S : Signals) → AreDistinct (all_cells S) → AreApart (signals_in S) }
{}

/// What the parts without a clock leave, one after another in an order, is settled, and has the registers and inputs that were
/// there at first.
pub fn order_settles()
    ensures settled { (ds : List Declared) (vs : List View) (order : List ℕ) (v : Valuation) → AreLawful ds vs → AreRight ds vs → AreApart ds → IsOrder vs order →
        IsStart ds vs v → IsViewSettled ds vs (carried vs order v) }
    ensures kept { (ds : List Declared) (vs : List View) (order : List ℕ) (v : Valuation) → AreLawful ds vs → AreRight ds vs → AreApart ds → IsOrder vs order →
        IsStart ds vs v → SameStart ds vs v (carried vs order v) }
{}

/// Each settled valuation is what they leave of its registers and inputs.
pub fn settled_is_left()
    ensures { (ds : List Declared) (vs : List View) (order : List ℕ) (v w : Valuation) → AreLawful ds vs → AreRight ds vs → AreApart ds → IsOrder vs order →
        IsStart ds vs v → IsViewSettled ds vs w → SameStart ds vs v w → carried vs order v ≡ w }
{}

/// Where all parts with a clock read one valuation, and their writes are carried out one after another, each bit ends as the part
/// that drives it leaves it.
pub fn clocked_parts_give_next()
    ensures { (ds : List Declared) (ps : List Overlay) (v : Valuation) → AreRight ds (views_in ps) → AreOverlays v ps → (b : Bit) →
        bit_at (overlaid ps v) b ≡ next_view_bit (views_in ps) v b }
{}
