//! What the parts of a legal source drive. Each function does nothing: its contract is the law.
#![tactic(auto)]

ghost use Rattle.std.specs.Prelude.{ℕ, ◌≡◌, ◌<◌, true, Some, slice_get};
ghost use Rattle.lv_ast.specs.PlainNames.{HasPlainNames};
ghost use Rattle.lv_source.specs.Places.{Bit, has_bit};
ghost use Rattle.lv_source.specs.Parts.{Design, Part, parts, drives, width_at};
ghost use Rattle.lv_source.specs.Legal.{IsLegal};

/// Each bit that a part drives, with a clock or without, is one of a declared signal.
pub fn parts_drive_signals()
    ensures { (d : Design) → IsLegal d → HasPlainNames d.source → (k : ℕ) (p : Part) (b : Bit) → slice_get (parts d) k ≡ Some p →
        has_bit (drives p) b ≡ true → b.place < width_at d b.name }
{}
