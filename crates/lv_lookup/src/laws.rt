//! Laws: each function does nothing.
ghost use Rattle.std.specs.Prelude.{◌≡◌, ℕ, ◌++◌, List};
ghost use Rattle.lv_source.specs.Names.{Declared};
ghost use Rattle.lv_source.specs.Scopes.{Scope, here_at};
ghost use Rattle.lv_const.specs.Constants.{names_of};
ghost use Rattle.lv_const.specs.Wherever.{AreDeclared};
ghost use Rattle.lv_const.specs.declared.consts.Entry.{Entry};
ghost use Rattle.lv_flat.specs.Signals.{Signals};
ghost use Rattle.lv_resolve.specs.Places.{with_all};
ghost use Rattle.lv_resolve.specs.Indices.{IsAt};
ghost use Rattle.lv_lookup.specs.declared.level.Level.{Level};
ghost use Rattle.lv_lookup.specs.Levels.{numbers_at, indices_at};
ghost use Rattle.lv_lookup.specs.Nested.{IsNested};

/// The names at a place of a scope are those of its level, with the constants that can be read there and those that are declared before.
pub fn places_are_at()
    ensures { (S : Signals) (levels : List Level) (at : ℕ) (s : Scope) (k : ℕ) (all early : List Entry) → IsNested S levels at s →
        AreDeclared (names_of all) (with_all (here_at s k)) → AreDeclared (names_of early) (here_at s k) →
        IsAt S (numbers_at levels at) (indices_at levels at) all early (here_at s k) }
{}

/// Further levels and signals change nothing for a scope.
pub fn levels_are_kept()
    ensures { (S more : List Declared) (levels others : List Level) (at : ℕ) (s : Scope) → IsNested S levels at s →
        IsNested (S ++ more) (levels ++ others) at s }
{}
