//! Laws: each function does nothing.
ghost use Rattle.std.specs.Prelude.{◌≡◌, ℕ, ◌++◌, List, map, length, flat_map};
ghost use Rattle.lv_source.specs.Scopes.{Scope, here_at};
ghost use Rattle.lv_source.specs.Constants.{Around, hidden};
ghost use Rattle.lv_source.specs.Constants as source;
ghost use Rattle.lv_const.specs.declared.consts.Entry.{Entry};
ghost use Rattle.lv_const.specs.Constants.{names_of};
ghost use Rattle.lv_const.specs.Wherever.{AreDeclared};
ghost use Rattle.lv_entries.specs.Entries.{declared_entries, value_entry, AreEntries, entries_until};

/// The entries of a scope are the constants that are declared where they stand.
pub fn entries_are_declared()
    ensures { (around : List source.Entry) (s : Scope) (k : ℕ) (es : List Entry) → Around s around → AreEntries around s k es →
        AreDeclared (names_of es) (here_at s k) }
{}

/// Those of each of its places are the first of all.
pub fn entries_before_are_first()
    ensures { (around : List source.Entry) (s : Scope) (k : ℕ) (es : List Entry) → AreEntries around s (length s.declarations) es →
        AreEntries around s k (entries_until around s k es) }
{}

/// Entries around a scope, each declared name without a value and each parameter with its value are all entries of the scope.
pub fn values_are_entries()
    ensures { (around : List source.Entry) (s : Scope) (es cs : List Entry) → declared_entries es ≡ around ++ map hidden s.declarations →
        AreDeclared (names_of cs) (here_at s (length s.declarations)) →
        AreEntries around s (length s.declarations) (es ++ flat_map (value_entry cs) s.declarations) }
{}
