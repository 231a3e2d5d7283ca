//! A law: the function does nothing.
ghost use Rattle.std.specs.Prelude.{◌≡◌, ℕ, ◌+◌, ◌++◌, List, length, take, flat_map};
ghost use Rattle.lv_source.specs.Scopes.{here_at};
ghost use Rattle.lv_const.specs.declared.consts.Entry.{Entry};
ghost use Rattle.lv_const.specs.Constants.{names_of};
ghost use Rattle.lv_const.specs.Wherever.{AreDeclared};
ghost use Rattle.lv_symbols.specs.Frames.{Frame, IsScope};
ghost use Rattle.lv_symbols.specs.Making.{parameters_in};
ghost use Rattle.lv_entries.specs.Entries.{value_entry};

/// The constants before a scope's declarations, with one for each parameter among the first so many, are those that are declared there.
pub fn values_are_prefixes()
    ensures { (f : Frame) (old new : List Entry) (k : ℕ) → IsScope f → AreDeclared (names_of old) (here_at f.scope 0) →
        AreDeclared (names_of new) (here_at f.scope (length f.scope.declarations)) →
        AreDeclared (names_of (take (length old + parameters_in (take k f.scope.declarations)) (old ++ flat_map (value_entry new) f.scope.declarations)))
        (here_at f.scope k) }
{}
