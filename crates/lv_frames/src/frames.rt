//! Laws: each function does nothing.
ghost use Rattle.std.specs.Prelude.{◌≡◌, ℕ, Bool, List, [], ◌∷◌, ◌++◌, map, length, flat_map};
ghost use Rattle.lv_ast.specs.Names.{Name};
ghost use Rattle.lv_ast.specs.declared.stmt.Ident.{Ident};
ghost use Rattle.lv_ast.specs.declared.item.Item.{Item};
ghost use Rattle.lv_ast.specs.declared.item.Module.{Module};
ghost use Rattle.lv_source.specs.Names.{Names, Here};
ghost use Rattle.lv_source.specs.Declarations.{of_items, of_module};
ghost use Rattle.lv_source.specs.Scopes.{Scope, Override, module_scope, turn_scope, here_at};
ghost use Rattle.lv_source.specs.Constants.{hidden, index_entry};
ghost use Rattle.lv_const.specs.declared.consts.Entry.{Entry};
ghost use Rattle.lv_const.specs.Constants.{names_of};
ghost use Rattle.lv_const.specs.Wherever.{AreDeclared};
ghost use Rattle.lv_resolve.specs.Places.{with_all};
ghost use Rattle.lv_symbols.specs.declared.givens.Givens.{Givens};
ghost use Rattle.lv_symbols.specs.Giving.{AreOverrides};
ghost use Rattle.lv_symbols.specs.Frames.{Frame, IsScope, AreOnce, IsFrame, module_frame, turn_frame};
ghost use Rattle.lv_entries.specs.Entries.{declared_entries, value_entry};

/// No constant is declared before the declarations of a module.
pub fn modules_are_frames()
    ensures { (path : Name) (top : Bool) (around : List Name) (os : List Override) (clocks : Names → List Name) (m : Module) (outside : Here)
        (there : List Entry) (g : Givens) → AreOnce (of_module m) → AreDeclared (names_of there) outside → AreOverrides outside.names g os →
        IsFrame [] there g (of_module m) (module_frame path top around os clocks m outside) }
{}

/// Before the declarations of a turn those before the loop are declared, and the index; a name that the turn declares hides them.
pub fn turns_are_frames()
    ensures { (f : Frame) (k : ℕ) (index label : Ident) (items : List Item) (value : ℕ) (old es there : List Entry) (g : Givens) →
        IsScope f → AreOnce (of_items items) → AreDeclared (names_of es) (here_at f.scope k) →
        declared_entries old ≡ (declared_entries es ++ index_entry index.name value ∷ []) ++ map hidden (of_items items) →
        AreDeclared (names_of there) f.outside → AreOverrides f.outside.names g [] →
        IsFrame old there g (of_items items) (turn_frame f k index label items value) }
{}

/// The constants behind the last declaration of a module are all that it has.
pub fn all_of_a_module()
    ensures { (path : Name) (top : Bool) (around : List Name) (os : List Override) (clocks : Names → List Name) (m : Module) (es : List Entry) (k : ℕ) →
        AreDeclared (names_of es) (here_at (module_scope path top around os clocks m) (length (of_module m))) →
        AreDeclared (names_of es) (with_all (here_at (module_scope path top around os clocks m) k)) }
{}

/// All constants of the scope of a loop, the index, each name that a turn declares without a value and each parameter with the value that it
/// has behind the last declaration of the turn are all that the turn has.
pub fn all_of_a_turn()
    ensures { (s : Scope) (k : ℕ) (index label : Ident) (items : List Item) (value : ℕ) (outer before new : List Entry) (j : ℕ) →
        AreDeclared (names_of outer) (with_all (here_at s k)) →
        declared_entries before ≡ (declared_entries outer ++ index_entry index.name value ∷ []) ++ map hidden (of_items items) →
        AreDeclared (names_of new) (here_at (turn_scope s k index label items value) (length (of_items items))) →
        AreDeclared (names_of (before ++ flat_map (value_entry new) (of_items items))) (with_all (here_at (turn_scope s k index label items value) j)) }
{}
