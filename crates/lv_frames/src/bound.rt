//! Laws: each function does nothing.
ghost use Rattle.std.specs.Prelude.{◌≡◌, ℕ, Bool, false, List, [], map};
ghost use Rattle.lv_ast.specs.Names.{Name};
ghost use Rattle.lv_ast.specs.declared.stmt.Ident.{Ident};
ghost use Rattle.lv_ast.specs.declared.item.Item.{Item};
ghost use Rattle.lv_ast.specs.declared.item.Module.{Module};
ghost use Rattle.lv_source.specs.Names.{Names, Here};
ghost use Rattle.lv_source.specs.Declarations.{Declaration, of_items, of_module};
ghost use Rattle.lv_source.specs.Scopes.{Override, is_among, no_names, with_parameters};
ghost use Rattle.lv_symbols.specs.declared.symbol.Symbol.{Symbol};
ghost use Rattle.lv_symbols.specs.Making.{symbol_of};
ghost use Rattle.lv_symbols.specs.Frames.{Frame, IsScope, AreOnce, AreSoundIn, constants_in, module_frame, turn_frame};
ghost use Rattle.lv_bindings.specs.Order.{Outside};
ghost use Rattle.lv_bindings.specs.Made.{AreNarrow};
ghost use Rattle.lv_bindings.specs.Bound.{IsBound};

/// A vector of a declaration without a fault has at most 128 bits.
pub fn symbols_are_narrow()
    ensures { (f : Frame) (ds : List Declaration) (ys : List Symbol) → f.scope.declarations ≡ ds → ys ≡ map (symbol_of f.scope.names) ds →
        AreSoundIn f ds → AreNarrow ys }
{}

/// The clocks of a module are those of its inputs of one bit to which a clock is connected.
pub fn modules_are_bound()
    ensures { (o : Outside) (path : Name) (top : Bool) (around : List Name) (os : List Override) (clocks : Names → List Name) (m : Module)
        (outside : Here) (ys : List Symbol) → AreOnce (of_module m) → o.path ≡ path → o.top ≡ top →
        ((name : Name) → is_among (clocks (constants_in (module_frame path top around os clocks m outside))) name ≡ is_among o.connected name) →
        ys ≡ map (symbol_of (constants_in (module_frame path top around os clocks m outside))) (of_module m) →
        IsBound o (of_module m) ys (module_frame path top around os clocks m outside) }
{}

/// A turn of a loop has no clocks of its own.
pub fn turns_are_bound()
    ensures { (o : Outside) (f : Frame) (k : ℕ) (index label : Ident) (items : List Item) (value : ℕ) (ys : List Symbol) →
        IsScope f → AreOnce (of_items items) → o.path ≡ (turn_frame f k index label items value).scope.path → o.top ≡ false → o.connected ≡ [] →
        ys ≡ map (symbol_of (constants_in (turn_frame f k index label items value))) (of_items items) →
        IsBound o (of_items items) ys (turn_frame f k index label items value) }
{}
