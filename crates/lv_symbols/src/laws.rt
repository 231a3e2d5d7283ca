ghost use Rattle.std.specs.Prelude.{Bool, List, ℕ};
ghost use Rattle.lv_ast.specs.Names.{Name};
ghost use Rattle.lv_ast.specs.declared.stmt.Ident.{Ident};
ghost use Rattle.lv_ast.specs.declared.item.Item.{Item};
ghost use Rattle.lv_ast.specs.declared.item.Module.{Module};
ghost use Rattle.lv_source.specs.Names.{Names, Here};
ghost use Rattle.lv_source.specs.Declarations.{of_items, of_module};
ghost use Rattle.lv_source.specs.Scopes.{Override};
ghost use Rattle.lv_symbols.specs.Frames.{Frame, IsScope, AreOnce, module_frame, turn_frame};

/// Each module gives a scope with no constants around it, where the name of each of its parameters is declared once.
pub fn modules_are_scopes()
    ensures { (path : Name) (top : Bool) (around : List Name) (os : List Override) (clocks : Names → List Name) (m : Module) (outside : Here) →
        AreOnce (of_module m) → IsScope (module_frame path top around os clocks m outside) }
{}

/// Each turn of a loop in a scope gives a scope with the index and the constants of that scope around it.
pub fn turns_are_scopes()
    ensures { (f : Frame) (k : ℕ) (index label : Ident) (items : List Item) (value : ℕ) → IsScope f → AreOnce (of_items items) →
        IsScope (turn_frame f k index label items value) }
{}
