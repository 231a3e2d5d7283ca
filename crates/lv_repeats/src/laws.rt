//! A law: the function does nothing.
ghost use Rattle.std.specs.Prelude.{◌≡◌, true, None, Some, Contains};
ghost use Rattle.lv_ast.specs.declared.item.Module.{Module};
ghost use Rattle.lv_ast.specs.declared.stmt.Ident.{Ident};
ghost use Rattle.lv_ast.specs.Names.{alone};
ghost use Rattle.lv_source.specs.Names.{Declared};
ghost use Rattle.lv_source.specs.Declarations.{of_module, port_names};
ghost use Rattle.lv_source.specs.Parts.{is_declared_sort};
ghost use Rattle.lv_source.specs.Scopes.{Scope};
ghost use Rattle.lv_symbols.specs.Frames.{Frame, IsScope};
ghost use Rattle.lv_repeats.specs.Whole.{WholeAnswer};

/// In the scope of a module whose declarations are sound as a whole each port is a signal or a clock, and no array.
pub fn ports_are_signals()
    ensures { (s : Scope) (f : Frame) (m : Module) (q : Ident) → IsScope f → f.scope ≡ s → WholeAnswer s None → s.ports ≡ m.ports →
        s.declarations ≡ of_module m → Contains (port_names m.ports) q →
        (d : Declared) × (s.names (alone q.name) ≡ Some d) × (is_declared_sort d.sort ≡ true) × (d.array ≡ None) }
{}
