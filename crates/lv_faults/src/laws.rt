//! Laws: each function does nothing.
ghost use Rattle.std.specs.Prelude.{◌≡◌, ℕ, true, Contains};
ghost use Rattle.lv_ast.specs.declared.item.Item.{Item};
ghost use Rattle.lv_ast.specs.declared.item.Source.{Source};
ghost use Rattle.lv_source.specs.Declarations.{Declaration};
ghost use Rattle.lv_source.specs.Faults.{scope_faults};
ghost use Rattle.lv_source.specs.Legal.{Kind, Port};
ghost use Rattle.lv_source.specs.Parts.{numbered_from};
ghost use Rattle.lv_source.specs.ScopeRules.{port_directions};
ghost use Rattle.lv_source.specs.Scopes.{Scope, counted_items};
ghost use Rattle.lv_faults.specs.Faults.{item_faults, declaration_faults, is_scope_kind, IsFaultless, AreFaultlessItems, AreFaultlessDeclarations};

/// What is told of an item is told of its scope.
pub fn item_faults_are_told()
    ensures { (source : Source) (kind : Kind) (s : Scope) (x : ℕ × Item) (place : ℕ) → is_scope_kind kind ≡ true → Contains (counted_items s) x →
        Contains (item_faults source kind s x) place → Contains (scope_faults source kind s) place }
{}

/// What is told of a declaration is told of its scope.
pub fn declaration_faults_are_told()
    ensures { (source : Source) (kind : Kind) (s : Scope) (x : ℕ × Declaration) (place : ℕ) → is_scope_kind kind ≡ true →
        Contains (numbered_from 0 s.declarations) x → Contains (declaration_faults kind s x) place → Contains (scope_faults source kind s) place }
{}

/// So is what is told of the directions of its ports.
pub fn direction_faults_are_told()
    ensures { (source : Source) (s : Scope) (place : ℕ) → Contains (port_directions s) place → Contains (scope_faults source Port s) place }
{}

/// A scope of which nothing is told item by item and declaration by declaration has no fault.
pub fn faultless_items_and_declarations()
    ensures { (source : Source) (s : Scope) → AreFaultlessItems source s → AreFaultlessDeclarations s → IsFaultless source s }
{}
