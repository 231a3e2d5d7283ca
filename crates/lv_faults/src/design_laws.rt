//! Laws of a whole design: each function does nothing.
ghost use Rattle.std.specs.Prelude.{◌≡◌, true, [], Some, Contains};
ghost use Rattle.lv_ast.specs.declared.item.Module.{Module};
ghost use Rattle.lv_source.specs.Faults.{part_faults};
ghost use Rattle.lv_source.specs.Legal.{Kind, HoldsAt, NotConstant, places_of, at_parts, modules_again};
ghost use Rattle.lv_source.specs.Parts.{Design, scopes_of};
ghost use Rattle.lv_source.specs.Scopes.{Scope, module_named};
ghost use Rattle.lv_faults.specs.declared.fault.Fault.{Fault};
ghost use Rattle.lv_faults.specs.declared.fault.ScopeError.TheVariants as e;
ghost use Rattle.lv_faults.specs.Designs.{IsToldByParts};
ghost use Rattle.lv_faults.specs.Faults.{kind_of, place_of, is_scope_kind, IsFaultIn, IsFaultless};

/// Where the top names a module, no two modules have one name and no scope has a fault, what is told of the kinds of scopes is told of parts.
pub fn faultless_scopes()
    ensures { (d : Design) (m : Module) → module_named d.source d.top ≡ Some m → modules_again d.source.modules ≡ [] →
        ((s : Scope) → Contains (scopes_of d) s → IsFaultless d.source s) → IsToldByParts d }
{}

/// A fault in a scope of the design holds at the path of the scope.
pub fn faults_are_held()
    ensures { (d : Design) (s : Scope) (a : Fault) → Contains (scopes_of d) s → IsFaultIn d.source s (e.Fault a) →
        HoldsAt d (kind_of a) (record { path = s.path; place = place_of a }) }
{}

/// A design whose scopes have no fault has no index that is not constant in the target of a continuous assignment or of an output's connection.
pub fn faultless_scopes_have_fixed_targets()
    ensures { (d : Design) → ((s : Scope) → Contains (scopes_of d) s → IsFaultless d.source s) → at_parts d (part_faults d NotConstant) ≡ [] }
{}

/// So nothing is told of any kind that is told of scopes.
pub fn faultless_designs()
    ensures { (d : Design) (m : Module) → module_named d.source d.top ≡ Some m → modules_again d.source.modules ≡ [] →
        ((s : Scope) → Contains (scopes_of d) s → IsFaultless d.source s) → (kind : Kind) → is_scope_kind kind ≡ true → places_of d kind ≡ [] }
{}
