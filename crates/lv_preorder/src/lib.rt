//! Laws of a walk over the scopes of a design, each before those below it. Each function does nothing: its contract is the law.
#![tactic(auto)]

ghost use Rattle.std.specs.Prelude.{◌≡◌, ℕ, suc, ◌+◌, ◌≤◌, ◌++◌, ◌∷◌, [], List, Some, map, length, flat_map, slice_get, Contains};
ghost use Rattle.lv_ast.specs.declared.item.Item.{Item};
ghost use Rattle.lv_ast.specs.declared.item.Module.{Module};
ghost use Rattle.lv_source.specs.Parts.{Design, top_scope, scopes_of};
ghost use Rattle.lv_source.specs.Preorder.{AreSomeItems};
ghost use Rattle.lv_source.specs.Scopes.{Scope, module_named, children_by, counted_items};
ghost use Rattle.lv_preorder.specs.Counted.{IsReached};
ghost use Rattle.lv_preorder.specs.Origins.{Below, IsTracked, AreBelow, Earlier, built, scope_at, scope_below};

/// The walk begins with the top, whose children wait.
pub fn walk_begins()
    ensures { (d : Design) (m : Module) (cs : List Below) → module_named d.source d.top ≡ Some m → AreBelow d (top_scope d m) [] cs →
        IsTracked d (top_scope d m) [] cs }
{}

/// The first that waits comes next, and then those below it before the others.
pub fn walk_goes_on()
    ensures { (d : Design) (top : Scope) (bs cs ws : List Below) (b : Below) → IsTracked d top bs (b ∷ ws) → AreBelow d top (bs ++ b ∷ []) cs →
        IsTracked d top (bs ++ b ∷ []) (cs ++ ws) }
{}

/// Where none waits these are all scopes.
pub fn walk_ends()
    ensures { (d : Design) (top : Scope) (bs : List Below) → IsTracked d top bs [] → built top bs ≡ scopes_of d }
{}

/// Each is the scope that it was built as.
pub fn scopes_are_below()
    ensures { (top : Scope) (bs : List Below) (k : ℕ) (b : Below) → Earlier 1 bs → slice_get bs k ≡ Some b →
        scope_at top (built top bs) (suc k) ≡ scope_below top (built top bs) b }
{}

/// The first that waits is reached.
pub fn next_is_reached()
    ensures { (d : Design) (top : Scope) (bs ws : List Below) (b : Below) → IsTracked d top bs (b ∷ ws) →
        IsReached d (built top bs) (scope_below top (built top bs) b) (map (scope_below top (built top bs)) ws) }
{}

/// The top is reached first.
pub fn top_is_reached()
    ensures { (d : Design) (m : Module) → module_named d.source d.top ≡ Some m → IsReached d [] (top_scope d m) [] }
{}

/// Scopes that are done, one that is reached, those that wait, and those below its first items are no more than all.
pub fn scopes_are_counted()
    ensures { (d : Design) (done waiting : List Scope) (s : Scope) (xs ys : List (ℕ × Item)) → IsReached d done s waiting → xs ++ ys ≡ counted_items s →
        length done + length waiting + length (flat_map (children_by d.source s) xs) + 1 ≤ length (scopes_of d) }
{}

/// What is counted of those that are done and of the first items of the one that is reached is no more than all.
pub fn items_are_counted()
    ensures { (d : Design) (done waiting : List Scope) (s : Scope) (xs ys : List Item) → IsReached d done s waiting → xs ++ ys ≡ s.items →
        AreSomeItems d done s xs }
{}

/// A scope that is reached is one of the design.
pub fn reached_is_there()
    ensures { (d : Design) (done waiting : List Scope) (s : Scope) → IsReached d done s waiting → Contains (scopes_of d) s }
{}
