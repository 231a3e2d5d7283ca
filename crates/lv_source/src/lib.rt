//! The meaning of expressions, statements and a whole source: names, values, effects, scopes, parts, settled valuations, runs,
//! refusals, limits and observers, after IEEE 1364-2005. Each function below does nothing: its contract is a law of these definitions.
#![tactic(auto)]

ghost use Rattle.std.specs.Prelude.{◌≡◌, false, ◌↔◌, ◌<◌, ◌^◌, ℕ, List, [], ◌∷◌, ◌++◌, Some, Contains, filter, bytes_eq};
ghost use Rattle.std.specs.List.{AllZip, IsDistinct, list_any};
ghost use Rattle.lv_ast.specs.Names.{Name, alone, spelled};
ghost use Rattle.lv_source.specs.Names.{Names, Declared, Valuation, known, is_clock_sort};
ghost use Rattle.lv_source.specs.Parts.{Design, At, top_scope, scopes_of, signals_of, declared_of, scope_declared, is_signal, registers_of, inputs_of, width_at};
ghost use Rattle.lv_source.specs.Settled.{IsSettled, Follows, SameOn, SameInputs, IsRun, StartAlike, HasApartSignals};
ghost use Rattle.lv_source.specs.Legal.{IsLegal, Kind, Port, ClockUse, Refusal, HoldsAt, refusals, places_of, top_clock};
ghost use Rattle.lv_source.specs.Limits.{IsWithinLimits};
ghost use Rattle.lv_source.specs.Flow.{flow, is_latch, is_read_first};
ghost use Rattle.lv_source.specs.Summary.{summary, leaves_latch, exposes_own};
ghost use Rattle.lv_source.specs.Places.{Bit};
ghost use Rattle.lv_source.specs.Views.{View, AreViewed, views_of, named_clocks, clock_views, unlisted_clock};
ghost use Rattle.lv_source.specs.Drivers.{Drivers, drivers, AreDriven};
ghost use Rattle.lv_source.specs.Scopes.{Scope, module_named, children, here_at};
ghost use Rattle.lv_source.specs.Constants.{Entry, Around, entry_names, entry_constants, early_constants};
ghost use Rattle.lv_ast.specs.declared.expr.Path.{Path};
ghost use Rattle.lv_source.specs.Preorder.{AreScopes, AreSome, AreSomeItems};
ghost use Rattle.lv_ast.specs.PlainNames.{HasPlainNames, has_space};
ghost use Rattle.lv_source.specs.Faults.{faults, scope_faults};
ghost use Rattle.lv_ast.specs.declared.item.Item.{Item};
ghost use Rattle.lv_ast.specs.declared.item.Module.{Module};
ghost use Rattle.lv_ast.specs.declared.stmt.Stmt.{Stmt};

/// A legal source has at most one settled valuation for each state and each input.
pub fn settled_valuation_is_one()
    ensures { (d : Design) (v w : Valuation) → IsLegal d → IsSettled d v → IsSettled d w → SameOn (registers_of d) v w → SameInputs d v w → v ≡ w }
{}

/// A legal source whose names have no space inside, as all have that tokens spell, has a settled valuation for each state and
/// each input.
pub fn settled_valuation_is_there()
    ensures { (d : Design) (s : Valuation) → IsLegal d → HasPlainNames d.source → ((name : Name) → s name < 2 ^ width_at d name) →
        (v : Valuation) × IsSettled d v × SameOn (registers_of d) v s × SameInputs d v s }
{}

/// The next registers depend on the settled valuation alone.
pub fn next_state_is_one()
    ensures { (d : Design) (v w u : Valuation) → IsSettled d w → IsSettled d u → Follows d v w → Follows d v u → SameOn (registers_of d) w u }
{}

/// A run of a legal source is determined by its first state and its inputs.
pub fn run_is_determined()
    ensures { (d : Design) (vs ws : List Valuation) → IsLegal d → IsRun d vs → IsRun d ws → StartAlike d vs ws → AllZip (SameInputs d) vs ws → vs ≡ ws }
{}

/// The list of all refusals has each kind exactly where it holds.
pub fn refusals_are_what_holds()
    ensures { (d : Design) (kind : Kind) (at : At) → HoldsAt d kind at ↔ Contains (refusals d) (record { kind = kind; at = at }) }
{}

/// A block leaves a latch exactly where it writes a bit that it does not write on every path.
pub fn summary_tells_latches()
    ensures { (names : Names) (s : Stmt) → is_latch (flow names s) ≡ leaves_latch (summary names s) }
{}

/// A block reads first exactly where it writes a bit that some path reads before it has written it for sure.
pub fn summary_tells_reads()
    ensures { (names : Names) (s : Stmt) → is_read_first (flow names s) ≡ exposes_own (summary names s) }
{}

/// The rules on parts, settled valuations and the next state are those of the signals and the views of parts.
pub fn parts_are_their_views()
    ensures { (d : Design) → AreViewed d }
{}

/// The faults of the design, of its scopes and of its parts are what is refused.
pub fn faults_are_what_is_refused()
    ensures { (d : Design) (kind : Kind) → faults d kind ≡ places_of d kind }
{}

/// A fault of a scope is told at the path of the scope.
pub fn scope_faults_are_told()
    ensures { (d : Design) (kind : Kind) (s : Scope) (place : ℕ) → Contains (scopes_of d) s → Contains (scope_faults d.source kind s) place →
        HoldsAt d kind (record { path = s.path; place = place }) }
{}

/// No two signals of a legal source share a cell, and its parts drive bits of its signals alone, where no name has a space inside.
pub fn signals_are_apart()
    ensures { (d : Design) → IsLegal d → HasPlainNames d.source → HasApartSignals d }
{}

/// Registers and inputs of a legal source have distinct paths, where the limits hold.
pub fn registers_and_inputs_are_distinct()
    ensures { (d : Design) → IsLegal d → HasPlainNames d.source → IsWithinLimits d → IsDistinct bytes_eq (registers_of d ++ inputs_of d) }
{}

/// A child of a scope of the design is one of its scopes.
pub fn children_are_scopes()
    ensures { (d : Design) (s c : Scope) → Contains (scopes_of d) s → Contains (children d.source s) c → Contains (scopes_of d) c }
{}

/// The signals are those of the declared names that are no clocks, in the same order.
pub fn signals_are_declared()
    ensures { (d : Design) → signals_of d ≡ filter is_signal (declared_of d) }
{}

/// The table of drivers tells which bits are driven twice or not at all, the registers and the next value of a bit.
pub fn drivers_tell()
    ensures { (ss : List Declared) (vs : List View) (table : Drivers) → ((b : Bit) → table b ≡ drivers vs b) → AreDriven ss vs table }
{}

/// A walk from the top comes to the scopes of the design in their order, and to no others.
pub fn walk_gives_scopes()
    ensures { (d : Design) (m : Module) (us : List Scope) → module_named d.source d.top ≡ Some m → AreScopes d.source (top_scope d m ∷ []) us ↔ us ≡ scopes_of d }
{}

/// What is counted of scopes that are done, with those that wait, is no more than what is counted of all.
pub fn counts_only_grow()
    ensures { (d : Design) (done waiting us : List Scope) → done ++ us ≡ scopes_of d → AreScopes d.source waiting us → AreSome d done waiting }
{}

/// Nor is it with the first items of the next scope.
pub fn items_only_add()
    ensures { (d : Design) (done us : List Scope) (s : Scope) (xs ys : List Item) → done ++ s ∷ us ≡ scopes_of d → xs ++ ys ≡ s.items → AreSomeItems d done s xs }
{}

/// Where no port is at fault, uses of clocks are told by the top and the views of parts alone.
pub fn clock_uses_are_viewed()
    ensures { (d : Design) → places_of d Port ≡ [] → places_of d ClockUse ≡ top_clock d ++ named_clocks (views_of d) ++ clock_views (views_of d) }
{}

/// The list of constants before a place says what the names there say: a path is a constant that is declared before, with that value.
pub fn entries_are_constants()
    ensures { (s : Scope) (es : List Entry) (k : ℕ) (p : Path) → Around s es → entry_names (entry_constants es s k) p ≡ early_constants (here_at s k) p }
{}

/// Each scope of the design has a list of the constants around it.
pub fn scopes_have_constants()
    ensures { (d : Design) (s : Scope) → Contains (scopes_of d) s → (es : List Entry) × Around s es }
{}

/// The top has its clock exactly where a clock is among its declared names.
pub fn top_clock_is_declared()
    ensures { (d : Design) (m : Module) →
        is_clock_sort (known ((top_scope d m).names (alone d.clock))).sort ≡ list_any (λ x. is_clock_sort x.sort) (scope_declared (top_scope d m)) }
{}

/// The top has its clock exactly where its path is that of a clock in the whole list, where no name has a space inside.
pub fn top_clock_is_listed()
    ensures { (d : Design) (m : Module) → module_named d.source d.top ≡ Some m → HasPlainNames d.source → has_space d.clock ≡ false →
        top_clock d ≡ unlisted_clock (spelled d.clock) (declared_of d) }
{}

/// So where no port is at fault, uses of clocks are told by that list and the views of parts alone.
pub fn clock_uses_are_listed()
    ensures { (d : Design) (m : Module) → module_named d.source d.top ≡ Some m → HasPlainNames d.source → has_space d.clock ≡ false → places_of d Port ≡ [] →
        places_of d ClockUse ≡ unlisted_clock (spelled d.clock) (declared_of d) ++ named_clocks (views_of d) ++ clock_views (views_of d) }
{}
