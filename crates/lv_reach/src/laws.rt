ghost use Rattle.std.specs.Prelude.{◌≡◌, ◌↔◌, Bool, ℕ, List};
ghost use Rattle.lv_ast.specs.declared.expr.Expr.{Expr};
ghost use Rattle.lv_source.specs.Names.{Names, Declared, Valuation};
ghost use Rattle.lv_source.specs.Meaning.{own, reads_of};
ghost use Rattle.lv_source.specs.Parts.{Design, signals_of};
ghost use Rattle.lv_source.specs.Views.{View, IsViewSettled, views_of};
ghost use Rattle.lv_source.specs.Observe as source;
ghost use Rattle.lv_settles.specs.Lawful.{AreLawful};
ghost use Rattle.lv_settles.specs.Orders.{IsOrder};
ghost use Rattle.lv_settles.specs.Rules.{AreRight, AreApart};
ghost use Rattle.lv_reach.specs.Fanout.{DependsOn, SameBut};

/// An expression that depends on none of some signals has one value in all settled valuations that differ in these alone, but for
/// what follows.
pub fn independent_values_are_one()
    ensures { (ds : List Declared) (vs : List View) (order : List ℕ) (is : Declared → Bool) (names : Names) (e : Expr) (v w : Valuation) → AreLawful ds vs →
        AreRight ds vs → AreApart ds → IsOrder vs order → IsViewSettled ds vs v → IsViewSettled ds vs w → SameBut ds vs is v w →
        (DependsOn ds vs is (reads_of names e) → ⊥) → own names e v ≡ own names e w }
{}

/// What depends on signals by the views of the parts of a source does so in the source.
pub fn dependence_is_of_source()
    ensures { (d : Design) (is : Declared → Bool) (e : Expr) → DependsOn (signals_of d) (views_of d) is (source.bits_read d e) ↔ source.DependsOn d is e }
{}
