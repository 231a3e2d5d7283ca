//! Laws of the answers of the calls: each function does nothing.
ghost use Rattle.std.specs.Prelude.{ℕ, Bool, List, Option, Some, None, max, Contains, flat_map};
ghost use Rattle.lv_bits.specs.Words.{Bits};
ghost use Rattle.lv_ast.specs.declared.expr.Expr.{Expr};
ghost use Rattle.lv_source.specs.Names.{Here};
ghost use Rattle.lv_source.specs.Meaning.{own_width};
ghost use Rattle.lv_source.specs.Sites.{Value, walk, spots};
ghost use Rattle.lv_const.specs.declared.consts.Entry.{Entry};
ghost use Rattle.lv_const.specs.declared.error.ConstError.{ConstError};
ghost use Rattle.lv_const.specs.declared.error.ConstError.TheVariants.{ZeroDivisor};
ghost use Rattle.lv_const.specs.Faults.{counted_zero};
ghost use Rattle.lv_const.specs.Constants.{names_of, entries_here};
ghost use Rattle.lv_const.specs.Wherever.{AreDeclared};
ghost use Rattle.lv_const.specs.Public.{IsOwnOf, IsOwnRefusal, IsValueOf, IsValueRefusal};
ghost use Rattle.lv_const.specs.Refusals.{IsFault, IsFormed, IsDivided};

/// The entries alone are a place, so that an answer says what it says of them.
pub fn entries_are_a_place()
    ensures { (es : List Entry) → AreDeclared (names_of es) (entries_here es) }
{}

/// What `own_of` refuses is, where the expression has to be constant, a fault of a node in it: `Range` and `ZeroDivisor` as they
/// are, `NoValue` an unknown name or one that is no constant, by what the names there say of it.
pub fn own_refusals_are_faults()
    ensures { (here : Here) (x : Expr) (y : ConstError) (first W : ℕ) (T : Bool) → IsOwnRefusal here x y →
        IsFault here (spots here ((walk here.names x).sites Value (Some first) W T)) y }
{}

/// So is what `value_of` refuses, at the width and type of the call.
pub fn value_refusals_are_faults()
    ensures { (here : Here) (x : Expr) (y : ConstError) (first W : ℕ) (T : Bool) → IsValueRefusal here x W T y →
        IsFault here (spots here ((walk here.names x).sites Value (Some first) (max W (own_width here.names x)) T)) y }
{}

/// Where the expression stands in no constant position, a division by 0 that `own_of` tells is inside of a replication count, or of a
/// bound or width of a part select.
pub fn own_zero_divisors_are_counted()
    ensures { (here : Here) (x : Expr) (place W : ℕ) (T : Bool) → IsOwnRefusal here x (ZeroDivisor place) →
        Contains (flat_map counted_zero ((walk here.names x).sites Value None W T)) place }
{}

/// An expression that has an own width by `own_of` has no faults but divisions by 0, in a constant position or not.
pub fn own_answers_have_no_faults()
    ensures { (here : Here) (x : Expr) (w : ℕ) (s : Bool) (fixed : Option ℕ) (W : ℕ) (T : Bool) → IsOwnOf here x w s →
        IsFormed (spots here ((walk here.names x).sites Value fixed W T)) }
{}

/// And with a value by `value_of` it is not divided by 0 at that width and type.
pub fn value_answers_have_no_faults()
    ensures { (here : Here) (x : Expr) (w : Bits) (fixed : Option ℕ) (W : ℕ) (T : Bool) → IsValueOf here x W T w →
        IsDivided (spots here ((walk here.names x).sites Value fixed W T)) }
{}
