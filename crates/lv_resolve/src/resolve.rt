ghost use Rattle.std.specs.Prelude.{◌≤◌, Bool, max};
ghost use Rattle.lv_source.specs.Names.{Here};
ghost use Rattle.lv_source.specs.Sites.{Walk};
ghost use Rattle.lv_const.specs.Constants.{names_of};
ghost use Rattle.lv_const.specs.Wherever.{AreDeclared};
ghost use Rattle.lv_flat.specs.Signals.{Signals, declared_all};
ghost use Rattle.lv_resolve.specs.Places.{with_all};
ghost use Rattle.lv_resolve.specs.Forms.{Sites, HasForm, Anywhere, wide};
ghost use Rattle.lv_resolve.specs.Resolved.{ReachedAnswer, ResolveAnswer, TakenAnswer, TypeAnswer};

use crate::close::close;
use crate::error::ResolveError;
use crate::expr::form;
use crate::form::Form;
use crate::place::{Bindings, Place};
use crate::resolved::Resolved;
use crate::typed::OwnType;
use lv_ast::Expr;
use lv_const::Consts;
use std::alloc::Global;

/// A tree at the width and the sign that reach it: no divisor in it may be 0 there.
fn reached(all: &Consts, found: Form, width: u32, signed: bool) -> Result<Resolved, ResolveError>
    requires { width ≤ 128 }
    ensures { (S : Signals) (here : Here) (sites : Sites) (w : Walk) (ok : Bool) → AreDeclared (names_of all.now) (with_all here) →
        HasForm S here sites (wide w) w ok found → ReachedAnswer S here (sites (max width (wide w)) signed) w ok result }
{
    let (operand, notes) = found.into_parts();
    let width = width.max(operand.width);
    match close(all, notes.divisors.as_slice(), width, signed) {
        Err(error) => Err(error),
        Ok(()) => {
            let (clocks, divisors) = notes.into_parts();
            drop(divisors);
            Ok(Resolved {
                expr: operand.into_held(),
                clocks,
            })
        }
    }
}

/// An expression that a side of `width` bits takes (IEEE 1364-2005, sections 5.4 and 5.5), at the greater of both widths and at its
/// own sign; with `width` 0 at its own. Ok is a flat tree with an equal reading, and exactly where no node of it has a fault
/// UnknownName, NotConstant, ZeroDivisor or Range there; an error is such a fault at its place. `NoMemory` may come at any time.
pub fn resolve_expr<B: Bindings>(
    alloc: Global,
    place: &Place<B>,
    expr: &Expr,
    width: u32,
) -> Result<Resolved, ResolveError>
    requires { width ≤ 128 }
    ensures { Anywhere (declared_all place.now.signals.now) (B.numbers place.now.bindings.now) place.now.all.now place.now.early.now (λ here.
        ResolveAnswer (declared_all place.now.signals.now) here width expr.now result) }
{
    match form(alloc, place, expr, false) {
        Err(error) => Err(error),
        Ok(found) => {
            let signed = found.operand.signed;
            reached(place.all, found, width, signed)
        }
    }
}

/// An expression at the greater of `width` and its own width, and at this sign, as a `case` takes its selector and its labels
/// (IEEE 1364-2005, section 9.5). Else as `resolve_expr`.
pub fn resolve_taken<B: Bindings>(
    alloc: Global,
    place: &Place<B>,
    expr: &Expr,
    width: u32,
    signed: bool,
) -> Result<Resolved, ResolveError>
    requires { width ≤ 128 }
    ensures { Anywhere (declared_all place.now.signals.now) (B.numbers place.now.bindings.now) place.now.all.now place.now.early.now (λ here.
        TakenAnswer (declared_all place.now.signals.now) here width signed expr.now result) }
{
    match form(alloc, place, expr, false) {
        Err(error) => Err(error),
        Ok(found) => reached(place.all, found, width, signed),
    }
}

/// The own width and the own sign of an expression (IEEE 1364-2005, sections 5.4.1 and 5.5.1); an error is a fault of one of its nodes,
/// whatever width and sign reach it. `NoMemory` may come at any time.
pub fn own_type<B: Bindings>(
    alloc: Global,
    place: &Place<B>,
    expr: &Expr,
) -> Result<OwnType, ResolveError>
    ensures { Anywhere (declared_all place.now.signals.now) (B.numbers place.now.bindings.now) place.now.all.now place.now.early.now (λ here.
        TypeAnswer here expr.now result) }
{
    match form(alloc, place, expr, false) {
        Err(error) => Err(error),
        Ok(found) => Ok(OwnType {
            width: found.operand.width,
            signed: found.operand.signed,
        }),
    }
}
