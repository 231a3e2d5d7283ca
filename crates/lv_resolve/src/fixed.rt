ghost use Rattle.std.specs.Prelude.{◌≡◌};
ghost use Rattle.lv_source.specs.Sites.{walk};
ghost use Rattle.lv_const.specs.Signs.{is_negative as spec_is_negative};
ghost use Rattle.lv_flat.specs.Signals.{declared_all};
ghost use Rattle.lv_resolve.specs.Forms.{Anywhere, FixedAnswer};
ghost use Rattle.lv_resolve.specs.Picks.{bound_of, copies_of};

use crate::error::ResolveError;
use crate::late::late_in;
use crate::place::{Bindings, Place};
use lv_ast::Expr;
use lv_const::ConstError;
use lv_scopes::{Number, number_of};

/// The number of an expression in a constant position.
pub fn fixed<B: Bindings>(place: &Place<B>, expr: &Expr) -> Result<Number, ResolveError>
    ensures { Anywhere (declared_all place.now.signals.now) (B.numbers place.now.bindings.now) place.now.all.now place.now.early.now
        (λ here. FixedAnswer here (walk here.names expr.now) result) }
{
    match number_of(place.early, expr, 0) {
        Ok(number) => Ok(number),
        Err(ConstError::Range(at)) => Err(ResolveError::Range(at)),
        Err(ConstError::ZeroDivisor(at)) => Err(ResolveError::ZeroDivisor(at)),
        Err(ConstError::NoValue(at)) => match late_in(place, expr) {
            Some(error) => Err(error),
            None => Err(ResolveError::UnknownName(at)),
        },
    }
}

pub fn is_negative(number: Number) -> bool
    ensures { result ≡ spec_is_negative number.signed number.word.width number.word.value }
{
    number.signed && number.word.value() >= 1u128 << (number.word.width() - 1)
}

/// A number that a bound of a select can be.
pub fn bound(number: Number) -> Option<u32>
    ensures { result ≡ bound_of number }
{
    if is_negative(number) || number.word.value() > 65535 {
        None
    } else {
        Some(number.word.value() as u32)
    }
}

/// A number of copies.
pub fn copies(number: Number) -> Option<u128>
    ensures { result ≡ copies_of number }
{
    if is_negative(number) || number.word.value() == 0 {
        None
    } else {
        Some(number.word.value())
    }
}
