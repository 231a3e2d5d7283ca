ghost use Rattle.std.specs.Prelude.{◌≡◌, ◌≤◌, [], ◌∷◌};
ghost use Rattle.lv_source.specs.Names.{Here};
ghost use Rattle.lv_const.specs.Constants.{names_of};
ghost use Rattle.lv_const.specs.Wherever.{AreDeclared};
ghost use Rattle.lv_resolve.specs.Places.{with_all};
ghost use Rattle.lv_resolve.specs.Forms.{IsDivisor, AreDivisors, AreClosed};
ghost use Rattle.lv_resolve.specs.Joins.{zero_in};

use crate::error::ResolveError;
use crate::form::Divisor;
use lv_const::{ConstError, Consts, own_of, value_of};

fn zero_in(error: ConstError) -> ResolveError
    ensures { result ≡ zero_in error }
{
    match error {
        ConstError::NoValue(place) => ResolveError::ZeroDivisor(place),
        ConstError::Range(place) => ResolveError::ZeroDivisor(place),
        ConstError::ZeroDivisor(place) => ResolveError::ZeroDivisor(place),
    }
}

/// Whether a divisor is 0 at a width and a sign.
fn divide(all: &Consts, divisor: &Divisor, width: u32, signed: bool) -> Result<(), ResolveError>
    requires some { 1 ≤ width }
    requires most { width ≤ 128 }
    ensures { (here : Here) → AreDeclared (names_of all.now) (with_all here) → IsDivisor here.names width divisor.now →
        AreClosed here.names width signed (divisor.now ∷ []) result }
{
    match own_of(all, divisor.expr.get()) {
        Err(error) => Err(zero_in(error)),
        Ok((own, _)) => match value_of(all, divisor.expr.get(), own.max(width), signed) {
            Err(error) => Err(zero_in(error)),
            Ok(word) => {
                if word.value() == 0 {
                    Err(ResolveError::ZeroDivisor(divisor.place))
                } else {
                    Ok(())
                }
            }
        },
    }
}

/// Whether one of these divisors is 0 at the width and the sign that reach them.
pub fn close(
    all: &Consts,
    divisors: &[Divisor],
    width: u32,
    signed: bool,
) -> Result<(), ResolveError>
    requires some { 1 ≤ width }
    requires most { width ≤ 128 }
    ensures { (here : Here) → AreDeclared (names_of all.now) (with_all here) → AreDivisors here.names width divisors.now →
        AreClosed here.names width signed divisors.now result }
{
    for divisor in divisors {
        match divide(all, divisor, width, signed) {
            Ok(()) => {}
            Err(error) => return Err(error),
        }
    }
    Ok(())
}
