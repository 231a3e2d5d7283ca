ghost use Rattle.std.specs.Prelude.{◌≡◌, ◌≤◌};
ghost use Rattle.lv_const.specs.Constants.{names_of};
ghost use Rattle.lv_const.specs.Wherever.{Wherever};
ghost use Rattle.lv_source.specs.Names.{size};
ghost use Rattle.lv_scopes.specs.Parameters.{IsPlainAnswer, IsSizedAnswer, IsParameterAnswer};

use crate::bounds::range_of;
use crate::number::number_of;
use lv_ast::{Expr, Range};
use lv_const::{Const, ConstError, Consts};

/// A value that keeps its own width and type.
fn plain(consts: &Consts, value: &Expr, signed: bool) -> Result<Const, ConstError>
    ensures { Wherever (names_of consts.now) (λ there. IsPlainAnswer there signed value.now result) }
{
    match number_of(consts, value, 0) {
        Err(error) => Err(error),
        Ok(number) => Ok(Const {
            word: number.word,
            signed: signed || number.signed,
            left: number.word.width() - 1,
            right: 0,
        }),
    }
}

/// A value that bounds take.
fn sized(
    consts: &Consts,
    value: &Expr,
    signed: bool,
    left: u32,
    right: u32,
) -> Result<Const, ConstError>
    requires left_in { left ≤ 65535 }
    requires right_in { right ≤ 65535 }
    requires narrow { size (record { left = left; right = right }) ≤ 128 }
    ensures { Wherever (names_of consts.now) (λ there. IsSizedAnswer there signed value.now left right result) }
{
    let width = left.max(right) - left.min(right) + 1;
    match number_of(consts, value, width) {
        Err(error) => Err(error),
        Ok(number) => Ok(Const {
            word: number.word.slice(0, width),
            signed,
            left,
            right,
        }),
    }
}

/// The constant that a parameter becomes (IEEE 1364-2005, sections 4.10 and 12.2): its range is read wherever `here` are the constants
/// that are declared before, and its value, its own or that of an instance, wherever `there` are. Without a range it has the width and
/// the type of its value. `Range` at `place` where the range is none that is allowed; any other error is a fault of a node of the range
/// or of the value. It takes no memory.
pub fn parameter_of(
    here: &Consts,
    there: &Consts,
    signed: bool,
    range: &Option<Range>,
    value: &Expr,
    place: u64,
) -> Result<Const, ConstError>
    ensures { Wherever (names_of here.now) (λ around.
        Wherever (names_of there.now) (λ outside. IsParameterAnswer around outside signed range.now value.now place result)) }
{
    match range {
        None => plain(there, value, signed),
        Some(range) => match range_of(here, range, true, place) {
            Err(error) => Err(error),
            Ok((left, right)) => sized(there, value, signed, left, right),
        },
    }
}
