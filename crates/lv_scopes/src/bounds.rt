ghost use Rattle.std.specs.Prelude.{◌≡◌, ◌≤◌};
ghost use Rattle.lv_const.specs.Constants.{names_of};
ghost use Rattle.lv_const.specs.Wherever.{Wherever};
ghost use Rattle.lv_scopes.specs.Ranges.{bound_in, bounds_in, number_in, IsRangeAnswer};

use crate::number::{Number, number_of};
use lv_ast::Range;
use lv_const::{ConstError, Consts};

/// The number of a bound, at least 0 and at most 65535.
fn bound(number: Number) -> Option<u32>
    ensures { result ≡ bound_in (number_in number.signed number.word.width number.word.value) }
{
    let value = number.word.value();
    let half = 1u128 << (number.word.width() - 1);
    if number.signed && value >= half {
        return None;
    }
    if value <= 65535 {
        Some(value as u32)
    } else {
        None
    }
}

/// Two bounds, of a vector not more than 128 bits apart.
fn bounds(left: Option<u32>, right: Option<u32>, vector: bool) -> Option<(u32, u32)>
    ensures { result ≡ bounds_in vector left right }
{
    let left = left?;
    let right = right?;
    if vector && left.max(right) - left.min(right) >= 128 {
        None
    } else {
        Some((left, right))
    }
}

/// The bounds of a range (IEEE 1364-2005, section 4.3.1): each at least 0 and at most 65535, and those of a vector of at most
/// 128 bits, wherever these are the constants that are declared before. `Range` at `place` where they are not so; any other error
/// is a fault of a node of a bound. It takes no memory.
pub fn range_of(
    consts: &Consts,
    range: &Range,
    vector: bool,
    place: u64,
) -> Result<(u32, u32), ConstError>
    ensures { Wherever (names_of consts.now) (λ here. IsRangeAnswer here range.now vector place result) }
{
    match number_of(consts, range.left.get(), 0) {
        Err(error) => Err(error),
        Ok(left) => match number_of(consts, range.right.get(), 0) {
            Err(error) => Err(error),
            Ok(right) => match bounds(bound(left), bound(right), vector) {
                Some(bounds) => Ok(bounds),
                None => Err(ConstError::Range(place)),
            },
        },
    }
}
