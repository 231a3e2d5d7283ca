ghost use Rattle.lv_const.specs.Constants.{names_of};
ghost use Rattle.lv_const.specs.Wherever.{Wherever};
ghost use Rattle.lv_symbols.specs.Answers.{AreBoundsAnswer, AreElementsAnswer, IsSignalAnswer};

use crate::symbol::{Symbol, SymbolError};
use lv_ast::Range;
use lv_const::{ConstError, Consts};
use lv_scopes::range_of;

/// The bounds of a vector; without a range they are 0 and 0.
fn bounds(consts: &Consts, range: &Option<Range>, place: u64) -> Result<(u32, u32), ConstError>
    ensures { Wherever (names_of consts.now) (λ here. AreBoundsAnswer here range.now place result) }
{
    match range {
        None => Ok((0, 0)),
        Some(range) => range_of(consts, range, true, place),
    }
}

/// The bounds of an array.
fn elements(
    consts: &Consts,
    range: &Option<Range>,
    place: u64,
) -> Result<Option<(u32, u32)>, ConstError>
    ensures { Wherever (names_of consts.now) (λ here. AreElementsAnswer here range.now place result) }
{
    match range {
        None => Ok(None),
        Some(range) => match range_of(consts, range, false, place) {
            Err(error) => Err(error),
            Ok(bounds) => Ok(Some(bounds)),
        },
    }
}

/// A port, a net or a variable.
pub fn signal(
    consts: &Consts,
    signed: bool,
    range: &Option<Range>,
    array: &Option<Range>,
    place: u64,
) -> Result<Symbol, SymbolError>
    ensures { Wherever (names_of consts.now) (λ here. IsSignalAnswer here signed range.now array.now place result) }
{
    match bounds(consts, range, place) {
        Err(error) => Err(SymbolError::Own(error)),
        Ok(bits) => match elements(consts, array, place) {
            Err(error) => Err(SymbolError::Own(error)),
            Ok(elements) => Ok(Symbol::Signal(range.is_some(), signed, bits, elements)),
        },
    }
}
