ghost use Rattle.std.specs.Prelude.{◌≤◌};
ghost use Rattle.lv_source.specs.Meaning.{own_width};
ghost use Rattle.lv_const.specs.Constants.{names_of};
ghost use Rattle.lv_const.specs.Wherever.{Wherever};
ghost use Rattle.lv_const.specs.Public.{IsOwnAnswer, IsValueAnswer};

use crate::consts::Consts;
use crate::error::ConstError;
use crate::expr::{own, value};
use crate::full::Reach;
use lv_ast::Expr;
use lv_bits::Word;

/// The own width and own type of a constant expression (IEEE 1364-2005, sections 5.4.1 and 5.5.1), wherever these are the
/// constants that are declared before. It takes no memory.
pub fn own_of(consts: &Consts, expr: &Expr) -> Result<(u32, bool), ConstError>
    ensures { Wherever (names_of consts.now) (λ here. IsOwnAnswer here expr.now result) }
{
    match own(consts, expr, false) {
        Err(error) => Err(error),
        Ok(own) => Ok((own.width, own.signed)),
    }
}

/// The value of a constant expression at a width and a type (IEEE 1364-2005, section 5.4.2), wherever these are the constants
/// that are declared before. It takes no memory.
pub fn value_of(consts: &Consts, expr: &Expr, width: u32, signed: bool) -> Result<Word, ConstError>
    requires some { 1 ≤ width }
    requires most { width ≤ 128 }
    requires wide { own_width (names_of consts.now) expr.now ≤ width }
    ensures { Wherever (names_of consts.now) (λ here. IsValueAnswer here expr.now width signed result) }
{
    let reach = Reach {
        least: width,
        signed,
        fixed: true,
    };
    match value(consts, expr, false, reach) {
        Err(error) => Err(error),
        Ok(full) => Ok(full.word),
    }
}
