ghost use Rattle.std.specs.Prelude.{◌≡◌, ◌≤◌};
ghost use Rattle.lv_const.specs.Constants.{names_of};
ghost use Rattle.lv_const.specs.Wherever.{Wherever};
ghost use Rattle.lv_scopes.specs.Numbers.{IsNumberAnswer};

use lv_ast::Expr;
use lv_bits::Word;
use lv_const::{ConstError, Consts, own_of, value_of};

/// A value with its type.
#[derive(Clone, Copy, Debug)]
pub struct Number {
    pub word: Word,
    pub signed: bool,
}

/// The value of a constant expression that a side of `least` bits takes, at the greater of both widths and at its own type
/// (IEEE 1364-2005, sections 5.4.1 and 5.5); with `least` 0 at its own width, wherever these are the constants that are
/// declared before. An error is a fault of one of its nodes there. It takes no memory.
pub fn number_of(consts: &Consts, expr: &Expr, least: u32) -> Result<Number, ConstError>
    requires { least ≤ 128 }
    ensures { Wherever (names_of consts.now) (λ here. IsNumberAnswer here least expr.now result) }
{
    match own_of(consts, expr) {
        Err(error) => Err(error),
        Ok((own, signed)) => match value_of(consts, expr, least.max(own), signed) {
            Err(error) => Err(error),
            Ok(word) => Ok(Number { word, signed }),
        },
    }
}
