ghost use Rattle.std.specs.Prelude.{◌≡◌, ◌≤◌, max};
ghost use Rattle.lv_const.specs.Joins.{placed};
ghost use Rattle.lv_const.specs.Joins.{alone as reach_alone, held as reach_held, spread as reach_spread};

use crate::error::ConstError;
use crate::own::Own;
use lv_bits::Word;

/// A value with its type.
#[derive(Clone, Copy)]
pub struct Full {
    pub word: Word,
    pub signed: bool,
}

/// What reaches an operand from around it: a least width, and a sign that holds as it is (`fixed`) or is and-ed with its own.
#[derive(Clone, Copy)]
pub struct Reach {
    pub least: u32,
    pub signed: bool,
    pub fixed: bool,
}

/// Nothing reaches an operand that keeps its own width and type.
pub fn alone() -> Reach
    ensures { result ≡ reach_alone }
{
    Reach {
        least: 0,
        signed: true,
        fixed: false,
    }
}

/// What reaches the second of two operands, the first of which has this width and type of its own.
pub fn spread(reach: Reach, first: Own) -> Reach
    requires { max first.width reach.least ≤ 128 }
    ensures is { result ≡ reach_spread reach first }
    ensures most { result.least ≤ 128 }
{
    Reach {
        least: first.width.max(reach.least),
        signed: if reach.fixed {
            reach.signed
        } else {
            first.signed && reach.signed
        },
        fixed: reach.fixed,
    }
}

/// What reaches the first, once the second has its value; with the second.
pub fn held(second: Full) -> (Reach, Full)
    ensures reach { result.0 ≡ reach_held second }
    ensures same { result.1 ≡ second }
{
    let reach = Reach {
        least: second.word.width(),
        signed: second.signed,
        fixed: true,
    };
    (reach, second)
}

/// A value at what reaches it.
pub fn placed(reach: Reach, own: Result<Full, ConstError>) -> Result<Full, ConstError>
    requires { reach.least ≤ 128 }
    ensures { result ≡ placed reach own }
{
    let own = own?;
    let width = own.word.width().max(reach.least);
    let signed = if reach.fixed {
        reach.signed
    } else {
        own.signed && reach.signed
    };
    let word = if signed {
        own.word.sext(width)
    } else {
        own.word.zext(width)
    };
    Ok(Full { word, signed })
}
