ghost use Rattle.std.specs.Prelude.{◌≡◌};
ghost use Rattle.lv_source.specs.Scopes as s;
ghost use Rattle.lv_declared.specs.Listing.{declared};

use lv_ast::PortWord;
use lv_declared::{Declaration, Thing};

pub(crate) fn is_direction(declaration: &Declaration) -> bool
    ensures { result ≡ s.is_direction (declared declaration.now) }
{
    matches!(declaration.thing, Thing::Direction(_, _, _, _))
}

pub(crate) fn is_input(declaration: &Declaration) -> bool
    ensures { result ≡ s.is_input (declared declaration.now) }
{
    match declaration.thing {
        Thing::Direction(output, _, _, _) => !output,
        _ => false,
    }
}

pub(crate) fn is_reg(declaration: &Declaration) -> bool
    ensures { result ≡ s.is_reg (declared declaration.now) }
{
    match declaration.thing {
        Thing::Direction(_, word, _, _) => matches!(word, PortWord::Reg),
        Thing::Reg(_, _, _) => true,
        _ => false,
    }
}

pub(crate) fn is_parameter(declaration: &Declaration) -> bool
    ensures { result ≡ s.is_parameter (declared declaration.now) }
{
    matches!(declaration.thing, Thing::Parameter(_, _, _, _))
}
