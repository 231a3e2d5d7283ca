ghost use Rattle.std.specs.Prelude.{◌≡◌};
ghost use Rattle.lv_declared.specs.Listing.{declared};
ghost use Rattle.lv_bindings.specs.Grouping as g;

use crate::things::{is_direction, is_input, is_parameter, is_reg};
use lv_declared::Declaration;

/// The declarations of one name, each by its number among those of the scope.
#[derive(Clone, Copy)]
pub struct Group {
    pub first: usize,
    pub second: Option<usize>,
    /// Whether there is a third one.
    pub third: bool,
    /// The first that gives a direction.
    pub direction: Option<usize>,
    pub input: bool,
    pub variable: bool,
    pub parameter: bool,
}

impl Group {
    /// The declaration at which a signal with these stands: the first with a direction, and where none has one the first.
    pub fn place(&self) -> usize
        ensures { result ≡ g.place self.now }
    {
        match self.direction {
            None => self.first,
            Some(number) => number,
        }
    }
}

fn either(first: Option<usize>, second: Option<usize>) -> Option<usize>
    ensures { result ≡ g.either first second }
{
    match first {
        None => second,
        Some(number) => Some(number),
    }
}

fn number_if(holds: bool, number: usize) -> Option<usize>
    ensures { result ≡ g.number_if holds number }
{
    if holds { Some(number) } else { None }
}

/// The group of one declaration.
pub(crate) fn single(number: usize, declaration: &Declaration) -> Group
    ensures { result ≡ g.single (number, declared declaration.now) }
{
    Group {
        first: number,
        second: None,
        third: false,
        direction: number_if(is_direction(declaration), number),
        input: is_input(declaration),
        variable: is_reg(declaration),
        parameter: is_parameter(declaration),
    }
}

/// One more declaration behind those of the group.
pub(crate) fn grown(group: Group, number: usize, declaration: &Declaration) -> Group
    ensures { result ≡ g.grown group (number, declared declaration.now) }
{
    Group {
        first: group.first,
        second: either(group.second, Some(number)),
        third: group.second.is_some(),
        direction: either(
            group.direction,
            number_if(is_direction(declaration), number),
        ),
        input: group.input || is_input(declaration),
        variable: group.variable || is_reg(declaration),
        parameter: group.parameter || is_parameter(declaration),
    }
}
