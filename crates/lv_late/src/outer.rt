ghost use Rattle.std.specs.Prelude.{◌≡◌};
ghost use Rattle.lv_const.specs.Constants.{names_of};
ghost use Rattle.lv_late.specs.Lates.{is_some};
ghost use Rattle.lv_late.specs.Outers.{read_around};

use lv_ast::Path;
use lv_const::Consts;
use lv_resolve::Bindings;

/// What can be read around a turn of a loop.
pub struct Outer<'a, B> {
    pub bindings: &'a B,
    /// All constants, the index of the loop among them.
    pub all: &'a Consts,
}

/// Whether a name stands for one of these constants.
pub(crate) fn is_constant(consts: &Consts, path: &Path) -> bool
    ensures { result ≡ is_some (names_of consts.now path.now) }
{
    if !path.steps.is_empty() {
        return false;
    }
    match consts.get(&path.name) {
        None => false,
        Some(_) => true,
    }
}

/// Whether a name that a scope doesn't declare can be read there.
pub(crate) fn is_read_around<B: Bindings>(around: Option<&Outer<B>>, path: &Path) -> bool
    ensures { result ≡ read_around B.numbers around.entry path.now }
{
    match around {
        None => false,
        Some(outer) => match outer.bindings.signal(path) {
            Some(_) => true,
            None => is_constant(outer.all, path),
        },
    }
}
