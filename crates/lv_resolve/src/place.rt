ghost use Rattle.std.specs.Prelude.{◌≡◌, ℕ, Option};
ghost use Rattle.lv_ast.specs.declared.expr.Path.{Path};

use lv_ast::Path;
use lv_const::Consts;
use lv_flat::Signal;

/// What a name is bound to: the number of a signal or of a clock, or nothing, where it stands for a constant or for nothing.
pub trait Bindings {
    ghost numbers: { Self → Path → Option ℕ };

    fn signal(&self, path: &Path) -> Option<u64>
        ensures { result ≡ numbers self.now path.now };
}

/// Where an expression stands.
pub struct Place<'a, B> {
    /// The signals and clocks of the design by number.
    pub signals: &'a [Signal],
    pub bindings: &'a B,
    /// All constants that can be read there.
    pub all: &'a Consts,
    /// Those that are declared before.
    pub early: &'a Consts,
}
