ghost use Rattle.std.specs.Prelude.{◌≡◌, Bool, Option};
ghost use Rattle.lv_ast.specs.Names.{Name};

use crate::place::Bindings;
use lv_bits::Text;

/// Which names are declared as an index of loops: an integer, or a genvar.
pub trait Indices: Bindings {
    ghost indices: { Self → Name → Option Bool };

    /// Whether that index is a genvar; nothing where the name is no index. A constant of the name, as in a turn of the loop, hides it.
    fn index(&self, name: &Text) -> Option<bool>
        ensures { result ≡ indices self.now name.now };
}
