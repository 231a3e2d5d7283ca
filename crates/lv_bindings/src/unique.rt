ghost use Rattle.std.specs.Prelude.{◌≡◌, ◌<◌, None, IfSome, Contains, length};
ghost use Rattle.lv_source.specs.Scopes.{Scope};
ghost use Rattle.lv_source.specs.ScopeRules.{duplicates};
ghost use Rattle.lv_declared.specs.Listing.{all_declared};
ghost use Rattle.lv_symbols.specs.Frames.{AreOnce};
ghost use Rattle.lv_bindings.specs.Grouping.{AreGrouped, is_parameter_again};

use crate::group::Group;
use crate::groups::Groups;
use lv_declared::Declaration;

/// Whether it is another declaration of a name that a parameter has.
fn is_again(group: Option<Group>, index: usize) -> bool
    ensures { result ≡ is_parameter_again group index }
{
    match group {
        None => false,
        Some(group) => group.parameter && group.first != index,
    }
}

/// None where the name of each parameter is declared once; and else the place of a later declaration of a name that a parameter has,
/// which is told in each scope that has these declarations (IEEE 1364-2005, section 4.11).
pub fn once(groups: &Groups, declarations: &[Declaration]) -> Option<u64>
    requires { AreGrouped (all_declared declarations.now) groups.now }
    ensures none { result ≡ None → AreOnce (all_declared declarations.now) }
    ensures some { IfSome result (λ place. (s : Scope) → s.declarations ≡ all_declared declarations.now → Contains (duplicates s) place) }
{
    for index in 0..declarations.len() {
        if is_again(groups.at(index), index) {
            return Some(declarations[index].name.place);
        }
    }
    None
}
