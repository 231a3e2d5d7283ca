ghost use Rattle.std.specs.Prelude.{◌≡◌, ◌<◌, length, Some, slice_get, MatchOption};
ghost use Rattle.lv_declared.specs.Listing.{declared, all_declared};
ghost use Rattle.lv_declared.specs.declared.declaration.Declaration.{Declaration as Code};
ghost use Rattle.lv_bindings.specs.Grouping.{AreGrouped};
ghost use Rattle.lv_resolve.specs.Late.{first_late};
ghost use Rattle.lv_symbols.specs.Frames.{Frame, IsToldIn};
ghost use Rattle.lv_symbols.specs.declared.symbol.SymbolError.TheVariants.{Own};
ghost use Rattle.lv_late.specs.Lates.{told_of_name, told_of_declaration, range_paths, IsLateIn, NoneIsLate};
ghost use Rattle.lv_late.specs.Outers.{said_by, said_of};
ghost use Rattle.lv_late.specs.Standing.{IsStanding, IsDeclarationFaultIn};

use crate::names::Names;
use crate::outer::Outer;
use crate::walk::{first_late, or_else};
use lv_ast::Range;
use lv_bindings::Groups;
use lv_const::{ConstError, Consts};
use lv_declared::{Declaration, Thing};
use lv_faults::{Fault, ScopeError, of_node};
use lv_resolve::{Bindings, ResolveError};

/// The first late name of a range.
#[tactic(auto, using(lv_resolve::proofs::LateNames::late_rules))]
fn late_range<B: Bindings>(names: &Names<B>, range: &Option<Range>) -> Option<ResolveError>
    requires { AreGrouped (all_declared names.now.declarations.now) names.now.groups.now }
    ensures { result ≡ first_late (told_of_name (said_by B.numbers names.now) names.now.before) (range_paths range.now) }
{
    match range {
        None => None,
        Some(range) => {
            let left = first_late(names, range.left.get());
            or_else(left, first_late(names, range.right.get()))
        }
    }
}

/// The first late name of a declaration.
#[tactic(auto, using(lv_resolve::proofs::LateNames::late_rules))]
fn late_declaration<B: Bindings>(
    names: &Names<B>,
    declaration: &Declaration,
) -> Option<ResolveError>
    requires { AreGrouped (all_declared names.now.declarations.now) names.now.groups.now }
    ensures { result ≡ told_of_declaration (said_by B.numbers names.now) names.now.before (declared declaration.now) }
{
    match declaration.thing {
        Thing::Direction(_, _, _, range) => late_range(names, range),
        Thing::Wire(_, range) => late_range(names, range),
        Thing::Reg(_, range, array) => {
            let bits = late_range(names, range);
            or_else(bits, late_range(names, array))
        }
        Thing::Parameter(_, _, range, value) => {
            let bits = late_range(names, range);
            or_else(bits, first_late(names, value))
        }
        Thing::Index(_) => None,
        Thing::Instance => None,
        Thing::Label => None,
    }
}

/// The first late name of the declaration with this number.
fn late_at<B: Bindings>(
    groups: &Groups,
    base: &Consts,
    around: Option<&Outer<B>>,
    declarations: &[Declaration],
    index: usize,
) -> Option<ResolveError>
    requires grouped { AreGrouped (all_declared declarations.now) groups.now }
    requires within { index < length declarations.now }
    ensures { (d : Code) → slice_get declarations.now index ≡ Some d →
        result ≡ told_of_declaration (said_of B.numbers declarations.now base.now around.entry) index (declared d) }
{
    let names = Names {
        groups,
        base,
        around,
        declarations,
        before: index,
    };
    let found = late_declaration(&names, &declarations[index]);
    let Names {
        groups: _,
        base: _,
        around: _,
        declarations: _,
        before: _,
    } = names;
    found
}

/// The first late name of all declarations.
fn late_in_any<B: Bindings>(
    groups: &Groups,
    base: &Consts,
    around: Option<&Outer<B>>,
    declarations: &[Declaration],
) -> Option<ResolveError>
    requires { AreGrouped (all_declared declarations.now) groups.now }
    ensures { MatchOption result (NoneIsLate (said_of B.numbers declarations.now base.now around.entry))
        (IsLateIn (said_of B.numbers declarations.now base.now around.entry)) }
{
    for index in 0..declarations.len() {
        if let Some(error) = late_at(groups, base, around, declarations, index) {
            return Some(error);
        }
    }
    None
}

/// A fault that `declare` tells of a declaration where it stands, by its kind, in each scope with these declarations (IEEE 1364-2005,
/// sections 4.10 and 12.3): `base` are the constants before the first of them, and `around` is what can be read around a turn of a loop. A name
/// without a value is unknown, or no constant, by what the scope says of it; one in a constant position that is declared later is no constant.
pub fn declaration_fault<B: Bindings>(
    groups: &Groups,
    base: &Consts,
    around: Option<&Outer<B>>,
    declarations: &[Declaration],
    error: ConstError,
) -> ScopeError
    requires { AreGrouped (all_declared declarations.now) groups.now }
    ensures { (f : Frame) → IsStanding (said_of B.numbers declarations.now base.now around.entry) f →
        IsToldIn f (all_declared declarations.now) (Own error) → IsDeclarationFaultIn f.scope result }
{
    match error {
        ConstError::Range(place) => ScopeError::Fault(Fault::Range(place)),
        ConstError::ZeroDivisor(place) => ScopeError::Fault(Fault::ZeroDivisor(place)),
        ConstError::NoValue(place) => match late_in_any(groups, base, around, declarations) {
            None => ScopeError::Fault(Fault::UnknownName(place)),
            Some(error) => of_node(error),
        },
    }
}
