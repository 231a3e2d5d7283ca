ghost use Rattle.std.specs.Prelude.{◌≡◌, ◌&&◌, nat_lt, slice_get};
ghost use Rattle.lv_const.specs.Constants.{names_of};
ghost use Rattle.lv_declared.specs.Listing.{declared, all_declared};
ghost use Rattle.lv_bindings.specs.Grouping.{AreGrouped};
ghost use Rattle.lv_late.specs.Lates.{is_some, is_read_at, told_of_name};
ghost use Rattle.lv_late.specs.Lates.{told_by as spec_told_by, is_read as spec_is_read};
ghost use Rattle.lv_late.specs.Outers.{read_around, said_by};

use crate::outer::{Outer, is_constant, is_read_around};
use lv_ast::Path;
use lv_bindings::{Group, Groups};
use lv_const::Consts;
use lv_declared::{Declaration, Thing};
use lv_resolve::{Bindings, ResolveError};

/// The names of a scope, where so many of its declarations stand before.
pub(crate) struct Names<'a, B> {
    pub groups: &'a Groups,
    /// The constants before the first declaration.
    pub base: &'a Consts,
    pub around: Option<&'a Outer<'a, B>>,
    pub declarations: &'a [Declaration<'a>],
    pub before: usize,
}

/// What is told of a name, where it is no constant that is declared before by whether it can be read.
fn told_by(early: bool, read: bool, place: u64) -> Option<ResolveError>
    ensures { result ≡ spec_told_by early read place }
{
    if early {
        None
    } else if read {
        Some(ResolveError::NotConstant(place))
    } else {
        Some(ResolveError::UnknownName(place))
    }
}

/// Whether a name with this first declaration can be read.
fn is_read(declaration: &Declaration) -> bool
    ensures { result ≡ spec_is_read (declared declaration.now) }
{
    match declaration.thing {
        Thing::Direction(_, _, _, _) => true,
        Thing::Wire(_, _) => true,
        Thing::Reg(_, _, _) => true,
        Thing::Parameter(_, _, _, _) => true,
        Thing::Index(_) => false,
        Thing::Instance => false,
        Thing::Label => false,
    }
}

/// Of a name that the scope declares: a parameter is early where it stands before.
fn told_of_declared(
    declarations: &[Declaration],
    before: usize,
    group: Group,
    place: u64,
) -> Option<ResolveError>
    ensures { result ≡ spec_told_by (group.parameter && nat_lt group.first before) (is_read_at (slice_get (all_declared declarations.now) group.first)) place }
{
    let read = match declarations.get(group.first) {
        None => false,
        Some(declaration) => is_read(declaration),
    };
    told_by(group.parameter && group.first < before, read, place)
}

/// Of another name.
fn told_of_outer<B: Bindings>(
    base: &Consts,
    around: Option<&Outer<B>>,
    path: &Path,
) -> Option<ResolveError>
    ensures { result ≡ spec_told_by (is_some (names_of base.now path.now)) (read_around B.numbers around.entry path.now) path.now.place }
{
    told_by(
        is_constant(base, path),
        is_read_around(around, path),
        path.place,
    )
}

/// What is told of a name in a constant position.
pub(crate) fn told_of_name<B: Bindings>(names: &Names<B>, path: &Path) -> Option<ResolveError>
    requires { AreGrouped (all_declared names.now.declarations.now) names.now.groups.now }
    ensures { result ≡ told_of_name (said_by B.numbers names.now) names.now.before path.now }
{
    if !path.steps.is_empty() {
        return Some(ResolveError::UnknownName(path.place));
    }
    match names.groups.find(path.name.bytes()) {
        None => told_of_outer(names.base, names.around, path),
        Some(group) => told_of_declared(names.declarations, names.before, group, path.place),
    }
}
