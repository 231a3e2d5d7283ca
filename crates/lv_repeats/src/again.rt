ghost use Rattle.std.specs.Prelude.{◌≡◌, MatchOption, length};
ghost use Rattle.lv_scopes.specs.NameLists.{listed};
ghost use Rattle.lv_declared.specs.Listing.{declared, all_declared};
ghost use Rattle.lv_bindings.specs.Grouping.{AreGrouped};
ghost use Rattle.lv_source.specs.Scopes.{is_among};
ghost use Rattle.lv_repeats.specs.Pairs.{is_pair_at, place_at, again_by, again_in, NoneAgain, IsAgain};

use crate::names::has_name;
use crate::pair::{at, completes_other};
use lv_ast::Ident;
use lv_bindings::{Group, Groups};
use lv_declared::Declaration;
use lv_scopes::NameTable;
use lv_symbols::Symbol;

/// Whether two declarations of a name that is listed complete each other, and there is no third.
fn is_pair(
    listed: bool,
    declarations: &[Declaration],
    symbols: &[Symbol],
    group: Group,
    second: usize,
) -> bool
    ensures { result ≡ is_pair_at listed (all_declared declarations.now) symbols.now group.first second group.third }
{
    !group.third
        && listed
        && (completes_other(declarations, symbols, group.first, second)
            || completes_other(declarations, symbols, second, group.first))
}

/// The place of the declaration with this number.
fn place(declarations: &[Declaration], index: usize) -> Option<u64>
    ensures { result ≡ place_at (all_declared declarations.now) index }
{
    match at(declarations, index) {
        None => None,
        Some(declaration) => Some(declaration.name.place),
    }
}

/// The place of the second declaration of a name, unless it is one of a pair.
fn again_of(
    names: &NameTable,
    declarations: &[Declaration],
    symbols: &[Symbol],
    name: &Ident,
    group: Option<Group>,
) -> Option<u64>
    ensures { result ≡ again_by (listed names.now) (all_declared declarations.now) symbols.now name.now.name group }
{
    match group {
        None => None,
        Some(group) => match group.second {
            None => None,
            Some(second) => {
                let listed = has_name(names, name.name.bytes());
                if is_pair(listed, declarations, symbols, group, second) {
                    None
                } else {
                    place(declarations, second)
                }
            }
        },
    }
}

/// The place of the second declaration of a name, where it is none of a pair.
pub(crate) fn again(
    groups: &Groups,
    names: &NameTable,
    declarations: &[Declaration],
    symbols: &[Symbol],
) -> Option<u64>
    requires { AreGrouped (all_declared declarations.now) groups.now }
    ensures { MatchOption result (NoneAgain (listed names.now) (all_declared declarations.now) symbols.now (length declarations.now))
        (IsAgain (listed names.now) (all_declared declarations.now) symbols.now) }
{
    for index in 0..declarations.len() {
        let name = declarations[index].name;
        match again_of(names, declarations, symbols, name, groups.at(index)) {
            None => {}
            Some(place) => return Some(place),
        }
    }
    None
}
