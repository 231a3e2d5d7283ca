ghost use Rattle.std.specs.Prelude.{◌≡◌, [], List, MatchOption, Contains, flat_map};
ghost use Rattle.std.specs.List.{list_any};
ghost use Rattle.lv_source.specs.Declarations as s;
ghost use Rattle.lv_source.specs.Declarations.{declared_as};
ghost use Rattle.lv_source.specs.ScopeRules.{listed_ports};
ghost use Rattle.lv_source.specs.Scopes as scopes;
ghost use Rattle.lv_scopes.specs.NameLists.{listed};
ghost use Rattle.lv_declared.specs.Listing.{declared, all_declared};
ghost use Rattle.lv_bindings.specs.Grouping.{AreGrouped};
ghost use Rattle.lv_repeats.specs.Named.{AreListed};
ghost use Rattle.lv_repeats.specs.Directions.{unlisted_in, undirected_in, directions_of};

use crate::names::has_name;
use lv_ast::{Ident, Ports};
use lv_bindings::Groups;
use lv_declared::{Declaration, Thing};
use lv_scopes::NameTable;

fn is_direction(declaration: &Declaration) -> bool
    ensures { result ≡ scopes.is_direction (declared declaration.now) }
{
    matches!(declaration.thing, Thing::Direction(_, _, _, _))
}

/// The place of the first direction of a name that isn't listed.
fn unlisted(names: &NameTable, declarations: &[Declaration]) -> Option<u64>
    ensures { MatchOption result (flat_map (unlisted_in (listed names.now)) (all_declared declarations.now) ≡ [])
        (Contains (flat_map (unlisted_in (listed names.now)) (all_declared declarations.now))) }
{
    for declaration in declarations {
        if is_direction(declaration) && !has_name(names, declaration.name.name.bytes()) {
            return Some(declaration.name.place);
        }
    }
    None
}

/// Whether a name is declared with a direction.
fn has_direction(groups: &Groups, name: &[u8]) -> bool
    ensures { (ds : List s.Declaration) → AreGrouped ds groups.now → result ≡ list_any scopes.is_direction (declared_as name.now ds) }
{
    match groups.find(name) {
        None => false,
        Some(group) => group.direction.is_some(),
    }
}

/// The place of the first of these names that is declared without a direction.
fn undirected(groups: &Groups, names: &[Ident]) -> Option<u64>
    ensures { (ds : List s.Declaration) → AreGrouped ds groups.now → MatchOption result (flat_map (undirected_in ds) names.now ≡ [])
        (Contains (flat_map (undirected_in ds) names.now)) }
{
    for name in names {
        if !has_direction(groups, name.name.bytes()) {
            return Some(name.place);
        }
    }
    None
}

/// The place of a port that is listed without a direction, or of a direction of a name that isn't listed.
pub(crate) fn direction_fault(
    groups: &Groups,
    names: &NameTable,
    declarations: &[Declaration],
    ports: &Ports,
) -> Option<u64>
    requires grouped { AreGrouped (all_declared declarations.now) groups.now }
    requires listed { AreListed (listed_ports ports.now) names.now }
    ensures { MatchOption result (directions_of ports.now (all_declared declarations.now) ≡ [])
        (Contains (directions_of ports.now (all_declared declarations.now))) }
{
    match ports {
        Ports::Declared(_) => None,
        Ports::Names(list) => match undirected(groups, list.as_slice()) {
            Some(place) => Some(place),
            None => unlisted(names, declarations),
        },
        Ports::Absent => unlisted(names, declarations),
        Ports::Empty => unlisted(names, declarations),
    }
}
