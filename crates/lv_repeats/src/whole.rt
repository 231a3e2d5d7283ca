ghost use Rattle.std.specs.Prelude.{◌≡◌, map, IfOk};
ghost use Rattle.lv_source.specs.Scopes.{Scope};
ghost use Rattle.lv_declared.specs.Listing.{all_declared};
ghost use Rattle.lv_symbols.specs.Making.{symbol_of};
ghost use Rattle.lv_bindings.specs.Grouping.{AreGrouped};
ghost use Rattle.lv_repeats.specs.Whole.{WholeAnswer};

use crate::again::again;
use crate::directions::direction_fault;
use crate::names::listed_names;
use lv_ast::Ports;
use lv_bindings::Groups;
use lv_bits::NoMemory;
use lv_declared::Declaration;
use lv_faults::Fault;
use lv_symbols::Symbol;
use std::alloc::Global;

/// Whether the declarations of a scope are sound as a whole (IEEE 1364-2005, sections 4.11, 12.2 and 12.3), in each scope that has these
/// declarations, symbols and ports: `Duplicate` is a name that is declared again, but in a pair of a bare direction and a `wire` or `reg` of
/// equal range and sign that is listed; `Port` is a port that is listed without a direction, or has one without being listed. Where no name
/// is declared again there are no two ranges.
pub fn whole_fault(
    alloc: Global,
    groups: &Groups,
    declarations: &[Declaration],
    symbols: &[Symbol],
    ports: &Ports,
) -> Result<Option<Fault>, NoMemory>
    requires { AreGrouped (all_declared declarations.now) groups.now }
    ensures { IfOk result (λ r. (s : Scope) → s.declarations ≡ all_declared declarations.now → symbols.now ≡ map (symbol_of s.names) s.declarations →
        s.ports ≡ ports.now → WholeAnswer s r) }
{
    let names = listed_names(alloc, ports)?;
    match again(groups, &names, declarations, symbols) {
        Some(place) => Ok(Some(Fault::Duplicate(place))),
        None => match direction_fault(groups, &names, declarations, ports) {
            Some(place) => Ok(Some(Fault::Port(place))),
            None => Ok(None),
        },
    }
}
