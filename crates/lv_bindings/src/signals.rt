ghost use Rattle.std.specs.Prelude.{◌≡◌, bytes_eq, IfOk};
ghost use Rattle.std.specs.List.{list_any};
ghost use Rattle.std.specs.Option.{option_map};
ghost use Rattle.lv_scopes.specs.NameLists.{listed};
ghost use Rattle.lv_flat.specs.Signals as f;
ghost use Rattle.lv_bindings.specs.Made.{sort_by, made_by, IsNarrow, is_clock_by};

use crate::around::Around;
use crate::group::Group;
use crate::path::path_of;
use lv_ast::Ident;
use lv_bits::NoMemory;
use lv_flat::{Signal, Sort};
use lv_scopes::NameTable;
use lv_symbols::Symbol;
use std::alloc::Global;

/// A clock, a variable, an input of the top or a net.
fn sort_of(top: bool, clock: bool, group: Group) -> Sort
    ensures { f.sort_of result ≡ sort_by top clock group }
{
    if clock {
        Sort::Clock
    } else if group.variable {
        Sort::Variable
    } else if top && group.input {
        Sort::Input
    } else {
        Sort::Net
    }
}

fn is_among(names: &NameTable, name: &[u8]) -> bool
    ensures { result ≡ list_any (bytes_eq name.now) (listed names.now) }
{
    match names.find(name) {
        None => false,
        Some(_) => true,
    }
}

/// Whether it is an input of one bit to which a clock is connected.
fn is_clock(around: &Around, name: &Ident, group: Group, bounds: (u32, u32)) -> bool
    ensures { result ≡ is_clock_by (listed around.now.connected.now) name.now.name group bounds }
{
    let (left, right) = bounds;
    if !group.input {
        return false;
    }
    if left != right {
        return false;
    }
    is_among(around.connected, name.name.bytes())
}

/// The signal or the clock that a symbol and the declarations of the name make.
pub(crate) fn signal_of(
    alloc: Global,
    around: &Around,
    name: &Ident,
    group: Group,
    symbol: Symbol,
) -> Result<Option<Signal>, NoMemory>
    requires { IsNarrow symbol }
    ensures { IfOk result (λ o. option_map f.declared o ≡
        made_by around.now.path.now around.now.top (listed around.now.connected.now) name.now.name group symbol) }
{
    match symbol {
        Symbol::Signal(ranged, signed, bounds, array) => {
            let clock = is_clock(around, name, group, bounds);
            let sort = sort_of(around.top, clock, group);
            let path = path_of(alloc, around.path, &name.name)?;
            let (left, right) = bounds;
            let width = left.max(right) - left.min(right) + 1;
            Ok(Some(Signal {
                path,
                width,
                left,
                right,
                ranged,
                signed,
                array,
                sort,
            }))
        }
        Symbol::Constant => Ok(None),
        Symbol::Index(_) => Ok(None),
        Symbol::Other => Ok(None),
    }
}
