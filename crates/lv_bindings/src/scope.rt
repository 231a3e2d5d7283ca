ghost use Rattle.std.specs.Prelude.{◌≡◌, ◌+◌, ◌≤◌, length, map, IfOk};
ghost use Rattle.lv_scopes.specs.NameLists.{listed};
ghost use Rattle.lv_declared.specs.Listing.{all_declared};
ghost use Rattle.lv_source.specs.Parts.{scope_declared};
ghost use Rattle.lv_flat.specs.Signals.{declared};
ghost use Rattle.lv_bindings.specs.Bound.{InBound};
ghost use Rattle.lv_bindings.specs.Grouping.{AreGrouped};
ghost use Rattle.lv_bindings.specs.Made.{AreNarrow};
ghost use Rattle.lv_bindings.specs.Order.{outside};
ghost use Rattle.lv_bindings.specs.Standing.{IsTable};
ghost use Rattle.lv_bindings.specs.Tables.{IsNamed};

use crate::around::Around;
use crate::groups::Groups;
use crate::order::{Standing, order};
use crate::table::{Table, bindings_of};
use lv_bits::NoMemory;
use lv_declared::Declaration;
use lv_symbols::Symbol;
use std::alloc::Global;

/// What the names of a scope stand for, and its signals in order.
pub struct Named {
    pub table: Table,
    pub signals: Vec<Standing>,
}

impl Drop for Named {
    fn drop(self) {
        let Named { table, signals } = self;
        drop(table);
        drop(signals);
    }
}

impl Named {
    pub fn into_parts(self) -> (Table, Vec<Standing>)
        ensures { result ≡ (self.table, self.signals) }
    {
        let Named { table, signals } = self;
        (table, signals)
    }
}

/// What the names of a scope stand for, and its signals and clocks in the order of their places, numbered from `first` on
/// (IEEE 1364-2005, sections 12.2 and 12.3).
pub fn name_scope(
    alloc: Global,
    around: &Around,
    groups: Groups,
    declarations: &[Declaration],
    symbols: &[Symbol],
    first: u64,
) -> Result<Named, NoMemory>
    requires grouped { AreGrouped (all_declared declarations.now) groups }
    requires narrow { AreNarrow symbols.now }
    requires numbers { first + length declarations.now ≤ u64.MAX }
    ensures signals { IfOk result (λ n. InBound (outside around.now) (all_declared declarations.now) symbols.now (λ f.
        map (λ z. declared z.signal) n.signals.items ≡ scope_declared f.scope)) }
    ensures table { IfOk result (λ n. InBound (outside around.now) (all_declared declarations.now) symbols.now (λ f.
        IsTable first (map (λ z. declared z.signal) n.signals.items) n.table f)) }
    ensures named { IfOk result (IsNamed (listed groups.names) groups.groups.items (outside around.now) (all_declared declarations.now) symbols.now first) }
{
    let signals = order(alloc, around, &groups, declarations, symbols)?;
    let bindings = bindings_of(
        alloc,
        groups.groups.as_slice(),
        symbols,
        signals.as_slice(),
        first,
    )?;
    let table = Table {
        names: groups.into_names(),
        bindings,
    };
    Ok(Named { table, signals })
}
