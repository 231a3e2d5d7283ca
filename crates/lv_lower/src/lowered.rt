ghost use Rattle.std.specs.Prelude.{◌≡◌, ℕ, true, List, IfOk};
ghost use Rattle.lv_source.specs.Views.{View};
ghost use Rattle.lv_netlist.specs.Net.{Net, HasNexts};
ghost use Rattle.lv_flat.specs.Cells.{all_cells, AreDistinct};
ghost use Rattle.lv_flat.specs.Signals.{Signals};
ghost use Rattle.lv_flat.specs.Judged.{is_good};
ghost use Rattle.lv_lower_exprs.specs.Tables.{IsTable, AreFirsts};
ghost use Rattle.lv_lower.specs.Slots.{names_of, all_slots};
ghost use Rattle.lv_lower.specs.Nexts.{with_nexts};
ghost use Rattle.lv_settles.specs.Lawful.{AreLawful};
ghost use Rattle.lv_settles.specs.Orders.{IsOrder};
ghost use Rattle.lv_settles.specs.Rules.{AreRight, signals_in};
ghost use Rattle.lv_lower.specs.Lowered.{IsLowered, IsSettling, IsCarried, LeavesNext};
ghost use Rattle.lv_lower.specs.Asked.{Expresses};

use lv_bits::NoMemory;
use lv_flat::{Flat, FlatExpr};
use lv_lower_exprs::{own, value};
use lv_netlist::Graph;
use lv_values::node;
use std::alloc::Global;

/// A design as a graph, with the node of each cell, and the number of the first cell of each signal.
pub struct Lowered {
    pub graph: Graph,
    pub table: Vec<u64>,
    pub first: Vec<u64>,
}

impl Drop for Lowered {
    fn drop(self) {
        let Lowered {
            graph,
            table,
            first,
        } = self;
        drop(graph);
        drop(table);
        drop(first);
    }
}

impl Lowered {
    /// The graph with a node for the expression's own value, and the number of that node. Inputs, registers, next nodes and the
    /// table stay.
    pub fn lower_expr(
        self,
        alloc: Global,
        flat: &Flat,
        e: &FlatExpr,
    ) -> Result<(Lowered, u64), NoMemory>
        requires good { is_good (names_of flat.now) e.now ≡ true }
        requires table { IsTable self.graph (all_cells (names_of flat.now)) self.table.items }
        requires first { AreFirsts (names_of flat.now) self.first.items }
        ensures is { IfOk result (λ r. Expresses (names_of flat.now) self r.0 e.now r.1) }
        ensures lowered { IfOk result (λ r. (vs : List View) → IsLowered (names_of flat.now) vs self.graph self.table.items self.first.items →
            IsLowered (names_of flat.now) vs r.0.graph r.0.table.items r.0.first.items) }
    {
        let Lowered {
            graph,
            table,
            first,
        } = self;
        let signals = flat.signals.as_slice();
        let mut b = graph.reopen();
        let of = own(signals, e);
        let x = value(alloc, &mut b, signals, &first, &table, e, of.0, of.1)?;
        let k = node(&mut b, x)?;
        let graph = b.finish();
        Ok((
            Lowered {
                graph,
                table,
                first,
            },
            k,
        ))
    }
}

/// A table that shows what the parts of an order leave is one of settled valuations. It does nothing: its contract is the law.
pub fn carried_table_settles()
    ensures { (S : Signals) (vs : List View) (order : List ℕ) (net : Net) (table : List ℕ) → AreDistinct (all_cells S) → AreLawful (signals_in S) vs →
        AreRight (signals_in S) vs → IsOrder vs order → IsCarried S vs order net table → IsSettling S vs net table }
{}

/// Where registers get as their next nodes those of a table that shows what the parts with a clock leave, the graph is that of the
/// design. It does nothing: its contract is the law.
pub fn table_with_nexts_is_lowered()
    ensures lowered { (S : Signals) (vs : List View) (order : List ℕ) (old : Net) (table done first : List ℕ) → IsCarried S vs order old table →
        IsSettling S vs old table → AreFirsts S first → IsTable old (all_cells S) done → LeavesNext S vs old table done →
        IsLowered S vs (with_nexts old (all_slots vs S) done) table first }
    ensures whole { (S : Signals) (vs : List View) (order : List ℕ) (old : Net) (table done : List ℕ) → IsCarried S vs order old table →
        IsTable old (all_cells S) done → HasNexts (with_nexts old (all_slots vs S) done) }
{}
