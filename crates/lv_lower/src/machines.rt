ghost use Rattle.std.specs.Prelude.{ℕ, List};
ghost use Rattle.lv_model.specs.Machine.{AreSame};
ghost use Rattle.lv_model.specs.Design.{Observers, machine_of};
ghost use Rattle.lv_source.specs.Names.{Valuation};
ghost use Rattle.lv_source.specs.Views.{View};
ghost use Rattle.lv_netlist.specs.Net.{Net, IsNet, HasNexts};
ghost use Rattle.lv_netlist.specs.Stepping.{graph_machine};
ghost use Rattle.lv_flat.specs.Cells.{all_cells, AreDistinct};
ghost use Rattle.lv_flat.specs.Signals.{Signals};
ghost use Rattle.lv_settles.specs.Rules.{signals_in};
ghost use Rattle.lv_lower.specs.Lowered.{IsLowered};
ghost use Rattle.lv_lower.specs.Machines.{view_design, cycle_valuation, through};

/// The machine of a design's views and that of its graph are one, where observers see the valuation of a cycle. It does nothing:
/// its contract is the law.
pub fn machines_are_same()
    ensures { (S : Signals) (vs : List View) (net : Net) (table first : List ℕ) (o : Observers Valuation) → IsLowered S vs net table first → IsNet net →
        HasNexts net → AreDistinct (all_cells S) →
        AreSame (machine_of (view_design (signals_in S) vs) o) (graph_machine net (through (cycle_valuation net (all_cells S) table) o)) }
{}
