ghost use Rattle.std.specs.Prelude.{IsTrue, length, ◌&&◌};
ghost use Rattle.std.specs.List.{list_all};
ghost use Rattle.lv_contract.specs.declared.key.Key.TheVariants as k;
ghost use Rattle.lv_contract.specs.Values.{is_printable, is_name};
ghost use Rattle.lv_contract.specs.Ranges.{in_range, in_count, is_name_or_none, is_port_count, are_same};
ghost use Rattle.lv_contract.specs.Named.{contract_counts};

use crate::named::{Guarded, Named, PortText, SimInput, SimState};
use lv_bits::Text;
use sqlite_items::Items;

/// What a simulation shows, and what it starts from.
pub struct SimTable {
    pub cycles: u64,
    pub show: Items<Named>,
    pub state: Items<SimState>,
    pub input: Items<SimInput>,
    ghost cycles_range: { IsTrue (in_range k.SimulatedCycles cycles) },
    ghost counted: { IsTrue (in_count k.Show (length show) && in_count k.State (length state) && in_count k.Input (length input)) },
}

impl Drop for SimTable {
    fn drop(self) {
        let SimTable {
            cycles: _,
            show,
            state,
            input,
        } = self;
        drop(show);
        drop(state);
        drop(input);
    }
}

/// A contract file, with the ranges of its keys. The fields are named for the keys; `registers`, `equal`, `guarded`, `each` and
/// `aligned` are the keys `registers`, `equal`, `when`, `each` and `aligned` of `candidates`.
pub struct Contract {
    pub format: u64,
    pub files: Items<Text>,
    pub top: Text,
    pub clock: Text,
    pub lookahead: u32,
    pub budget: u64,
    pub certificate: Option<Text>,
    pub cycles: u64,
    pub ports: Items<PortText>,
    pub attacker: Items<Named>,
    pub assume: Items<Named>,
    pub initial_equal: Items<Named>,
    pub initial_each: Items<Named>,
    pub registers: bool,
    pub equal: Items<Named>,
    pub guarded: Items<Guarded>,
    pub each: Items<Named>,
    pub aligned: bool,
    pub sim: Option<SimTable>,
    ghost numbers: { IsTrue (in_range k.Format format && in_range k.Lookahead lookahead && in_range k.Budget budget && in_range k.Cycles cycles) },
    ghost names: { IsTrue (is_name top && is_name clock && is_name_or_none certificate) },
    ghost filed: { IsTrue (in_count k.Files (length files) && list_all is_printable files) },
    ghost port_count: { IsTrue (is_port_count format (length ports)) },
    ghost port_shape: { IsTrue (are_same (contract_counts ports)) },
    ghost observed: { IsTrue (in_count k.Attacker (length attacker) && in_count k.Assume (length assume)) },
    ghost started: { IsTrue (in_count k.Equal (length initial_equal) && in_count k.Each (length initial_each)) },
    ghost listed: { IsTrue (in_count k.Equal (length equal) && in_count k.When (length guarded) && in_count k.Each (length each)) },
}

impl Drop for Contract {
    fn drop(self) {
        let Contract {
            format: _,
            files,
            top,
            clock,
            lookahead: _,
            budget: _,
            certificate,
            cycles: _,
            ports,
            attacker,
            assume,
            initial_equal,
            initial_each,
            registers: _,
            equal,
            guarded,
            each,
            aligned: _,
            sim,
        } = self;
        drop(files);
        drop(top);
        drop(clock);
        drop(certificate);
        drop(ports);
        drop(attacker);
        drop(assume);
        drop(initial_equal);
        drop(initial_each);
        drop(equal);
        drop(guarded);
        drop(each);
        drop(sim);
    }
}
