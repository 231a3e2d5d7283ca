use lv_bindings::{Standing, Table};
use lv_const::Entry;
use lv_scopes::NameTable;

/// What a scope declares.
pub struct Opened {
    /// What its names stand for.
    pub table: Table,
    /// Its signals and clocks, in the order of their places.
    pub signals: Vec<Standing>,
    /// The constants before its first declaration, and behind them one for each of its parameters.
    pub entries: Vec<Entry>,
    /// The names of its outputs.
    pub outputs: NameTable,
}

impl Drop for Opened {
    fn drop(self) {
        let Opened {
            table,
            signals,
            entries,
            outputs,
        } = self;
        drop(table);
        drop(signals);
        drop(entries);
        drop(outputs);
    }
}
