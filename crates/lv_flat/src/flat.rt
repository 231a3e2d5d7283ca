ghost use Rattle.std.specs.Prelude.{IsTrue};
ghost use Rattle.lv_flat.specs.Cells.{AreDistinct, all_cells};
ghost use Rattle.lv_flat.specs.Signals.{declared_all};
ghost use Rattle.lv_flat.specs.Good.{are_good};

use crate::part::FlatPart;
use crate::signal::Signal;
use lv_bits::Text;
use sqlite_items::Items;

/// A flat design: its signals with its clocks among them, in the order of their declarations, and its parts. No two signals
/// have a cell of one name, and all that stands in the parts is good: each number is that of a signal or of a clock, each
/// width is 1 to 128, and each select is one that the name takes.
pub struct Flat {
    /// The name of the top module.
    pub top: Text,
    /// The name of its clock.
    pub clock: Text,
    pub signals: Items<Signal>,
    pub parts: Items<FlatPart>,
    ghost distinct: { AreDistinct (all_cells (declared_all signals)) },
    ghost good: { IsTrue (are_good (declared_all signals) parts) },
}

impl Drop for Flat {
    fn drop(self) {
        let Flat {
            top,
            clock,
            signals,
            parts,
        } = self;
        drop(top);
        drop(clock);
        drop(signals);
        drop(parts);
    }
}
