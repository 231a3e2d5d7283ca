//! A one-bit design with its observers, as formulas over its registers and inputs.

ghost use Rattle.std.specs.Prelude.{◌≡◌, ◌≤◌, ◌+◌, ◌*◌, length};

use crate::formula::Formula;
use sqlite_items::Items;

/// Registers are the first variables, inputs the next ones.
#[derive(Drop)]
pub(crate) struct Problem {
    pub(crate) registers: usize,
    pub(crate) inputs: usize,
    /// The next value of each register.
    pub(crate) next: Items<Formula>,
    pub(crate) retire: Formula,
    pub(crate) contract: Items<Formula>,
    pub(crate) attacker: Items<Formula>,
    /// The registers that an initial pair shares.
    pub(crate) equal: Items<usize>,
    ghost small: { 2 * registers + 2 * inputs + 1 ≤ 16 },
    ghost matched: { length next ≡ registers },
}
