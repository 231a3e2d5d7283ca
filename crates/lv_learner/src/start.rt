ghost use Rattle.std.specs.Prelude.{◌≡◌, [], None, IfOk};
ghost use Rattle.lv_product.specs.Queries.{FitsKept};
ghost use Rattle.lv_learner.specs.Meeting.{CanBeMet};
ghost use Rattle.lv_learner.specs.Confirming.{IsOpening, IsOpened};

use crate::ask::{Found, ask};
use lv_bits::NoMemory;
use lv_clauses::Spent;
use lv_product::{Kept, Query, Task};
use std::alloc::Global;

/// Whether there is an initial pair, or an allowed input.
#[derive(Drop)]
pub(crate) enum Opening {
    /// There is one.
    There,
    /// There is none.
    Empty(Spent),
    /// The certificate's own doesn't meet this expression, and the budget was spent.
    Short(u64, Spent),
}

/// Asks the solver, if the certificate's own is none.
pub(crate) fn start(
    alloc: Global,
    task: &Task,
    kept: &Kept,
    query: Query,
    unmet: Option<u64>,
    budget: u64,
) -> Result<Opening, NoMemory>
    requires kept { FitsKept task.now kept.now.numbers.items }
    requires opening { IsOpening query }
    requires given { unmet ≡ None → CanBeMet task.now [] query }
    ensures { IfOk result (IsOpened task.now kept.now.numbers.items query budget unmet) }
{
    let Some(k) = unmet else {
        return Ok(Opening::There);
    };
    match ask(alloc, task, kept, query, budget)? {
        Found::Met(_) => Ok(Opening::There),
        Found::Unmet(spent) => Ok(Opening::Empty(spent)),
        Found::Short(spent) => Ok(Opening::Short(k, spent)),
    }
}
