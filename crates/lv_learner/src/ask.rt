ghost use Rattle.std.specs.Prelude.{◌≡◌, IfOk};
ghost use Rattle.lv_product.specs.Queries.{FitsKept};
ghost use Rattle.lv_learner.specs.Answers.{IsFound};

use lv_bits::NoMemory;
use lv_blast::clauses_of;
use lv_clauses::Spent;
use lv_product::{Kept, Pair, Query, Task, window};
use lv_solver::{Answer, solve};
use std::alloc::Global;

/// What is found for a query.
#[derive(Drop)]
pub(crate) enum Found {
    /// A pair that meets it.
    Met(Pair),
    /// A refutation of its set.
    Unmet(Spent),
    /// A log on its set that spent the budget.
    Short(Spent),
}

/// Asks the solver for a query with this list.
pub(crate) fn ask(
    alloc: Global,
    task: &Task,
    kept: &Kept,
    query: Query,
    budget: u64,
) -> Result<Found, NoMemory>
    requires { FitsKept task.now kept.now.numbers.items }
    ensures { IfOk result (IsFound task.now kept.now.numbers.items query budget) }
{
    let product = window(alloc, task, kept, query)?;
    let encoded = clauses_of(alloc, product.graph(), product.goal())?;
    let answer = solve(alloc, encoded.set(), budget)?;
    match answer {
        Answer::Model(found) => {
            let words = encoded.inputs(alloc, &found)?;
            let pair = product.pair(alloc, words.as_slice())?;
            Ok(Found::Met(pair))
        }
        Answer::Refuted(log) => {
            let set = encoded.into_set();
            Ok(Found::Unmet(Spent { set, log }))
        }
        Answer::Budget(log) => {
            let set = encoded.into_set();
            Ok(Found::Short(Spent { set, log }))
        }
    }
}
