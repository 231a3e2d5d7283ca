ghost use Rattle.std.specs.Prelude.{◌≡◌, map, [], List, ℕ, IfOk};
ghost use Rattle.lv_bits.specs.Words.{Bits};
ghost use Rattle.lv_model.specs.Machine.{IsGreatest};
ghost use Rattle.lv_product.specs.Queries.{FitsKept, task_machine};
ghost use Rattle.lv_product.specs.declared.task.Query.TheVariants as q;
ghost use Rattle.lv_cert.specs.declared.cert.Cert.{Cert};
ghost use Rattle.lv_learner.specs.declared.answers.Sets.{Sets};
ghost use Rattle.lv_learner.specs.Meeting.{CanBeMet, Meets, HasAllInductive};
ghost use Rattle.lv_learner.specs.Answers.{IsLearnt, IsRefutedFor};

use crate::answers::{Learnt, Sets};
use crate::ask::{Found, ask};
use lv_bits::{NoMemory, Word};
use lv_cert::Cert;
use lv_clauses::Spent;
use lv_product::{Kept, Pair, Query, Task};
use std::alloc::Global;

/// The values of words.
fn values_of(alloc: Global, words: &[Word]) -> Result<Vec<u128>, NoMemory>
    ensures { IfOk result (λ v. v.items ≡ map (λ (w : Bits). w.value) words.now) }
{
    let mut values = Vec::new(alloc);
    for word in words {
        values.reserve(1)?;
        values.push_reserved(word.value());
    }
    Ok(values)
}

/// Whether the list that is left implies, and its certificate.
pub(crate) fn conclude(
    alloc: Global,
    task: &Task,
    kept: Kept,
    step: Spent,
    first: &Pair,
    allowed: &Pair,
    budget: u64,
) -> Result<Learnt, NoMemory>
    requires kept { FitsKept task.now kept.numbers.items }
    requires above { HasAllInductive task.now kept.numbers.items }
    requires base { CanBeMet task.now kept.numbers.items q.Base → ⊥ }
    requires step { IsRefutedFor task.now kept.numbers.items q.Step budget step.set step.log }
    requires first { Meets task.now [] q.Initial first.now }
    requires allowed { Meets task.now [] q.Allowed allowed.now }
    ensures { IfOk result (IsLearnt task.now budget) }
{
    let imply = match ask(alloc, task, &kept, Query::Imply, budget)? {
        Found::Met(pair) => return Ok(Learnt::Unproved(kept, pair)),
        Found::Unmet(spent) => spent,
        Found::Short(spent) => return Ok(Learnt::Budget(Query::Imply, spent)),
    };
    let base = match ask(alloc, task, &kept, Query::Base, budget)? {
        Found::Met(_) => unreachable!(),
        Found::Unmet(spent) => spent,
        Found::Short(spent) => return Ok(Learnt::Budget(Query::Base, spent)),
    };
    let left = values_of(alloc, first.left.as_slice())?;
    let right = values_of(alloc, first.right.as_slice())?;
    let input = values_of(alloc, allowed.inputs[0].words.as_slice())?;
    Ok(certified(kept, left, right, input, base, step, imply))
}

/// The answer with its certificate.
fn certified(
    kept: Kept,
    left: Vec<u128>,
    right: Vec<u128>,
    input: Vec<u128>,
    base: Spent,
    step: Spent,
    imply: Spent,
) -> Learnt
    ensures { let cert : Cert = record { kept = kept.numbers; left = left; right = right; input = input; base = base.log; step = step.log; imply = imply.log } in
        let sets : Sets = record { base = base.set; step = step.set; imply = imply.set } in
        result ≡ Learnt.Accepted cert sets }
{
    let Kept { numbers } = kept;
    let cert = Cert {
        kept: numbers,
        left,
        right,
        input,
        base: base.log,
        step: step.log,
        imply: imply.log,
    };
    let sets = Sets {
        base: base.set,
        step: step.set,
        imply: imply.set,
    };
    Learnt::Accepted(cert, sets)
}
