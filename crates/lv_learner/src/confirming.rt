ghost use Rattle.std.specs.Prelude.{◌≡◌, IfOk};
ghost use Rattle.lv_learner.specs.Answers.{IsPossible};
ghost use Rattle.lv_learner.specs.Confirming.{FitsCert, IsConfirmed};

use crate::answers::Confirmed;
use crate::given::unmet;
use crate::judge::{Judged, judge};
use crate::start::{Opening, start};
use lv_bits::NoMemory;
use lv_cert::Cert;
use lv_product::{Kept, Query, Task};
use std::alloc::Global;

/// Whether the certificate's list is inductive and implies, once there is an initial pair and an allowed input.
fn confirm_list(
    alloc: Global,
    task: &Task,
    cert: &Cert,
    kept: &Kept,
    budget: u64,
) -> Result<Confirmed, NoMemory>
    requires cert { FitsCert task.now cert.now }
    requires kept { kept.now.numbers.items ≡ cert.now.kept.items }
    requires possible { IsPossible task.now }
    ensures { IfOk result (IsConfirmed task.now budget cert.now) }
{
    match judge(alloc, task, kept, Query::Base, &cert.base, budget)? {
        Judged::Holds => {}
        Judged::Met(pair) => return Ok(Confirmed::No(Query::Base, pair)),
        Judged::Short(at, log) => return Ok(Confirmed::Budget(Query::Base, at, log)),
    }
    match judge(alloc, task, kept, Query::Step, &cert.step, budget)? {
        Judged::Holds => {}
        Judged::Met(pair) => return Ok(Confirmed::No(Query::Step, pair)),
        Judged::Short(at, log) => return Ok(Confirmed::Budget(Query::Step, at, log)),
    }
    match judge(alloc, task, kept, Query::Imply, &cert.imply, budget)? {
        Judged::Holds => Ok(Confirmed::Yes),
        Judged::Met(pair) => Ok(Confirmed::No(Query::Imply, pair)),
        Judged::Short(at, log) => Ok(Confirmed::Budget(Query::Imply, at, log)),
    }
}

/// Whether a certificate's list is inductive and implies.
///
/// The list's numbers rise and are those of candidates; there is one value for each register in both states and one for each
/// input, of which the low bits of its width count. The clause sets are made anew. A derivation that refutes its set is
/// trusted; where it doesn't, and where the states or the input aren't an initial pair or allowed, the solver is asked, with
/// at most `budget` lines for each query.
pub fn confirm(alloc: Global, task: &Task, cert: &Cert, budget: u64) -> Result<Confirmed, NoMemory>
    requires { FitsCert task.now cert.now }
    ensures { IfOk result (IsConfirmed task.now budget cert.now) }
{
    let numbers = Vec::from_slice(alloc, cert.kept.as_slice())?;
    let kept = Kept { numbers };
    let failing = unmet(alloc, task, cert)?;
    match start(alloc, task, &kept, Query::Initial, failing.states, budget)? {
        Opening::There => {}
        Opening::Empty(spent) => return Ok(Confirmed::Empty(Query::Initial, spent)),
        Opening::Short(at, spent) => return Ok(Confirmed::Budget(Query::Initial, at, spent)),
    }
    match start(alloc, task, &kept, Query::Allowed, failing.input, budget)? {
        Opening::There => {}
        Opening::Empty(spent) => return Ok(Confirmed::Empty(Query::Allowed, spent)),
        Opening::Short(at, spent) => return Ok(Confirmed::Budget(Query::Allowed, at, spent)),
    }
    confirm_list(alloc, task, cert, &kept, budget)
}
