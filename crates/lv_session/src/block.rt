ghost use Rattle.std.specs.Prelude.{◌≡◌, ◌↔◌, [], map, length, IfOk, OnOk, IsTrue};
ghost use Rattle.lv_clauses.specs.Literals.{negated, IsWithin};
ghost use Rattle.lv_clauses.specs.Derivations.{IsDerivation};
ghost use Rattle.lv_solver.specs.Solving.{IsEnd};
ghost use Rattle.lv_solver.specs.declared.solve_set.End.TheVariants.{Empty};
ghost use Rattle.lv_session.specs.Session.{with_units, AreApart, IsWider, IsBlocked};
ghost use Rattle.lv_session.specs.Blocking.{IsChosen, IsCore, IsLess, EndsEmpty, IsBehind};

use crate::fit::add_units;
use crate::keep::{is_there, keep};
use crate::row::Row;
use lv_bits::NoMemory;
use lv_clauses::{ClauseSet, Derivation, Lit};
use lv_solver::{End, Order, Work, search};
use std::alloc::Global;

/// Literals that can't all be true, and the hints of the empty line that shows it.
struct Core {
    lits: Vec<Lit>,
    hints: Vec<u64>,
}

impl Drop for Core {
    fn drop(self) {
        let Core { lits, hints } = self;
        drop(lits);
        drop(hints);
    }
}

/// The assumed literals whose units a row has.
fn chosen(alloc: Global, assumed: &[Lit], row: &Row) -> Result<Vec<Lit>, NoMemory>
    requires len { length row.now ≡ length assumed.now }
    requires apart { AreApart assumed.now }
    ensures { IfOk result (λ lits. IsChosen assumed.now row.now lits.items) }
{
    let mut lits = Vec::new(alloc);
    for (k, lit) in assumed.iter().enumerate() {
        if row.has(k as u64) {
            lits.reserve(1)?;
            lits.push_reserved(*lit);
        }
    }
    Ok(lits)
}

/// The negation of each literal.
fn negations(alloc: Global, lits: &[Lit]) -> Result<Vec<Lit>, NoMemory>
    ensures { IfOk result (λ all. all.items ≡ map negated lits.now) }
{
    let mut all = Vec::new(alloc);
    for lit in lits {
        all.reserve(1)?;
        all.push_reserved(lit.negated());
    }
    Ok(all)
}

/// Whether a search that ended so refuted its set.
fn is_refuted(end: &End) -> bool
    ensures { IsTrue result ↔ (end.now ≡ Empty) }
{
    match end {
        End::Found(_) => false,
        End::Empty => true,
        End::Spent => false,
    }
}

/// Keeps what the lines of a refutation give, and tells what its empty line rests on.
fn learn(
    alloc: Global,
    set: &mut ClauseSet,
    assumed: &[Lit],
    log: &Derivation,
) -> Result<Core, NoMemory>
    requires within { IsWithin assumed.now set.old.vars }
    requires apart { AreApart assumed.now }
    requires derivation { IsDerivation (with_units set.old assumed.now) log.now }
    requires ends { EndsEmpty log.now }
    ensures wider { IsWider set.old set.new }
    ensures core { IfOk result (λ core. IsCore assumed.now set.new core.lits.items) }
{
    let rows = keep(alloc, set, assumed, log)?;
    let last = log.len() - 1;
    let lits = chosen(alloc, assumed, &rows[last as usize])?;
    let hints = Vec::from_slice(alloc, log.line(last).hints())?;
    Ok(Core { lits, hints })
}

/// Whether a clause that the empty line names has only negations of the literals.
fn is_blocked(alloc: Global, set: &ClauseSet, core: &Core) -> Result<bool, NoMemory>
    ensures { IfOk result (λ yes. IsTrue yes → IsBlocked core.now.lits.items set.now) }
{
    let all = negations(alloc, &core.lits)?;
    Ok(is_there(set, &core.hints, &all))
}

/// Adds the clause of the negations, unless there is one already.
fn block(alloc: Global, set: &mut ClauseSet, assumed: &[Lit], core: &Core) -> Result<(), NoMemory>
    requires within { IsWithin assumed.now set.old.vars }
    requires core { IsCore assumed.now set.old core.now.lits.items }
    ensures wider { IsWider set.old set.new }
    ensures blocked { OnOk result (IsBlocked assumed.now set.new) }
{
    if is_blocked(alloc, set, core)? {
        return Ok(());
    }
    let all = negations(alloc, &core.lits)?;
    set.add(&all)?;
    Ok(())
}

/// Searches with a unit clause for each of these literals, which are left behind the clauses that were there.
fn search_with(
    alloc: Global,
    set: &mut ClauseSet,
    order: &mut Order,
    lits: &[Lit],
    budget: u64,
    log: &mut Derivation,
) -> Result<End, NoMemory>
    requires within { IsWithin lits.now set.old.vars }
    requires log { log.old ≡ [] }
    ensures behind { IsBehind set.old set.new }
    ensures end { IfOk result (IsEnd (with_units set.old lits.now) budget 18446744073709551615 log.new) }
{
    add_units(set, lits)?;
    order.begin();
    let mut work = Work::none();
    search(alloc, set, budget, u64::MAX, order, log, &mut work)
}

/// What a second search rests on, with these literals alone assumed, if it refutes them within as many lines.
fn less(
    alloc: Global,
    set: &mut ClauseSet,
    order: &mut Order,
    lits: &[Lit],
    budget: u64,
) -> Result<Option<Core>, NoMemory>
    requires within { IsWithin lits.now set.old.vars }
    requires apart { AreApart lits.now }
    ensures wider { IsWider set.old set.new }
    ensures core { IfOk result (IsLess lits.now set.new) }
{
    let len = set.len();
    let mut log = Derivation::new(alloc);
    let end = search_with(alloc, set, order, lits, budget, &mut log);
    set.cut(len);
    if !is_refuted(&end?) {
        return Ok(None);
    }
    let core = learn(alloc, set, lits, &log)?;
    Ok(Some(core))
}

/// Keeps what the lines of a refutation give, and a clause of negations of assumed literals: of those that it rests on, or of fewer where
/// a second search, with these alone assumed, rests on fewer.
fn keep_refuted(
    alloc: Global,
    set: &mut ClauseSet,
    order: &mut Order,
    assumed: &[Lit],
    log: &Derivation,
) -> Result<(), NoMemory>
    requires within { IsWithin assumed.now set.old.vars }
    requires apart { AreApart assumed.now }
    requires derivation { IsDerivation (with_units set.old assumed.now) log.now }
    requires ends { EndsEmpty log.now }
    ensures wider { IsWider set.old set.new }
    ensures blocked { OnOk result (IsBlocked assumed.now set.new) }
{
    let core = learn(alloc, set, assumed, log)?;
    if core.lits.len() > 1 && !is_blocked(alloc, set, &core)? {
        if let Some(short) = less(alloc, set, order, &core.lits, log.len())? {
            block(alloc, set, &core.lits, &short)?;
            return Ok(());
        }
    }
    block(alloc, set, assumed, &core)
}

/// Keeps what the lines of a search give, and where it ended with an empty line a clause of negations of assumed literals.
pub fn keep_all(
    alloc: Global,
    set: &mut ClauseSet,
    order: &mut Order,
    assumed: &[Lit],
    log: &Derivation,
    end: &End,
) -> Result<(), NoMemory>
    requires within { IsWithin assumed.now set.old.vars }
    requires apart { AreApart assumed.now }
    requires derivation { IsDerivation (with_units set.old assumed.now) log.now }
    requires ends { end.now ≡ Empty → EndsEmpty log.now }
    ensures wider { IsWider set.old set.new }
    ensures blocked { OnOk result (end.now ≡ Empty → IsBlocked assumed.now set.new) }
{
    if is_refuted(end) {
        return keep_refuted(alloc, set, order, assumed, log);
    }
    keep(alloc, set, assumed, log)?;
    Ok(())
}
