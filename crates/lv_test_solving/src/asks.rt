use crate::session::{Kind, ask_lits};
use crate::sets::add;
use lv_bits::NoMemory;
use lv_clauses::{ClauseSet, Lit};
use lv_session::Session;
use std::alloc::Global;
use std::test::Fail;

/// Numbers that look random (Knuth's multiplier of 64 bits).
#[derive(Drop)]
struct Numbers {
    state: u64,
}

impl Numbers {
    fn below(&mut self, count: u64) -> u64 {
        let next = self.state.wrapping_mul(6364136223846793005);
        self.state = next.wrapping_add(1442695040888963407);
        (self.state >> 33) % count.max(1)
    }

    /// Literals of the first six variables.
    fn lits(&mut self, alloc: Global, count: u64) -> Result<Vec<Lit>, NoMemory> {
        let mut lits = Vec::new(alloc);
        for _k in 0..count {
            let lit = Lit::new(self.below(7).max(1), self.below(2) == 0);
            lits.reserve(1)?;
            lits.push_reserved(lit);
        }
        Ok(lits)
    }

    fn set(&mut self, alloc: Global, count: u64) -> Result<ClauseSet, NoMemory> {
        let mut set = ClauseSet::new(alloc, 6);
        for _k in 0..count {
            let lits = self.lits(alloc, 3)?;
            add(&mut set, &lits)?;
        }
        Ok(set)
    }
}

/// Whether a literal is true where bit v is the value of variable v.
fn is_true(lit: Lit, bits: u64) -> bool {
    let value = (bits >> lit.var().min(63)) & 1 == 1;
    value != lit.neg()
}

fn satisfies(set: &ClauseSet, bits: u64) -> bool {
    for k in 0..set.len() {
        let clause = set.clause(k + 1);
        if !clause.lits().iter().any(|lit| is_true(*lit, bits)) {
            return false;
        }
    }
    true
}

/// Whether some values of the first six variables satisfy the set.
fn has_model(set: &ClauseSet) -> bool {
    (0..128u64).any(|bits| satisfies(set, bits))
}

/// How often a model was right, a refutation was right, and something else was answered.
#[derive(Clone, Copy, Debug, PartialEq, Eq)]
struct Counts {
    models: u64,
    refuted: u64,
    wrong: u64,
}

impl Counts {
    fn count(&mut self, kind: Kind, has_model: bool) {
        let place = match (kind, has_model) {
            (Kind::Unasked, _) => return,
            (Kind::Model, true) => &mut self.models,
            (Kind::Refuted, false) => &mut self.refuted,
            _ => &mut self.wrong,
        };
        *place = place.saturating_add(1);
    }
}

/// Asks one random set six times.
fn count_asks(alloc: Global, seed: u64, counts: &mut Counts) -> Result<(), NoMemory> {
    let mut numbers = Numbers { state: seed };
    let clauses = numbers.below(16).saturating_add(8);
    let mut session = Session::new(alloc, numbers.set(alloc, clauses)?)?;
    for k in 0..6u64 {
        let lits = numbers.lits(alloc, k)?;
        let kind = ask_lits(alloc, &mut session, &lits, 1000)?;
        counts.count(kind, has_model(session.asked()));
    }
    Ok(())
}

#[test]
fn agrees_with_all_assignments(rt: HostRuntime) -> Result<(), Fail> {
    let alloc = rt.alloc();
    let mut counts = Counts {
        models: 0,
        refuted: 0,
        wrong: 0,
    };
    for seed in 0..30 {
        if count_asks(alloc, seed, &mut counts).is_err() {
            return Err(Fail::from("no memory"));
        }
    }
    assert!(rt;
        counts.wrong == 0 && counts.models >= 20 && counts.refuted >= 20,
        "{counts:?}"
    );
    Ok(())
}
