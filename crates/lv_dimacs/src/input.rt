use lv_bits::NoMemory;
use lv_clauses::{ClauseSet, Lit, are_within};
use std::alloc::Global;

/// Clauses, and the most lines that may be written on them.
#[derive(Drop)]
pub struct Input {
    pub set: ClauseSet,
    pub budget: u64,
}

impl Input {
    pub fn new(alloc: Global) -> Input {
        Input {
            set: ClauseSet::new(alloc, 0),
            budget: 1_000_000,
        }
    }

    /// Reads a line: `p cnf VARIABLES CLAUSES`, `c budget LINES`, another comment, or the literals of one clause.
    pub fn read(&mut self, alloc: Global, line: &str) -> Result<(), NoMemory> {
        if let Some(rest) = line.strip_prefix("p cnf ") {
            let vars = rest.split(' ').next().unwrap_or("");
            self.set = ClauseSet::new(alloc, vars.parse::<u64>().unwrap_or(0));
            return Ok(());
        }
        if let Some(rest) = line.strip_prefix("c budget ") {
            self.budget = rest.parse::<u64>().unwrap_or(0);
            return Ok(());
        }
        if line.starts_with('c') || line.is_empty() {
            return Ok(());
        }
        self.add(alloc, line)
    }

    fn add(&mut self, alloc: Global, line: &str) -> Result<(), NoMemory> {
        let mut lits: Vec<Lit> = Vec::new(alloc);
        for word in line.split(' ') {
            let number = word.parse::<i64>().unwrap_or(0);
            if number != 0 {
                lits.reserve(1)?;
                lits.push_reserved(Lit::new(number.unsigned_abs().max(1), number < 0));
            }
        }
        if are_within(&lits, self.set.vars()) {
            self.set.add(&lits)?;
        }
        Ok(())
    }
}
