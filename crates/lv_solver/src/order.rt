ghost use Rattle.std.specs.Prelude.{◌≡◌, ◌≤◌, IfSome};
ghost use Rattle.lv_trail.specs.Trail.{IsFree};

use crate::heap::Heap;
use lv_bits::NoMemory;
use lv_clauses::Lit;
use lv_trail::Trail;
use std::alloc::Global;

/// Which variables were in lines that were learnt, the later the more, the value that each had last, and when to begin anew.
/// Nothing is claimed of it: what it suggests is looked at before it is used.
pub struct Order {
    heap: Heap,
    signs: Vec<bool>,
    step: u64,
    conflicts: u64,
    inner: u64,
    outer: u64,
}

impl Drop for Order {
    fn drop(self) {
        let Order {
            heap,
            signs,
            step: _,
            conflicts: _,
            inner: _,
            outer: _,
        } = self;
        drop(heap);
        drop(signs);
    }
}

/// The step at which all scores are made smaller.
const MOST: u64 = 1 << 50;

/// The conflicts after which the search begins anew first.
const FEWEST: u64 = 100;

impl Order {
    pub fn new(alloc: Global, vars: u64) -> Result<Order, NoMemory> {
        let heap = Heap::new(alloc, vars)?;
        let signs = vec![in alloc; true; vars as usize]?;
        Ok(Order {
            heap,
            signs,
            step: 16,
            conflicts: 0,
            inner: FEWEST,
            outer: FEWEST,
        })
    }

    fn sign(&self, var: u64) -> bool {
        let place = var.wrapping_sub(1) as usize;
        self.signs.get(place).copied().unwrap_or(true)
    }

    /// Gives the variables of a line that was learnt a higher score.
    pub fn reward(&mut self, lits: &[Lit]) {
        for lit in lits {
            self.heap.raise(lit.var(), self.step);
        }
        self.step = self.step.saturating_add(self.step / 16);
        if self.step > MOST {
            self.heap.shrink(MOST);
            self.step = 16;
        }
    }

    /// Waits for all variables again, with the scores that they have.
    pub fn begin(&mut self) {
        for k in 0..self.signs.len() {
            self.heap.insert((k as u64).wrapping_add(1));
        }
        self.conflicts = 0;
    }

    /// Whether so many conflicts have been that the search should begin anew; the numbers grow as those of PicoSAT.
    pub fn is_due(&mut self) -> bool {
        self.conflicts = self.conflicts.saturating_add(1);
        if self.conflicts < self.inner {
            return false;
        }
        self.conflicts = 0;
        if self.inner >= self.outer {
            self.outer = self.outer.saturating_add(self.outer / 8);
            self.inner = FEWEST;
        } else {
            self.inner = self.inner.saturating_add(self.inner / 8);
        }
        true
    }

    /// Keeps the signs of the literals that are true above this level, and waits for their variables again.
    pub fn save(&mut self, trail: &Trail, level: u64) {
        let len = trail.len();
        for k in 0..len {
            let lit = trail.at(len - 1 - k);
            let var = lit.var();
            if let Some(_value) = trail.value(var) {
                if trail.level(var) <= level {
                    break;
                }
            }
            let place = var.wrapping_sub(1) as usize;
            if let Some(sign) = self.signs.get_mut(place) {
                *sign = lit.neg();
            }
            self.heap.insert(var);
        }
    }

    /// The literal of a variable with the sign that it had last, if it has no value.
    fn free(&self, trail: &Trail, var: u64) -> Option<Lit>
        requires { (1 ≤ var) × (var ≤ trail.now.vars) }
        ensures { IfSome result (IsFree trail.now) }
    {
        if trail.value(var).is_none() {
            let lit = Lit::new(var, self.sign(var));
            return Some(lit);
        }
        None
    }

    /// A literal without a value, of the variable with the highest score and with the sign that it had last.
    pub fn suggest(&mut self, trail: &Trail, vars: u64) -> Option<Lit>
        requires { vars ≡ trail.now.vars }
        ensures { IfSome result (IsFree trail.now) }
    {
        for _k in 0..vars {
            let var = self.heap.pop();
            if var < 1 || var > vars {
                return None;
            }
            if let Some(lit) = self.free(trail, var) {
                return Some(lit);
            }
        }
        None
    }
}
