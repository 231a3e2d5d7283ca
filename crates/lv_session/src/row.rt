ghost use Rattle.std.specs.Prelude.{◌≡◌, ℕ, ◌<◌, ◌≤◌, length, IfOk, IsTrue};
ghost use Rattle.lv_session.specs.Keeping.{is_used, AreRows, AreUses, IsUse, IsMore};

use lv_bits::NoMemory;
use std::alloc::Global;
use std::marker::Model;

/// For each assumed literal whether a line rests on its unit clause.
#[derive(Drop)]
pub struct Row {
    used: Vec<bool>,
}

impl Model for Row {
    ghost use Rattle.std.specs.Prelude.{List, Bool};

    ghost Value = { List Bool };

    ghost view = { λ r. r.used.items };
}

impl Row {
    pub fn new(alloc: Global, len: u64) -> Result<Row, NoMemory>
        ensures { IfOk result (λ r. length r ≡ len) }
    {
        let used = vec![in alloc; false; len as usize]?;
        Ok(Row { used })
    }

    pub fn has(&self, k: u64) -> bool
        requires { k < length self.now }
        ensures { result ≡ is_used self.now k }
    {
        self.used[k as usize]
    }

    /// Marks one place.
    fn mark(&mut self, k: u64)
        requires { k < length self.old }
        ensures len { length self.new ≡ length self.old }
        ensures more { IsMore self.old self.new }
        ensures marked { IsTrue (is_used self.new k) }
    {
        self.used[k as usize] = true;
    }

    /// Marks all places that another row has.
    fn merge(&mut self, other: &Row)
        requires { length other.now ≡ length self.old }
        ensures len { length self.new ≡ length self.old }
        ensures more { IsMore self.old self.new }
        ensures merged { IsMore other.now self.new }
    {
        let len = self.used.len() as u64;
        for k in 0..len {
            if other.has(k) {
                self.mark(k);
            }
        }
    }
}

/// Marks what a hint uses, where `n` clauses and `m` units stand before the lines.
fn use_hint(row: &mut Row, n: u64, m: u64, rows: &[Row], hint: u64)
    requires len { length row.old ≡ m }
    requires rows { AreRows m rows.now }
    ensures len { length row.new ≡ m }
    ensures more { IsMore row.old row.new }
    ensures hint { IsUse n m rows.now hint row.new }
{
    if hint <= n {
        return;
    }
    let place = hint - n - 1;
    if place < m {
        row.mark(place);
        return;
    }
    let at = (place - m) as usize;
    if at < rows.len() {
        row.merge(&rows[at]);
    }
}

/// The units that a line with these hints rests on.
pub fn row_of(alloc: Global, n: u64, m: u64, rows: &[Row], hints: &[u64]) -> Result<Row, NoMemory>
    requires { AreRows m rows.now }
    ensures len { IfOk result (λ row. length row ≡ m) }
    ensures uses { IfOk result (AreUses n m rows.now hints.now) }
{
    let mut row = Row::new(alloc, m)?;
    for hint in hints {
        use_hint(&mut row, n, m, rows, *hint);
    }
    Ok(row)
}
