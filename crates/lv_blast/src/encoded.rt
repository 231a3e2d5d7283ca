ghost use Rattle.std.specs.Prelude.{◌≡◌, ℕ, ◌+◌, ◌^◌, ◌<◌, ◌≤◌, Bool, length, sum, slice_index, IfOk};
ghost use Rattle.lv_bits.specs.Values.{bit};
ghost use Rattle.lv_netlist.specs.Net.{Net, IsWidth};
ghost use Rattle.lv_clauses.specs.Values.{values_of, IsModel};
ghost use Rattle.lv_bits.specs.Digits.{number};
ghost use Rattle.lv_bits.specs.Digits.{bits_from, words_from};
ghost use Rattle.lv_blast.specs.Encoding.{input_widths, goal_at, IsEncoding};

use lv_bits::{NoMemory, Word};
use lv_clauses::{Assignment, ClauseSet};
use std::alloc::Global;
use std::marker::Model;

/// A graph's goal as clauses.
pub struct Encoded {
    set: ClauseSet,
    widths: Vec<u32>,
    gates: u64,
}

impl Model for Encoded {
    ghost use Rattle.lv_blast.specs.Encoded.{EncodedGoal, HasBits};

    ghost Value = { EncodedGoal };

    ghost view = { λ e. record { set = e.set; widths = e.widths.items; gates = e.gates } };

    ghost invariant = { λ e. HasBits e.set e.widths.items };
}

impl Drop for Encoded {
    fn drop(self) {
        let Encoded {
            set,
            widths,
            gates: _,
        } = self;
        drop(set);
        drop(widths);
    }
}

impl Encoded {
    ghost use Rattle.lv_blast.specs.Encoded.{HasBits};

    pub(crate) fn new(set: ClauseSet, widths: Vec<u32>, gates: u64) -> Encoded
        requires { HasBits set widths.items }
        ensures { result ≡ record { set = set; widths = widths.items; gates = gates } }
    {
        Encoded { set, widths, gates }
    }

    /// The clauses.
    pub fn set(&self) -> &ClauseSet
        ensures { result.now ≡ self.now.set }
    {
        &self.set
    }

    /// Gives the clauses away.
    pub fn into_set(self) -> ClauseSet
        ensures { result ≡ self.set }
    {
        let Encoded {
            set,
            widths: _,
            gates: _,
        } = self;
        set
    }

    /// The number of gates.
    pub fn gates(&self) -> u64
        ensures { result ≡ self.now.gates }
    {
        self.gates
    }

    /// The inputs whose bits the assignment has, in order; they make the goal 1.
    pub fn inputs(&self, alloc: Global, found: &Assignment) -> Result<Vec<Word>, NoMemory>
        requires { IsModel self.now.set found.now }
        ensures words { IfOk result (λ words. words.items ≡ words_from (values_of found.now) 1 self.now.widths) }
        ensures meets { IfOk result (λ words. (net : Net) (goal : ℕ) → IsEncoding net goal self.now.set → input_widths net ≡ self.now.widths → goal_at net goal words.items ≡ 1) }
    {
        words_of(alloc, self.widths.as_slice(), found)
    }
}

// The words of these widths, one after another from the first variable on.
fn words_of(alloc: Global, widths: &[u32], found: &Assignment) -> Result<Vec<Word>, NoMemory>
    requires each { (i : ℕ) → i < length widths.now → IsWidth (slice_index widths.now i) }
    requires room { sum widths.now ≤ length found.now }
    ensures { IfOk result (λ words. words.items ≡ words_from (values_of found.now) 1 widths.now) }
{
    let _count = found.values().len();
    let mut words = Vec::new(alloc);
    let mut from = 1u64;
    for width in widths {
        let word = word_of(found, from, *width);
        words.reserve(1)?;
        words.push_reserved(word);
        from += u64::from(*width);
    }
    Ok(words)
}

// The word whose lowest bit is this variable.
fn word_of(found: &Assignment, from: u64, width: u32) -> Word
    requires some { 1 ≤ from }
    requires width { IsWidth width }
    requires room { from + width ≤ length found.now + 1 }
    requires least { length found.now < 2 ^ 63 }
    ensures { result ≡ record { width = width; value = number (bits_from (values_of found.now) from width) } }
{
    let mut value = 0u128;
    for k in 0..width {
        let var = from + u64::from(width - 1 - k);
        let bit = bit_of(found.value(var));
        value = value * 2 + bit;
    }
    Word::new(width, value)
}

fn bit_of(set: bool) -> u128
    ensures { result ≡ bit set }
{
    if set { 1 } else { 0 }
}
