ghost use Rattle.std.specs.Prelude.{◌≡◌, ℕ, ◌+◌, ◌-◌, ◌*◌, ◌<◌, ◌≤◌, ◌^◌, List, [], ◌∷◌, ◌++◌, length, slice_index, slice_set, IfOk, replicate, vec_len, vec_capacity};
ghost use Rattle.lv_trail.specs.Chains.{code, mate, no_slot, slot_at};

use lv_bits::NoMemory;
use lv_clauses::Lit;
use std::alloc::Global;

/// One of the two slots of a clause: the list that it is in and the slot after it there, each 0 where there is none.
#[derive(Clone, Copy)]
pub struct Slot {
    pub list: u64,
    pub next: u64,
}

/// A list for each literal, threaded through slots that are numbered from 1, with two of them for each clause.
#[derive(Drop)]
pub struct Lists {
    pub heads: Vec<u64>,
    pub slots: Vec<Slot>,
}

/// The number of a literal's list.
pub fn list_of(lit: Lit) -> u64
    requires { lit.var < 2 ^ 60 }
    ensures { result ≡ code lit }
{
    let twice = 2 * lit.var();
    if lit.neg() { twice + 1 } else { twice }
}

/// The literal of a list.
pub fn lit_of(list: u64) -> Lit
    requires { 2 ≤ list }
    ensures { code result ≡ list }
{
    Lit::new(list / 2, list % 2 == 1)
}

/// A slot of no list.
fn no_slot() -> Slot
    ensures { result ≡ no_slot }
{
    Slot { list: 0, next: 0 }
}

impl Lists {
    /// Empty lists, and slots of none.
    pub fn new(alloc: Global, lists: u64, slots: u64) -> Result<Lists, NoMemory>
        ensures heads { IfOk result (λ l. l.heads.items ≡ replicate lists 0) }
        ensures slots { IfOk result (λ l. l.slots.items ≡ replicate slots no_slot) }
    {
        let none = no_slot();
        let heads = vec![in alloc; 0u64; lists as usize]?;
        let slots = vec![in alloc; none; slots as usize]?;
        Ok(Lists { heads, slots })
    }

    /// The slot after this one.
    pub fn next(&self, slot: u64) -> u64
        requires { (1 ≤ slot) × (slot ≤ length self.now.slots.items) }
        ensures { result ≡ (slot_at self.now.slots.items slot).next }
    {
        self.slots[(slot - 1) as usize].next
    }

    /// The list of the other slot of this one's clause.
    pub fn other(&self, slot: u64) -> u64
        requires low { 1 ≤ slot }
        requires high { mate slot ≤ length self.now.slots.items }
        ensures { result ≡ (slot_at self.now.slots.items (mate slot)).list }
    {
        let at = slot - 1;
        let other = if at % 2 == 0 { at + 1 } else { at - 1 };
        self.slots[other as usize].list
    }

    /// Puts a slot in front of a list.
    pub fn put(&mut self, slot: u64, list: u64)
        requires slot { (1 ≤ slot) × (slot ≤ length self.old.slots.items) }
        requires list { list < length self.old.heads.items }
        ensures heads { self.new.heads.items ≡ slice_set self.old.heads.items list slot }
        ensures slots { self.new.slots.items ≡ slice_set self.old.slots.items (slot - 1) (record { list = list; next = slice_index self.old.heads.items list }) }
    {
        let next = self.heads[list as usize];
        self.slots[(slot - 1) as usize] = Slot { list, next };
        self.heads[list as usize] = slot;
    }

    /// Takes all slots off a list, and gives the first.
    pub fn detach(&mut self, list: u64) -> u64
        requires { list < length self.old.heads.items }
        ensures first { result ≡ slice_index self.old.heads.items list }
        ensures heads { self.new.heads.items ≡ slice_set self.old.heads.items list 0 }
        ensures slots { self.new.slots.items ≡ self.old.slots.items }
    {
        let first = self.heads[list as usize];
        self.heads[list as usize] = 0;
        first
    }

    /// Adds two slots of no list.
    pub fn grow(&mut self)
        requires { vec_len self.old.slots + 2 ≤ vec_capacity self.old.slots }
        ensures heads { self.new.heads.items ≡ self.old.heads.items }
        ensures slots { self.new.slots.items ≡ self.old.slots.items ++ no_slot ∷ no_slot ∷ [] }
    {
        self.slots.push_reserved(no_slot());
        self.slots.push_reserved(no_slot());
    }

    /// Empties each list.
    pub fn clear(&mut self)
        ensures heads { self.new.heads.items ≡ replicate (length self.old.heads.items) 0 }
        ensures slots { self.new.slots.items ≡ replicate (length self.old.slots.items) no_slot }
    {
        self.heads.fill(0);
        self.slots.fill(no_slot());
    }
}
