ghost use Rattle.std.specs.Prelude.{◌≡◌, ◌<◌, [], ◌∷◌, ◌++◌, length, slice_get, Some, OnOk, OnErr};

use lv_bits::NoMemory;
use lv_clauses::Lit;
use std::alloc::Global;
use std::marker::Model;

/// Where the literals of a clause begin, and how many they are.
#[derive(Clone, Copy)]
pub struct Span {
    pub start: u64,
    pub len: u64,
}

/// Clauses, whose literals all stand in one vector.
#[derive(Drop)]
pub struct Arena {
    lits: Vec<Lit>,
    spans: Vec<Span>,
}

impl Model for Arena {
    ghost use Rattle.std.specs.Prelude.{List, map, length};
    ghost use Rattle.lv_clauses.specs.Literals.{Lit as Literal};
    ghost use Rattle.lv_trail.specs.Arena.{part, AreSpans};

    ghost Value = { List (List Literal) };

    ghost view = { λ a. map (part a.lits.items) a.spans.items };

    ghost invariant = { λ a. AreSpans (length a.lits.items) a.spans.items };
}

impl Arena {
    pub fn new(alloc: Global) -> Arena
        ensures { result ≡ [] }
    {
        Arena {
            lits: Vec::new(alloc),
            spans: Vec::new(alloc),
        }
    }

    pub fn len(&self) -> u64
        ensures { result ≡ length self.now }
    {
        self.spans.len() as u64
    }

    /// The literals of clause k, from 0.
    pub fn lits(&self, k: u64) -> &[Lit]
        requires { k < length self.now }
        ensures { slice_get self.now k ≡ Some result.now }
    {
        let lits = self.lits.as_slice();
        let span = self.spans[k as usize];
        let start = span.start as usize;
        let end = start + span.len as usize;
        &lits[start..end]
    }

    pub fn push(&mut self, lits: &[Lit]) -> Result<(), NoMemory>
        ensures ok { OnOk result (self.new ≡ self.old ++ lits.now ∷ []) }
        ensures err { OnErr result (self.new ≡ self.old) }
    {
        let span = Span {
            start: self.lits.len() as u64,
            len: lits.len() as u64,
        };
        self.spans.reserve(1)?;
        self.lits.extend_from_slice(lits)?;
        self.spans.push_reserved(span);
        Ok(())
    }
}
