ghost use Rattle.std.specs.Prelude.{◌≡◌, ◌<◌, ◌≤◌, ℕ, List, [], length, take, Some, vec_capacity, IfOk, OnErr, if◌then◌else◌};

use crate::{Failed, Sink};
use lv_bits::NoMemory;
use std::alloc::Global;

/// A sink in memory, with room for so many bytes. It takes so many bytes a call at most, and has a list of the calls
/// of `write`, by number from 0, that are to fail.
#[derive(Drop)]
pub struct MemSink {
    bytes: Vec<u8>,
    room: u64,
    most: u64,
    fails: Vec<u64>,
    calls: u64,
    faults: u64,
    ghost reserved: { room ≤ vec_capacity bytes },
    ghost takes_some: { 1 ≤ most },
}

impl MemSink {
    ghost use Rattle.lv_io.specs.MemGiven.{given_to, room_of, most_of, fails_of, calls_of, faults_of, is_listed, fails_at, finds_no_room, CountsCall};
    ghost use Rattle.lv_io.specs.Causes.{risen};

    /// An empty sink with `room` bytes reserved; a call takes `most` bytes at most, and those with the numbers
    /// `fails` fail.
    pub fn new(alloc: Global, room: u64, most: u64, fails: Vec<u64>) -> Result<MemSink, NoMemory>
        requires { 1 ≤ most }
        ensures empty { IfOk result (λ sink. given_to sink ≡ []) }
        ensures room { IfOk result (λ sink. room_of sink ≡ room) }
        ensures most { IfOk result (λ sink. most_of sink ≡ most) }
        ensures fails { IfOk result (λ sink. fails_of sink ≡ fails.items) }
        ensures first_call { IfOk result (λ sink. calls_of sink ≡ 0) }
        ensures no_fault { IfOk result (λ sink. faults_of sink ≡ 0) }
    {
        let bytes = Vec::with_capacity(alloc, room as usize)?;
        Ok(MemSink {
            bytes,
            room,
            most,
            fails,
            calls: 0,
            faults: 0,
        })
    }

    /// The bytes that the sink was given.
    pub fn bytes(&self) -> &[u8]
        ensures { result.now ≡ given_to self.now }
    {
        self.bytes.as_slice()
    }

    // Counts a call, and says whether it fails.
    fn is_to_fail(&mut self, piece: &[u8]) -> bool
        ensures fails { result ≡ fails_at self.old piece.now }
        ensures call { CountsCall self.old self.new }
        ensures faults { faults_of self.new ≡ (if result then risen (faults_of self.old) else faults_of self.old) }
        ensures faults_stay { faults_of self.old ≤ faults_of self.new }
        ensures bytes { self.new.bytes ≡ self.old.bytes }
    {
        let fails = self.fails_with(piece);
        self.calls = self.calls.saturating_add(1);
        if fails {
            self.faults = self.faults.saturating_add(1);
        }
        fails
    }

    fn fails_with(&self, piece: &[u8]) -> bool
        ensures { result ≡ fails_at self.now piece.now }
    {
        self.is_listed() || self.finds_no_room(piece)
    }

    fn is_listed(&self) -> bool
        ensures { result ≡ is_listed self.now }
    {
        self.fails.iter().any(|number| *number == self.calls)
    }

    fn finds_no_room(&self, piece: &[u8]) -> bool
        ensures { result ≡ finds_no_room self.now piece.now }
    {
        !piece.is_empty() && self.room <= self.bytes.len() as u64
    }
}

impl Sink for MemSink {
    ghost use Rattle.lv_io.specs.Causes.{Rose};
    ghost use Rattle.lv_io.specs.Given.{Gains};
    ghost use Rattle.lv_io.specs.MemGiven.{state_of, given_to, faults_of, fails_at, WritesBy, CountsCall};

    ghost state = { state_of };

    fn write(&mut self, piece: &[u8]) -> Result<usize, Failed>
        ensures within { IfOk result (λ count. count ≤ length piece.now) }
        ensures some { IfOk result (λ count. 0 < length piece.now → 0 < count) }
        ensures takes { IfOk result (λ count. Gains (Some (given_to self.old)) (Some (given_to self.new)) (take count piece.now)) }
        ensures refused { OnErr result (Some (given_to self.new) ≡ Some (given_to self.old)) }
        ensures failed { OnErr result (Rose (faults_of self.old) (faults_of self.new)) }
        ensures faults_stay { faults_of self.old ≤ faults_of self.new }

        ensures answer { WritesBy (fails_at self.old piece.now) self.old self.new piece.now result }
        ensures call { CountsCall self.old self.new }
    {
        if self.is_to_fail(piece) {
            return Err(Failed);
        }
        let room = (self.room as usize).saturating_sub(self.bytes.len());
        let count = (self.most as usize).min(room.min(piece.len()));
        match self.bytes.extend_from_slice(&piece[..count]) {
            Ok(()) => Ok(count),
            Err(_) => unreachable!(),
        }
    }
}
