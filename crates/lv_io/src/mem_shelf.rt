ghost use Rattle.std.specs.Prelude.{◌≡◌, ◌≢◌, ◌≤◌, ℕ, List, [], ◌∷◌, length, Some, None, MatchOption, IfOk, OnOk, OnErr, IsErrOf, if◌then◌else◌};
ghost use Rattle.lv_io.specs.declared.shelf.ShelfError.TheVariants.{Missing, Failed, TooLong};
ghost use Rattle.lv_io.specs.Causes.{Rose, risen};
ghost use Rattle.lv_io.specs.Files.{HoldsFile, IsAbsent, IsLonger, ChangesOnly, StaysOrHoldsPart};
ghost use Rattle.lv_io.specs.MemFiles.{StandsAt, lookup, state_of, files_of, fails_of, calls_of, faults_of, misses_of, overlong_of, is_listed, Reads, Writes, MovesAt, CountsCall, KeepsCounts};

use crate::{Shelf, ShelfError};
use lv_bits::{Bytes, NoMemory, Text};
use std::alloc::Global;

#[derive(Drop)]
struct NamedFile {
    name: Text,
    bytes: Bytes,
}

/// A shelf in memory, with a list of the calls of `read` and `write`, by number from 0, that are to fail.
#[derive(Drop)]
pub struct MemShelf {
    files: Vec<NamedFile>,
    fails: Vec<u64>,
    calls: u64,
    faults: u64,
    misses: u64,
    overlong: u64,
}

// The place of the first file that has the name.
#[tactic(auto, using(crate::proofs::Lookup::passed_none, crate::proofs::Lookup::found_none))]
fn place_of(files: &[NamedFile], name: &[u8]) -> Option<usize>
    ensures { MatchOption result (lookup files.now name.now ≡ None) (StandsAt files.now name.now) }
{
    for (place, file) in files.iter().enumerate() {
        if file.name.bytes() == name {
            return Some(place);
        }
    }
    None
}

impl MemShelf {
    /// A shelf without files; `fails` has the numbers of the calls that are to fail.
    pub fn new(alloc: Global, fails: Vec<u64>) -> MemShelf
        ensures no_file { (name : List ℕ) → files_of result name ≡ None }
        ensures fails { fails_of result ≡ fails.items }
        ensures first_call { calls_of result ≡ 0 }
        ensures no_fault { faults_of result ≡ 0 }
        ensures no_miss { misses_of result ≡ 0 }
        ensures no_overlong { overlong_of result ≡ 0 }
    {
        MemShelf {
            files: Vec::new(alloc),
            fails,
            calls: 0,
            faults: 0,
            misses: 0,
            overlong: 0,
        }
    }

    /// Makes the file these bytes. It counts as no call.
    pub fn put(&mut self, name: Text, bytes: Bytes) -> Result<(), NoMemory>
        ensures file { OnOk result (files_of self.new name ≡ Some bytes) }
        ensures others { OnOk result ((other : List ℕ) → other ≢ name → files_of self.new other ≡ files_of self.old other) }
        ensures refused { OnErr result ((other : List ℕ) → files_of self.new other ≡ files_of self.old other) }
        ensures counts { KeepsCounts self.old self.new }
    {
        match place_of(&self.files, name.bytes()) {
            Some(place) => self.files[place] = NamedFile { name, bytes },
            None => self
                .files
                .push(NamedFile { name, bytes })
                .map_err(|_| NoMemory)?,
        }
        Ok(())
    }

    /// The bytes of the file, `None` exactly where no file has the name.
    pub fn get(&self, name: &Text) -> Option<&[u8]>
        ensures { MatchOption result (files_of self.now name.now ≡ None) (λ bytes. files_of self.now name.now ≡ Some bytes.now) }
    {
        let place = place_of(&self.files, name.bytes())?;
        Some(self.files[place].bytes.bytes())
    }

    // Counts a call, and says whether it is to fail.
    fn is_to_fail(&mut self) -> bool
        ensures listed { result ≡ is_listed self.old }
        ensures call { CountsCall self.old self.new }
        ensures faults { faults_of self.new ≡ (if result then risen (faults_of self.old) else faults_of self.old) }
        ensures faults_stay { faults_of self.old ≤ faults_of self.new }
        ensures misses { misses_of self.new ≡ misses_of self.old }
        ensures overlong { overlong_of self.new ≡ overlong_of self.old }
        ensures files { self.new.files ≡ self.old.files }
    {
        let call = self.calls;
        self.calls = call.saturating_add(1);
        let fails = self.fails.iter().any(|number| *number == call);
        if fails {
            self.faults = self.faults.saturating_add(1);
        }
        fails
    }
}

impl Shelf for MemShelf {
    ghost state = { state_of };

    fn read(&mut self, alloc: Global, name: &Text, limit: u64) -> Result<Bytes, ShelfError>
        ensures within { IfOk result (λ bytes. length bytes ≤ limit) }
        ensures found { IfOk result (λ bytes. HoldsFile name.now bytes (Some (files_of self.old))) }
        ensures missing { IsErrOf result Missing → Rose (misses_of self.old) (misses_of self.new) }
        ensures absent { IsErrOf result Missing → IsAbsent name.now (Some (files_of self.old)) }
        ensures too_long { IsErrOf result TooLong → Rose (overlong_of self.old) (overlong_of self.new) }
        ensures longer { IsErrOf result TooLong → IsLonger name.now limit (Some (files_of self.old)) }
        ensures failed { IsErrOf result Failed → Rose (faults_of self.old) (faults_of self.new) }
        ensures files_stay { Some (files_of self.new) ≡ Some (files_of self.old) }
        ensures faults_stay { faults_of self.old ≤ faults_of self.new }
        ensures misses_stay { misses_of self.old ≤ misses_of self.new }
        ensures overlong_stay { overlong_of self.old ≤ overlong_of self.new }

        ensures answer { Reads (is_listed self.old) (files_of self.old name.now) limit result }
        ensures call { CountsCall self.old self.new }
        ensures faults { MovesAt Failed result (faults_of self.old) (faults_of self.new) }
        ensures misses { MovesAt Missing result (misses_of self.old) (misses_of self.new) }
        ensures overlong { MovesAt TooLong result (overlong_of self.old) (overlong_of self.new) }
    {
        if self.is_to_fail() {
            return Err(ShelfError::Failed);
        }
        match self.get(name) {
            None => {
                self.misses = self.misses.saturating_add(1);
                Err(ShelfError::Missing)
            }
            Some(bytes) if (bytes.len() as u64) > limit => {
                self.overlong = self.overlong.saturating_add(1);
                Err(ShelfError::TooLong)
            }
            Some(bytes) => Ok(Bytes::new(alloc, bytes)?),
        }
    }

    fn write(&mut self, alloc: Global, name: &Text, bytes: &[u8]) -> Result<(), ShelfError>
        ensures written { OnOk result (HoldsFile name.now bytes.now (Some (files_of self.new))) }
        ensures failed { IsErrOf result Failed → Rose (faults_of self.old) (faults_of self.new) }
        ensures never_missing { result ≢ Err Missing }
        ensures never_too_long { result ≢ Err TooLong }
        ensures refused { OnErr result (StaysOrHoldsPart name.now bytes.now (Some (files_of self.old)) (Some (files_of self.new))) }
        ensures others { ChangesOnly name.now (Some (files_of self.old)) (Some (files_of self.new)) }
        ensures faults_stay { faults_of self.old ≤ faults_of self.new }
        ensures misses_stay { misses_of self.old ≤ misses_of self.new }
        ensures overlong_stay { overlong_of self.old ≤ overlong_of self.new }

        ensures answer { Writes (is_listed self.old) result }
        ensures call { CountsCall self.old self.new }
        ensures faults { MovesAt Failed result (faults_of self.old) (faults_of self.new) }
        ensures same_misses { misses_of self.new ≡ misses_of self.old }
        ensures same_overlong { overlong_of self.new ≡ overlong_of self.old }
        ensures same_file { OnErr result (files_of self.new name.now ≡ files_of self.old name.now) }
    {
        if self.is_to_fail() {
            return Err(ShelfError::Failed);
        }
        let name = name.copy(alloc)?;
        let bytes = Bytes::new(alloc, bytes)?;
        self.put(name, bytes)?;
        Ok(())
    }
}
