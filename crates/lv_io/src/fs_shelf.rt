ghost use Rattle.std.specs.Prelude.{◌≡◌, ◌≢◌, ◌≤◌, ℕ, None, length, vec_len, IfOk, IsErrOf};
ghost use Rattle.lv_io.specs.declared.shelf.ShelfError.TheVariants.{Missing, TooLong};

use crate::{Shelf, ShelfError};
use lv_bits::{Bytes, Text};
use std::alloc::Global;
use std::io::{ErrorKind, Read};
use std::rt::Files;
use std::{fs, io, str};

// How many bytes of a file are asked for at once.
const CHUNK: usize = 8192;

/// The system's files. Names go to the system unchanged, so a relative one counts from the current folder; one that
/// isn't UTF-8 can't be handed on, and fails. It tells no files.
#[derive(Drop)]
pub struct FsShelf<R> {
    runtime: R,
    faults: u64,
    misses: u64,
    overlong: u64,
}

impl<R: Files> FsShelf<R> {
    /// A shelf with no fault, no miss and no file too long.
    pub fn new(runtime: R) -> FsShelf<R>
        ensures { ⟦<FsShelf<R> as Shelf>⟧.state result ≡ record { files = None; faults = 0; misses = 0; overlong = 0 } }
    {
        FsShelf {
            runtime,
            faults: 0,
            misses: 0,
            overlong: 0,
        }
    }
}

// What an error of the system means for a caller.
fn refusal_of(error: &io::Error) -> ShelfError
    ensures { result ≢ TooLong }
{
    match error.kind() {
        ErrorKind::NotFound => ShelfError::Missing,
        ErrorKind::OutOfMemory => ShelfError::NoMemory,
        _ => ShelfError::Failed,
    }
}

fn read_within<F: Read>(alloc: Global, file: &mut F, limit: u64) -> Result<Bytes, ShelfError>
    ensures { IfOk result (λ bytes. length bytes ≤ limit) }
{
    let mut bytes = Vec::new(alloc);
    let mut chunk = [0u8; CHUNK];
    for _ in 0..u64::MAX {
        let count = match file.read(&mut chunk) {
            Ok(count) => count,
            Err(error) if error.kind() == ErrorKind::Interrupted => continue,
            Err(error) => return Err(refusal_of(&error)),
        };
        if count == 0 {
            return Ok(Bytes::new(alloc, &bytes)?);
        }
        if count as u64 > limit - bytes.len() as u64 {
            return Err(ShelfError::TooLong);
        }
        bytes.extend_from_slice(&chunk[..count])?;
    }
    Err(ShelfError::TooLong)
}

fn read_file<R: Files>(
    runtime: &R,
    alloc: Global,
    name: &[u8],
    limit: u64,
) -> Result<Bytes, ShelfError>
    ensures { IfOk result (λ bytes. length bytes ≤ limit) }
{
    let name = str::from_utf8(name).map_err(|_| ShelfError::Failed)?;
    let mut file = fs::open(runtime, name).map_err(|error| refusal_of(&error))?;
    read_within(alloc, &mut file, limit)
}

// Where no file can be made, as in a folder that is missing, the outside failed.
fn write_file<R: Files>(runtime: &R, name: &[u8], bytes: &[u8]) -> Result<(), ShelfError>
    ensures never_missing { result ≢ Err Missing }
    ensures never_too_long { result ≢ Err TooLong }
{
    let name = str::from_utf8(name).map_err(|_| ShelfError::Failed)?;
    match fs::write(runtime, name, bytes) {
        Ok(()) => Ok(()),
        Err(error) if error.kind() == ErrorKind::OutOfMemory => Err(ShelfError::NoMemory),
        Err(_) => Err(ShelfError::Failed),
    }
}

impl<R: Files> Shelf for FsShelf<R> {
    ghost state = { λ shelf. record { files = None; faults = shelf.faults; misses = shelf.misses; overlong = shelf.overlong } };

    fn read(&mut self, alloc: Global, name: &Text, limit: u64) -> Result<Bytes, ShelfError> {
        let result = read_file(&self.runtime, alloc, name.bytes(), limit);
        match &result {
            Err(ShelfError::Missing) => self.misses = self.misses.saturating_add(1),
            Err(ShelfError::Failed) => self.faults = self.faults.saturating_add(1),
            Err(ShelfError::TooLong) => self.overlong = self.overlong.saturating_add(1),
            Err(ShelfError::NoMemory) | Ok(_) => {}
        }
        result
    }

    fn write(&mut self, _alloc: Global, name: &Text, bytes: &[u8]) -> Result<(), ShelfError> {
        let result = write_file(&self.runtime, name.bytes(), bytes);
        if let Err(ShelfError::Failed) = result {
            self.faults = self.faults.saturating_add(1);
        }
        result
    }
}
