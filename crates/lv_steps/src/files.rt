//! Files that are read within their limits.

ghost use Rattle.std.specs.Prelude.{◌≡◌, List, ℕ, IfOk, IfErr};
ghost use Rattle.lv_io.specs.Outside.{ShelfState, Goes};
ghost use Rattle.lv_ast.specs.Sources.{source_text};
ghost use Rattle.lv_contract.specs.declared.contract.Contract as code;
ghost use Rattle.lv_steps.specs.Files.{IsRead, AreRead, IsCause, IsUnread, IsNext, IsJoined, IsUnjoined};
ghost use Rattle.lv_steps.specs.Chain.{reads_text};

use crate::ended::{Ended, Unread};
use lv_bits::{Bytes, NoMemory, Text};
use lv_contract::Contract;
use lv_io::{Shelf, ShelfError};
use sqlite_items::Items;
use std::alloc::Global;

/// How many bytes a file may have, and the joined text of a design.
#[derive(Clone, Copy, Debug, PartialEq, Eq)]
pub struct Limits {
    pub file: u64,
    pub text: u64,
}

/// What ends a step where a file isn't read.
fn unread(alloc: Global, name: &Text, error: ShelfError) -> Unread
    ensures { (limit : ℕ) (before after : ShelfState) → IsCause limit name.now before after error → IsUnread limit (λ z. z ≡ name.now) before after result }
{
    let Ok(name) = name.copy(alloc) else {
        return Unread::NoMemory;
    };
    match error {
        ShelfError::Missing => Unread::Missing(name),
        ShelfError::TooLong => Unread::TooLong(name),
        ShelfError::Failed => Unread::Failed(name),
        ShelfError::NoMemory => Unread::NoMemory,
    }
}

/// The file's bytes, or why it wasn't read.
fn read_bytes<H: Shelf>(
    alloc: Global,
    limit: u64,
    name: &Text,
    shelf: &mut H,
) -> Result<Bytes, ShelfError>
    ensures read { IfOk result (IsRead limit (H.state shelf.old).files name.now) }
    ensures cause { IfErr result (IsCause limit name.now (H.state shelf.old) (H.state shelf.new)) }
    ensures goes { Goes (H.state shelf.old) (H.state shelf.new) }
{
    shelf.read(alloc, name, limit)
}

/// The file's bytes, or what ends the step.
pub(crate) fn read_file<H: Shelf>(
    alloc: Global,
    limit: u64,
    name: &Text,
    shelf: &mut H,
) -> Result<Bytes, Unread>
    ensures read { IfOk result (IsRead limit (H.state shelf.old).files name.now) }
    ensures unread { IfErr result (IsUnread limit (λ z. z ≡ name.now) (H.state shelf.old) (H.state shelf.new)) }
    ensures goes { Goes (H.state shelf.old) (H.state shelf.new) }
{
    match read_bytes(alloc, limit, name, shelf) {
        Ok(bytes) => Ok(bytes),
        Err(error) => Err(unread(alloc, name, error)),
    }
}

/// The bytes of the files, read in order.
fn read_files<H: Shelf>(
    alloc: Global,
    limit: u64,
    names: &[Text],
    shelf: &mut H,
) -> Result<Items<Bytes>, Unread>
    ensures read { IfOk result (AreRead limit (H.state shelf.old).files names.now) }
    ensures unread { IfErr result (IsUnread limit (IsNext limit (H.state shelf.old).files names.now) (H.state shelf.old) (H.state shelf.new)) }
    ensures goes { Goes (H.state shelf.old) (H.state shelf.new) }
{
    let mut parts = Items::new(alloc);
    for name in names {
        let bytes = match read_file(alloc, limit, name, shelf) {
            Ok(bytes) => bytes,
            Err(unread) => return Err(unread),
        };
        if parts.push(bytes).is_err() {
            return Err(Unread::NoMemory);
        }
    }
    Ok(parts)
}

/// The parts in order, with a newline byte between two.
fn join(alloc: Global, parts: &[Bytes]) -> Result<Vec<u8>, NoMemory>
    ensures { IfOk result (λ text. text.items ≡ source_text parts.now) }
{
    let mut text = Vec::new(alloc);
    let mut first = true;
    for part in parts {
        if !first {
            text.extend_from_slice(b"\n")?;
        }
        text.extend_from_slice(part.bytes())?;
        first = false;
    }
    Ok(text)
}

/// The joined text, where it is within its limit.
fn joined(alloc: Global, limit: u64, parts: &[Bytes]) -> Result<Vec<u8>, Ended>
    ensures text { IfOk result (λ text. IsJoined limit parts.now text.items) }
    ensures refused { IfErr result (IsUnjoined limit parts.now) }
{
    let Ok(text) = join(alloc, parts) else {
        return Err(Ended::NoMemory);
    };
    let length = text.len() as u64;
    if length > limit {
        return Err(Ended::Source(length));
    }
    Ok(text)
}

/// The text of the design of a contract.
pub(crate) fn read_text<H: Shelf>(
    alloc: Global,
    limits: Limits,
    contract: &Contract,
    shelf: &mut H,
) -> Result<Vec<u8>, Ended>
    ensures text { IfOk result (λ text. (reads_text limits (H.state shelf.old) (H.state shelf.new)).Passes contract.now text.items) }
    ensures refused { IfErr result ((reads_text limits (H.state shelf.old) (H.state shelf.new)).Refuses contract.now) }
    ensures goes { Goes (H.state shelf.old) (H.state shelf.new) }
{
    let parts = match read_files(alloc, limits.file, contract.files.as_slice(), shelf) {
        Ok(parts) => parts,
        Err(unread) => return Err(Ended::File(unread)),
    };
    joined(alloc, limits.text, parts.as_slice())
}
