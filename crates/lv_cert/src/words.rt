ghost use Rattle.std.specs.Prelude.{◌≡◌, ◌↔◌, IsTrue, ◌+◌, ◌≤◌, ◌<◌, ◌^◌, if◌then◌else◌, [], ◌∷◌, MatchOption};
ghost use Rattle.lv_cert.specs.Words.{word};
ghost use Rattle.lv_cert.specs.Parts.{Moves, Reads, fixed, numeral, wide};
ghost use Rattle.lv_cert.specs.Inputs as spec;
ghost use Rattle.lv_cert.specs.Inputs.{state_of, IsAtEnd, IsEnd};

use crate::error::CertError;
use crate::number::{number_of, small_number_of};
use std::marker::Model;

/// A word, and whether it is the last of its line.
#[derive(Clone, Copy)]
pub(crate) struct Found<'a> {
    pub(crate) letters: &'a [u8],
    pub(crate) last: bool,
}

/// The bytes that are left, and the number of the line that they begin in.
#[derive(Drop)]
pub(crate) struct Input<'a> {
    rest: &'a [u8],
    line: u64,
}

impl<'a> Model for Input<'a> {
    ghost use Rattle.std.specs.Prelude.{◌+◌, ◌<◌, ◌^◌, length};
    ghost use Rattle.lv_cert.specs.Parts.{State};
    ghost use Rattle.lv_cert.specs.Inputs.{state_of};

    ghost Value = { State };

    ghost view = { λ i. state_of i.rest.now i.line };

    ghost invariant = { λ i. i.line + length i.rest.now < 2 ^ 64 };
}

/// Where the first word ends.
fn end_of_word(bytes: &[u8]) -> Option<usize>
    ensures { IsEnd bytes.now result }
{
    for (i, byte) in bytes.iter().enumerate() {
        if is_end(*byte) {
            return Some(i);
        }
    }
    None
}

/// Whether these are the same bytes.
pub(crate) fn is_same(bytes: &[u8], others: &[u8]) -> bool
    ensures { IsTrue result ↔ (bytes.now ≡ others.now) }
{
    bytes == others
}

/// Whether a word ends before this byte.
fn is_end(byte: u8) -> bool
    ensures { result ≡ spec.is_end byte }
{
    byte == b' ' || byte == b'\n'
}

/// The line that a word is in behind one that is the last of its line, or isn't.
fn next_line(line: u64, last: bool) -> u64
    requires { line + 1 < 2 ^ 64 }
    ensures { result ≡ line + (if last then 1 else 0) }
{
    if last { line + 1 } else { line }
}

impl<'a> Input<'a> {
    pub(crate) fn new(bytes: &'a [u8]) -> Input<'a>
        ensures { result ≡ state_of bytes.now 1 }
    {
        Input {
            rest: bytes,
            line: 1,
        }
    }

    /// The line that begins here, if something is left.
    pub(crate) fn more(&self) -> Option<u64>
        ensures { MatchOption result (IsAtEnd self.now) (λ line. (IsAtEnd self.now → ⊥) × (line ≡ self.now.line)) }
    {
        let rest = self.rest;
        let line = self.line;
        if rest.is_empty() { None } else { Some(line) }
    }

    pub(crate) fn line(&self) -> u64
        ensures { result ≡ self.now.line }
    {
        self.line
    }

    /// The next word.
    pub(crate) fn next_word(&mut self) -> Option<Found<'a>>
        ensures { MatchOption result
            (self.old.words ≡ [])
            (λ found. Moves self.old self.new (word found.letters.now found.last ∷ [])) }
    {
        let rest = self.rest;
        let line = self.line;
        let Some(end) = end_of_word(rest) else {
            return None;
        };
        let last = rest[end] == b'\n';
        self.rest = &rest[end + 1..];
        self.line = next_line(line, last);
        Some(Found {
            letters: &rest[..end],
            last,
        })
    }

    /// Reads this word.
    pub(crate) fn expect(&mut self, letters: &[u8], last: bool) -> Result<(), CertError>
        ensures { Reads (fixed letters.now last) (λ _ _. Unit {0}) self.old self.new result }
    {
        let line = self.line();
        let Some(found) = self.next_word() else {
            return Err(CertError::Line(line));
        };
        if found.last != last {
            return Err(CertError::Line(line));
        }
        if is_same(found.letters, letters) {
            Ok(())
        } else {
            Err(CertError::Line(line))
        }
    }

    /// Reads a number between these two.
    pub(crate) fn number(&mut self, low: u64, high: u64, last: bool) -> Result<u64, CertError>
        requires { low ≤ high }
        ensures { Reads (numeral low high last) (λ n a. n ≡ a) self.old self.new result }
    {
        let line = self.line();
        let Some(found) = self.next_word() else {
            return Err(CertError::Line(line));
        };
        if found.last != last {
            return Err(CertError::Line(line));
        }
        match small_number_of(found.letters, low, high) {
            Some(n) => Ok(n),
            None => Err(CertError::Line(line)),
        }
    }

    /// Reads a number of at most 128 bits.
    pub(crate) fn value(&mut self, last: bool) -> Result<u128, CertError>
        ensures { Reads (wide last) (λ n a. n ≡ a) self.old self.new result }
    {
        let line = self.line();
        let Some(found) = self.next_word() else {
            return Err(CertError::Line(line));
        };
        if found.last != last {
            return Err(CertError::Line(line));
        }
        match number_of(found.letters) {
            Some(n) => Ok(n),
            None => Err(CertError::Line(line)),
        }
    }
}
