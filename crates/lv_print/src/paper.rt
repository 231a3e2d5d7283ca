ghost use Rattle.std.specs.Prelude.{◌≡◌, ◌^◌, ◌<◌, ◌++◌, [], ◌∷◌, length, OnOk, IfOk};
ghost use Rattle.lv_print.specs.Paper as paper;
ghost use Rattle.lv_print.specs.Written as written;

use crate::last::Last;
use lv_ast::Kind;
use lv_bits::{NoMemory, Text};
use sqlite_items::Items;
use std::alloc::Global;

/// The bytes that are written so far, and the last token among them.
#[derive(Drop)]
pub struct Paper {
    pub bytes: Items<u8>,
    pub last: Last,
}

fn last_of(kind: Kind, bytes: &[u8]) -> Last
    ensures { result ≡ paper.last_of (written.written kind bytes.now) }
{
    if bytes == b";".as_slice() || bytes == b"endmodule".as_slice() {
        return Last::Line;
    }
    match kind {
        Kind::Number => Last::Number,
        Kind::Escaped => Last::Escaped,
        _ => Last::Other,
    }
}

/// What stands between the last token and one of this kind.
fn gap(last: Last, kind: Kind) -> &'static [u8]
    ensures { result.now ≡ paper.gap last kind }
{
    match last {
        Last::Start => b"",
        Last::Line => b"\n",
        Last::Number => match kind {
            Kind::Based => b"",
            _ => b" ",
        },
        Last::Escaped | Last::Other => b" ",
    }
}

/// What stands behind the last token at the end.
fn end_gap(last: Last) -> &'static [u8]
    ensures { result.now ≡ paper.end_gap last }
{
    match last {
        Last::Line => b"\n",
        Last::Escaped => b" ",
        Last::Start | Last::Number | Last::Other => b"",
    }
}

pub fn push_all(bytes: &mut Items<u8>, more: &[u8]) -> Result<(), NoMemory>
    ensures { OnOk result (bytes.new ≡ bytes.old ++ more.now) }
{
    for byte in more {
        bytes.push(*byte)?;
    }
    Ok(())
}

impl Paper {
    pub fn new(alloc: Global) -> Paper
        ensures { result ≡ paper.empty }
    {
        Paper {
            bytes: Items::new(alloc),
            last: Last::Start,
        }
    }

    /// Writes a token behind what must stand before it.
    #[tactic(auto, unfolding(crate::specs::Paper::put))]
    pub fn put(&mut self, kind: Kind, bytes: &[u8]) -> Result<(), NoMemory>
        ensures { OnOk result (self.new ≡ paper.put self.old (written.written kind bytes.now)) }
    {
        push_all(&mut self.bytes, gap(self.last, kind))?;
        push_all(&mut self.bytes, bytes)?;
        self.last = last_of(kind, bytes);
        Ok(())
    }

    /// Writes an escaped name.
    #[tactic(auto, unfolding(crate::specs::Paper::put))]
    pub fn escaped(&mut self, name: &[u8]) -> Result<(), NoMemory>
        ensures { OnOk result (self.new ≡ paper.put self.old (written.written Kind.Escaped (92 ∷ name.now))) }
    {
        push_all(&mut self.bytes, gap(self.last, Kind::Escaped))?;
        self.bytes.push(b'\\')?;
        push_all(&mut self.bytes, name)?;
        self.last = Last::Escaped;
        Ok(())
    }

    pub fn mark(&mut self, bytes: &[u8]) -> Result<(), NoMemory>
        ensures { OnOk result (self.new ≡ paper.put self.old (written.mark bytes.now)) }
    {
        self.put(Kind::Mark, bytes)
    }

    pub fn word(&mut self, bytes: &[u8]) -> Result<(), NoMemory>
        ensures { OnOk result (self.new ≡ paper.put self.old (written.word bytes.now)) }
    {
        self.put(Kind::Word, bytes)
    }

    /// Writes a comma, but not before the first of a list.
    pub fn comma(&mut self, first: bool) -> Result<(), NoMemory>
        ensures { OnOk result (self.new ≡ paper.after_comma first self.old) }
    {
        if first {
            return Ok(());
        }
        self.mark(b",")
    }

    /// The text that is written.
    pub fn text(&self, alloc: Global) -> Result<Text, NoMemory>
        ensures bytes { IfOk result (λ t. t ≡ self.now.bytes ++ paper.end_gap self.now.last) }
        ensures bound { IfOk result (λ t. length t < 2 ^ 64) }
    {
        let mut bytes = Items::new(alloc);
        push_all(&mut bytes, self.bytes.as_slice())?;
        push_all(&mut bytes, end_gap(self.last))?;
        Text::new(alloc, bytes.as_slice())
    }
}
