// Which parts read a signal.
ghost use Rattle.std.specs.Prelude.{◌≡◌, ℕ, ◌<◌, ◌&&◌, ◌||◌, ◌==◌, not, length, slice_set, slice_index_or, IfOk};
ghost use Rattle.std.specs.List.{list_any};
ghost use Rattle.lv_source.specs.PartRules.{others};
ghost use Rattle.lv_rules.specs.Drives.{names};
ghost use Rattle.lv_rules.specs.Reads.{seen_by, others_read, reader_at};

use lv_bits::NoMemory;
use lv_extents::Extent;
use lv_spans::Span;
use std::alloc::Global;

/// The parts that read a signal, as far as the rules ask for them.
#[derive(Clone, Copy)]
pub(crate) enum Reader {
    None,
    One(usize),
    Many,
}

impl Reader {
    fn seen_by(self, part: usize) -> Reader
        ensures { result ≡ seen_by self part }
    {
        match self {
            Reader::None => Reader::One(part),
            Reader::One(k) => {
                if k == part {
                    Reader::One(k)
                } else {
                    Reader::Many
                }
            }
            Reader::Many => Reader::Many,
        }
    }

    /// Whether another part than this one reads it.
    pub(crate) fn is_other(self, part: usize) -> bool
        ensures { result ≡ others_read self part }
    {
        match self {
            Reader::None => false,
            Reader::One(k) => k != part,
            Reader::Many => true,
        }
    }
}

pub(crate) fn reader_at(readers: &[Reader], signal: u64) -> Reader
    ensures { result ≡ reader_at readers.now signal }
{
    match readers.get(signal as usize) {
        Some(reader) => *reader,
        None => Reader::None,
    }
}

fn with_reader(readers: Vec<Reader>, signal: u64, part: usize) -> Vec<Reader>
    ensures { result.items ≡ slice_set readers.items signal (seen_by (reader_at readers.items signal) part) }
{
    let mut made = readers;
    let k = signal as usize;
    if k < made.len() {
        made[k] = made[k].seen_by(part);
    }
    made
}

fn with_readers(readers: Vec<Reader>, spans: &[Span], part: usize) -> Vec<Reader>
    ensures len { length result.items ≡ length readers.items }
    ensures read { (s k : ℕ) → s < length readers.items → others_read (reader_at result.items s) k ≡ (others_read (reader_at readers.items s) k || names s spans.now && not (part == k)) }
{
    let mut made = readers;
    for span in spans {
        made = with_reader(made, span.signal, part);
    }
    made
}

/// Of each signal the parts that read it.
pub(crate) fn readers_of(
    alloc: Global,
    count: usize,
    extents: &[Extent],
) -> Result<Vec<Reader>, NoMemory>
    ensures { IfOk result (λ r. (s k : ℕ) → s < count → others_read (reader_at r.items s) k ≡ list_any (λ x. names s x.reads) (others k extents.now)) }
{
    let none = Reader::None;
    let mut readers = vec![in alloc; none; count]?;
    for (part, x) in extents.iter().enumerate() {
        readers = with_readers(readers, x.reads.as_slice(), part);
    }
    Ok(readers)
}
