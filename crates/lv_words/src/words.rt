//! From the words of a command line to what they ask for.

ghost use Rattle.std.specs.Prelude.{◌≡◌, [], List, ℕ, map, IfOk, MatchOption, All, IsUtf8};
ghost use Rattle.lv_words.specs.declared.modes.Asked as asked_spec;
ghost use Rattle.lv_words.specs.Lines.{IsAsked, IsAskedIn};

use crate::line::line_of;
use crate::modes::{Asked, asked_by};
use lv_bits::{NoMemory, Text};
use sqlite_items::Items;
use std::alloc::Global;
use std::str;

/// The words of a command line, without the program's name.
#[derive(Drop)]
pub struct Words {
    pub list: Items<Text>,
}

/// No words, which ask for nothing.
pub fn no_words(alloc: Global) -> Words
    ensures empty { result.list ≡ [] }
    ensures refused { (a : asked_spec.Asked) → IsAsked result.list a → ⊥ }
{
    Words {
        list: Items::new(alloc),
    }
}

/// The words as texts, where all are UTF-8.
fn texts_of<'a>(alloc: Global, words: &'a [Text]) -> Result<Option<Vec<&'a str>>, NoMemory>
    ensures { IfOk result (λ r. MatchOption r (All IsUtf8 words.now → ⊥) (λ texts. (map (λ s. s.now) texts.items ≡ words.now) × All IsUtf8 words.now)) }
{
    let mut texts = Vec::new(alloc);
    for word in words {
        match str::from_utf8(word.bytes()) {
            Ok(text) => texts.push(text)?,
            Err(_) => return Ok(None),
        }
    }
    Ok(Some(texts))
}

fn asked_in(alloc: Global, words: &[&str]) -> Result<Option<Asked>, NoMemory>
    ensures { IfOk result (λ r. MatchOption r ((a : asked_spec.Asked) → IsAskedIn (map (λ s. s.now) words.now) a → ⊥) (IsAskedIn (map (λ s. s.now) words.now))) }
{
    match line_of(alloc, words)? {
        Some(line) => asked_by(alloc, line),
        None => Ok(None),
    }
}

/// What the words ask for. `None` exactly where they are no command line: where a word isn't UTF-8, where `clap` refuses them as
/// the simple command `leave MODE FILE [--out NAME]`, where MODE is none of the five, where `--out` stands with another than
/// `verify`, and where the number of `gen` isn't one of 1 to 500 in decimal without leading zeros.
pub fn asked(alloc: Global, words: &Words) -> Result<Option<Asked>, NoMemory>
    ensures { IfOk result (λ r. MatchOption r ((a : asked_spec.Asked) → IsAsked words.now.list a → ⊥) (IsAsked words.now.list)) }
{
    match texts_of(alloc, words.list.as_slice())? {
        Some(texts) => asked_in(alloc, texts.as_slice()),
        None => Ok(None),
    }
}
