//! What a line asks for.

ghost use Rattle.std.specs.Prelude.{◌≡◌, ◌≤◌, ℕ, List, decimal, option_map, IfOk, MatchOption};
ghost use Rattle.lv_words.specs.Lines.{IsAskedBy, IsAskedAlone, IsNumber};

use crate::line::Line;
use lv_bits::{NoMemory, Text};
use std::alloc::Global;

/// What is asked for: a file, and the name of `--out` with `Verify`; with `Gen` a number of 1 to 500.
#[derive(Drop)]
pub enum Asked {
    Verify(Text, Option<Text>),
    Check(Text),
    Sim(Text),
    Print(Text),
    Gen(u64),
}

/// The number of 1 to 500 that is written in decimal without leading zeros.
fn number_in(alloc: Global, word: &str) -> Result<Option<u64>, NoMemory>
    ensures { IfOk result (λ r. MatchOption r ((n : ℕ) → IsNumber word.now n → ⊥) (IsNumber word.now)) }
{
    match word.parse::<u64>() {
        Ok(number) => {
            let text = format!(in alloc; "{number}")?;
            if 1 <= number && number <= 500 && text.as_bytes() == word.as_bytes() {
                return Ok(Some(number));
            }
            Ok(None)
        }
        Err(_) => Ok(None),
    }
}

fn generated(alloc: Global, word: &str) -> Result<Option<Asked>, NoMemory>
    ensures { IfOk result (λ r. MatchOption r ((n : ℕ) → IsNumber word.now n → ⊥) (λ asked. (n : ℕ) × IsNumber word.now n × (asked ≡ Asked.Gen n))) }
{
    match number_in(alloc, word)? {
        Some(number) => Ok(Some(Asked::Gen(number))),
        None => Ok(None),
    }
}

/// What is asked for without `--out`.
fn asked_alone(alloc: Global, mode: &str, file: &str) -> Result<Option<Asked>, NoMemory>
    ensures { IfOk result (λ r. MatchOption r ((a : Asked) → IsAskedAlone mode.now file.now a → ⊥) (IsAskedAlone mode.now file.now)) }
{
    if mode == "gen" {
        return generated(alloc, file);
    }
    let name = Text::new(alloc, file.as_bytes())?;
    if mode == "check" {
        return Ok(Some(Asked::Check(name)));
    }
    if mode == "sim" {
        return Ok(Some(Asked::Sim(name)));
    }
    if mode == "print" {
        return Ok(Some(Asked::Print(name)));
    }
    Ok(None)
}

fn copied(alloc: Global, name: Option<&str>) -> Result<Option<Text>, NoMemory>
    ensures { IfOk result (λ text. text ≡ option_map (λ s. s.now) name.entry) }
{
    match name {
        Some(name) => Ok(Some(Text::new(alloc, name.as_bytes())?)),
        None => Ok(None),
    }
}

/// What a line asks for.
pub(crate) fn asked_by(alloc: Global, line: Line) -> Result<Option<Asked>, NoMemory>
    ensures { IfOk result (λ r. MatchOption r ((a : Asked) → IsAskedBy line.entry.mode.now line.entry.file.now (option_map (λ s. s.now) line.entry.out) a → ⊥)
        (IsAskedBy line.entry.mode.now line.entry.file.now (option_map (λ s. s.now) line.entry.out))) }
{
    if line.mode == "verify" {
        let file = Text::new(alloc, line.file.as_bytes())?;
        let out = copied(alloc, line.out)?;
        return Ok(Some(Asked::Verify(file, out)));
    }
    if line.out.is_some() {
        return Ok(None);
    }
    asked_alone(alloc, line.mode, line.file)
}
