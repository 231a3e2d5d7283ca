//! The command line as `clap` reads it.

ghost use Rattle.std.specs.Prelude.{◌≡◌, [], ℕ, List, Option, codes, map, option_map, IfOk, IfErr, MatchOption};
ghost use Rattle.clap.specs.Words.{fault_of, found_of, first_value, rows_of, matches_of, kind_of};
ghost use Rattle.lv_words.specs.Lines.{command, IsTaken, HasLine};

use clap::error::ErrorKind;
use clap::{Arg, ArgMatches, Command, Error};
use lv_bits::NoMemory;
use std::alloc::Global;

/// MODE, FILE and the NAME of `--out`.
#[derive(Clone, Copy)]
pub(crate) struct Line<'a> {
    pub(crate) mode: &'a str,
    pub(crate) file: &'a str,
    pub(crate) out: Option<&'a str>,
}

/// What `clap` makes of the words.
fn matches<'a>(alloc: Global, words: &'a [&'a str]) -> Result<ArgMatches<'a>, Error>
    ensures taken { IfOk result (λ m. fault_of command (map (λ s. s.now) words.entry.now) ≡ []) }
    ensures rows { IfOk result (λ m. rows_of (found_of m) ≡ matches_of command (map (λ s. s.now) words.entry.now)) }
    ensures refused { IfErr result (λ e. fault_of command (map (λ s. s.now) words.entry.now) ≡ [] → kind_of e ≡ ErrorKind.OutOfMemory) }
{
    let mode = Arg::new(alloc, "mode").required(true);
    let file = Arg::new(alloc, "file").required(true);
    let out = Arg::new(alloc, "out").long("out");
    let command = Command::new(alloc, "leave")
        .no_binary_name(true)
        .arg(mode)?
        .arg(file)?
        .arg(out)?;
    command.try_get_matches_from(words)
}

fn line_in<'a>(matches: &ArgMatches<'a>) -> Option<Line<'a>>
    ensures { MatchOption result ((mode file : List ℕ) (out : Option (List ℕ)) → HasLine (found_of matches.now) mode file out → ⊥)
        (λ l. HasLine (found_of matches.now) l.mode.now l.file.now (option_map (λ s. s.now) l.out)) }
{
    let mode = matches.get_str("mode")?;
    let file = matches.get_str("file")?;
    let out = matches.get_str("out");
    Some(Line { mode, file, out })
}

/// The line, where `clap` takes the words.
pub(crate) fn line_of<'a>(alloc: Global, words: &'a [&'a str]) -> Result<Option<Line<'a>>, NoMemory>
    ensures { IfOk result (λ r. MatchOption r ((mode file : List ℕ) (out : Option (List ℕ)) → IsTaken (map (λ s. s.now) words.entry.now) mode file out → ⊥)
        (λ l. IsTaken (map (λ s. s.now) words.entry.now) l.mode.now l.file.now (option_map (λ s. s.now) l.out))) }
{
    match matches(alloc, words) {
        Ok(matches) => Ok(line_in(&matches)),
        Err(error) => {
            if error.kind() == ErrorKind::OutOfMemory {
                return Err(NoMemory);
            }
            Ok(None)
        }
    }
}
