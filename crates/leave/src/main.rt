//! A leakage contract verifier for processors.
#![tactic(auto)]

ghost use Rattle.std.specs.Prelude.{◌≡◌, map, drop, string_bytes, IfOk};
ghost use Rattle.leave.specs.Handed.{IsHanded};

use lv_bits::{NoMemory, Text};
use lv_io::{FsShelf, StdSink};
use lv_run::run;
use lv_words::{Words, no_words};
use sqlite_items::Items;
use std::alloc::Global;
use std::env;
use std::io::ErrorKind;
use std::process::ExitCode;

/// The texts of words.
fn texts_of(alloc: Global, words: &[String]) -> Result<Items<Text>, NoMemory>
    ensures { IfOk result (λ list. list ≡ map string_bytes words.now) }
{
    let mut list = Items::new(alloc);
    for word in words {
        list.push(Text::new(alloc, word.as_str().as_bytes())?)?;
    }
    Ok(list)
}

/// The words behind the program's name.
fn words_in(alloc: Global, args: &[String]) -> Result<Words, NoMemory>
    ensures { IfOk result (λ words. words.list ≡ map string_bytes (drop 1 args.now)) }
{
    let list = match args {
        [] => Items::new(alloc),
        [_, words @ ..] => texts_of(alloc, words)?,
    };
    Ok(Words { list })
}

/// The words that are handed to the run, or the status where there are none: 7 for want of memory, else 6. Where a word isn't UTF-8
/// they are words that are refused.
fn words_for(alloc: Global, answer: Result<Vec<String>, ErrorKind>) -> Result<Words, u8>
    ensures { IsHanded answer result }
{
    match answer {
        Ok(args) => match words_in(alloc, args.as_slice()) {
            Ok(words) => Ok(words),
            Err(NoMemory) => Err(7),
        },
        Err(ErrorKind::InvalidData) => Ok(no_words(alloc)),
        Err(ErrorKind::OutOfMemory) => Err(7),
        Err(_) => Err(6),
    }
}

/// What the system answers for the words.
fn args_of(rt: &HostRuntime) -> Result<Vec<String>, ErrorKind> {
    match env::args(rt) {
        Ok(args) => match args.collect(rt.alloc()) {
            Ok(args) => Ok(args),
            Err(_) => Err(ErrorKind::OutOfMemory),
        },
        Err(error) => Err(error.kind()),
    }
}

fn main(rt: HostRuntime) -> ExitCode {
    match words_for(rt.alloc(), args_of(&rt)) {
        Ok(words) => {
            let mut shelf = FsShelf::new(&rt);
            let mut out = StdSink::new(&rt);
            let status = run(rt.alloc(), &words, &mut shelf, &mut out);
            ExitCode::from(status.code)
        }
        Err(code) => ExitCode::from(code),
    }
}
