//! From the words and the files to the answer.

ghost use Rattle.std.specs.Prelude.{◌≡◌, List, ℕ};
ghost use Rattle.lv_words.specs.Lines.{IsAsked};
ghost use Rattle.lv_run.specs.Answers.{Verifies, Prints, IsAnswer};

use crate::answer::Answer;
use lv_bits::{NoMemory, Text};
use lv_contract::Need;
use lv_first::judge;
use lv_io::Shelf;
use lv_print::print_source;
use lv_steps::{Limits, read_input};
use lv_words::{Asked, Words, asked};
use std::alloc::Global;

/// How many bytes a file may have, and all files of a design together.
const LIMITS: Limits = Limits {
    file: 4_194_304,
    text: 4_194_304,
};

/// The answer to `verify` and this file.
fn verify<H: Shelf>(alloc: Global, file: &Text, shelf: &mut H) -> Answer
    ensures answer { (words : List (List ℕ)) → Verifies words file.now → IsAnswer words (H.state shelf.old) (H.state shelf.new) result }
    ensures files { (H.state shelf.new).files ≡ (H.state shelf.old).files }
{
    match read_input(alloc, LIMITS, Need::Nothing, file, shelf) {
        Err(ended) => Answer::Ended(ended),
        Ok(input) => match judge(alloc, &input.contract, &input.source) {
            Ok(verdict) => Answer::Judged(verdict),
            Err(NoMemory) => Answer::NoMemory,
        },
    }
}

/// The answer to `print` and this file.
fn print<H: Shelf>(alloc: Global, file: &Text, shelf: &mut H) -> Answer
    ensures answer { (words : List (List ℕ)) → Prints words file.now → IsAnswer words (H.state shelf.old) (H.state shelf.new) result }
    ensures files { (H.state shelf.new).files ≡ (H.state shelf.old).files }
{
    match read_input(alloc, LIMITS, Need::Nothing, file, shelf) {
        Err(ended) => Answer::Ended(ended),
        Ok(input) => match print_source(alloc, &input.source) {
            Ok(text) => Answer::Printed(text),
            Err(NoMemory) => Answer::NoMemory,
        },
    }
}

/// The answer to what is asked. A mode that isn't built is refused as words, `--out` too.
fn answer_to<H: Shelf>(alloc: Global, asked: Asked, shelf: &mut H) -> Answer
    ensures answer { (words : List (List ℕ)) → IsAsked words asked → IsAnswer words (H.state shelf.old) (H.state shelf.new) result }
    ensures files { (H.state shelf.new).files ≡ (H.state shelf.old).files }
{
    match asked {
        Asked::Verify(file, None) => verify(alloc, &file, shelf),
        Asked::Print(file) => print(alloc, &file, shelf),
        Asked::Verify(_, Some(_)) => Answer::Usage,
        Asked::Check(_) => Answer::Usage,
        Asked::Sim(_) => Answer::Usage,
        Asked::Gen(_) => Answer::Usage,
    }
}

/// The answer to the words.
pub(crate) fn decide<H: Shelf>(alloc: Global, words: &Words, shelf: &mut H) -> Answer
    ensures answer { IsAnswer words.now.list (H.state shelf.old) (H.state shelf.new) result }
    ensures files { (H.state shelf.new).files ≡ (H.state shelf.old).files }
{
    match asked(alloc, words) {
        Err(NoMemory) => Answer::NoMemory,
        Ok(None) => Answer::Usage,
        Ok(Some(asked)) => answer_to(alloc, asked, shelf),
    }
}
