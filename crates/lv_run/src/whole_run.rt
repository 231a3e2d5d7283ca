//! One run of the program.

ghost use Rattle.std.specs.Prelude.{◌≡◌, ◌⊎◌, ℕ, List, Some};
ghost use Rattle.lv_io.specs.Files.{Files};
ghost use Rattle.lv_io.specs.Given.{Gains};
ghost use Rattle.lv_io.specs.Outside.{Outside, outside, HasFault};
ghost use Rattle.lv_ast.specs.declared.item.Source as source_spec;
ghost use Rattle.lv_contract.specs.declared.contract.Contract as contract_spec;
ghost use Rattle.lv_run.specs.Answers.{Verifies, Prints, IsCommandLine, IsInput, IsReported, printed_text};
ghost use Rattle.lv_run.specs.Promises.{Reports, IsVerified, IsKeptIn, IsUnproved, IsPrinted};

use crate::answer::Answer;
use crate::decide::decide;
use crate::told::told;
use lv_io::{Shelf, Sink, put_all};
use lv_words::Words;
use std::alloc::Global;

/// The exit status of a run: 0 accepted or printed, 1 unproved, 2 usage, 3 refused, 6 a fault of the outside, 7 want of memory.
#[derive(Drop)]
pub struct Status {
    pub code: u8,
}

/// The status, and the text to the sink.
fn report<S: Sink>(alloc: Global, answer: &Answer, out: &mut S) -> Status
    ensures { IsReported answer.now (S.state out.old) (S.state out.new) result.code }
{
    let Ok(told) = told(alloc, answer) else {
        return Status { code: 7 };
    };
    match put_all(out, &told.text) {
        Ok(()) => Status { code: told.code },
        Err(_) => Status { code: 6 },
    }
}

/// Does what the words ask for. Both modes read the contract file and the design files that it lists up to their grammar.
/// `verify FILE` decides whether the list of all candidates proves the leakage contract (after LeaVe), and writes the verdict
/// to the sink; `print FILE` writes the canonical text of the design. No file changes.
pub fn run<H: Shelf, S: Sink>(alloc: Global, words: &Words, shelf: &mut H, out: &mut S) -> Status
    ensures reports { Reports words.now.list
        (outside (H.state shelf.old) (S.state out.old)) (outside (H.state shelf.new) (S.state out.new)) result.code }
    ensures usage { result.code ≡ 2 → IsCommandLine words.now.list → ⊥ }
    ensures usage_only { (IsCommandLine words.now.list → ⊥) → (result.code ≡ 2) ⊎ (result.code ≡ 6) ⊎ (result.code ≡ 7) }
    ensures fault { result.code ≡ 6 → HasFault (outside (H.state shelf.old) (S.state out.old)) (outside (H.state shelf.new) (S.state out.new)) }
    ensures files { (H.state shelf.new).files ≡ (H.state shelf.old).files }
    ensures headline { (file : List ℕ) → Verifies words.now.list file → result.code ≡ 0 → IsVerified (H.state shelf.old) file }
    ensures kept { (file : List ℕ) → Verifies words.now.list file → result.code ≡ 0 → IsKeptIn (H.state shelf.old) file }
    ensures unproved { (file : List ℕ) → Verifies words.now.list file → result.code ≡ 1 → IsUnproved (H.state shelf.old) file }
    ensures printed { (file : List ℕ) → Prints words.now.list file → result.code ≡ 0 →
        IsPrinted (outside (H.state shelf.old) (S.state out.old)) (outside (H.state shelf.new) (S.state out.new)) file }
    ensures prints { (files : Files) (file : List ℕ) (c : contract_spec.Contract) (source : source_spec.Source) →
        (H.state shelf.old).files ≡ Some files → Prints words.now.list file → IsInput (H.state shelf.old) file c source →
        (HasFault (outside (H.state shelf.old) (S.state out.old)) (outside (H.state shelf.new) (S.state out.new)) → ⊥) →
        ((result.code ≡ 0) × Gains (S.state out.old).given (S.state out.new).given (printed_text source)) ⊎ (result.code ≡ 7) }
{
    let answer = decide(alloc, words, shelf);
    report(alloc, &answer, out)
}
