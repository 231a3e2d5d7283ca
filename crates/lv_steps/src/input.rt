//! The contract of a file, and the source that its design files spell.

ghost use Rattle.std.specs.Prelude.{IfOk, IfErr};
ghost use Rattle.lv_io.specs.Outside.{Goes};
ghost use Rattle.lv_steps.specs.Files.{IsContract, IsNoContract};
ghost use Rattle.lv_steps.specs.Chain.{reads_contract, reads_design, reads_input};

use crate::design::source_of;
use crate::ended::Ended;
use crate::files::{Limits, read_file, read_text};
use lv_ast::Source;
use lv_bits::Text;
use lv_contract::{Contract, Need, read_contract};
use lv_io::Shelf;
use std::alloc::Global;

/// A contract, and the source of the design that it is about.
#[derive(Drop)]
pub struct Input {
    pub contract: Contract,
    pub source: Source,
}

/// The contract that bytes say.
fn contract_in(alloc: Global, need: Need, bytes: &[u8]) -> Result<Contract, Ended>
    ensures contract { IfOk result (IsContract need bytes.now) }
    ensures refused { IfErr result (IsNoContract need bytes.now) }
{
    match read_contract(alloc, bytes, need) {
        Ok(contract) => Ok(contract),
        Err(error) => Err(Ended::Contract(error)),
    }
}

/// The contract of a file.
fn contract_of<H: Shelf>(
    alloc: Global,
    limits: Limits,
    need: Need,
    file: &Text,
    shelf: &mut H,
) -> Result<Contract, Ended>
    ensures contract { IfOk result ((reads_contract limits need (H.state shelf.old) (H.state shelf.new)).Passes file.now) }
    ensures refused { IfErr result ((reads_contract limits need (H.state shelf.old) (H.state shelf.new)).Refuses file.now) }
    ensures goes { Goes (H.state shelf.old) (H.state shelf.new) }
{
    match read_file(alloc, limits.file, file, shelf) {
        Err(unread) => Err(Ended::File(unread)),
        Ok(bytes) => contract_in(alloc, need, bytes.bytes()),
    }
}

/// The source of the files that a contract lists.
fn design_of<H: Shelf>(
    alloc: Global,
    limits: Limits,
    contract: &Contract,
    shelf: &mut H,
) -> Result<Source, Ended>
    ensures source { IfOk result ((reads_design limits (H.state shelf.old) (H.state shelf.new)).Passes contract.now) }
    ensures refused { IfErr result ((reads_design limits (H.state shelf.old) (H.state shelf.new)).Refuses contract.now) }
    ensures goes { Goes (H.state shelf.old) (H.state shelf.new) }
{
    match read_text(alloc, limits, contract, shelf) {
        Err(ended) => Err(ended),
        Ok(text) => source_of(alloc, &text),
    }
}

/// Reads the contract file and the design files that it lists, up to their grammar: each file within its limit, the contract with
/// what it is needed for. Where a step refuses, all steps before it passed. No file changes.
pub fn read_input<H: Shelf>(
    alloc: Global,
    limits: Limits,
    need: Need,
    file: &Text,
    shelf: &mut H,
) -> Result<Input, Ended>
    ensures input { IfOk result (λ input. (reads_input limits need (H.state shelf.old) (H.state shelf.new)).Passes file.now (input.contract, input.source)) }
    ensures refused { IfErr result ((reads_input limits need (H.state shelf.old) (H.state shelf.new)).Refuses file.now) }
    ensures goes { Goes (H.state shelf.old) (H.state shelf.new) }
{
    let contract = match contract_of(alloc, limits, need, file, shelf) {
        Ok(contract) => contract,
        Err(ended) => return Err(ended),
    };
    match design_of(alloc, limits, &contract, shelf) {
        Ok(source) => Ok(Input { contract, source }),
        Err(ended) => {
            drop(contract);
            Err(ended)
        }
    }
}
