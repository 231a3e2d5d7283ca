//! The verdict on a contract and a source.

ghost use Rattle.std.specs.Prelude.{◌≡◌, ◌∷◌, [], IfOk, MatchOption};
ghost use Rattle.lv_ast.specs.declared.item.Module as code;
ghost use Rattle.lv_first.specs.FirstContract.{trees_of};
ghost use Rattle.lv_first.specs.Verdicts.{IsVerdict, IsJudged};

use crate::observed;
use crate::observed::first_port;
use crate::prepare::{Prepared, prepare};
use crate::signals::Signals;
use crate::verdict::is_accepted;
use lv_ast::{Module, Source};
use lv_bits::{NoMemory, Text};
use lv_contract::{Contract, PortText};
use sqlite_items::Items;
use std::alloc::Global;

/// What is decided.
#[derive(Drop)]
pub enum Verdict {
    /// The list of all candidates proves the design; with the lookahead and the registers.
    Proved(u32, Items<Text>),
    /// The list of all candidates isn't inductive or doesn't imply.
    Unproved,
    /// The contract or the design isn't of the form that is decided.
    Other,
}

/// The verdict on a module. There is no lookahead.
fn judge_module(
    alloc: Global,
    contract: &Contract,
    port: &PortText,
    design: &Module,
) -> Result<Verdict, NoMemory>
    requires { contract.now.lookahead ≡ 0 }
    ensures { IfOk result (IsVerdict contract.now.top contract.now.clock contract.now.lookahead design.now (trees_of contract.now port.now)) }
{
    let trees = observed::trees_of(alloc, contract, port)?;
    let Some(prepared) = prepare(alloc, design, &contract.top, &contract.clock, &trees)? else {
        return Ok(Verdict::Other);
    };
    let Prepared { problem, signals } = prepared;
    let accepted = is_accepted(alloc, &problem)?;
    let Signals {
        registers,
        inputs: _,
    } = signals;
    if accepted {
        Ok(Verdict::Proved(contract.lookahead, registers))
    } else {
        Ok(Verdict::Unproved)
    }
}

/// The only module of a source.
fn only_module(source: &Source) -> Option<&Module>
    ensures { MatchOption result ((m : code.Module) → source.now.modules ≡ m ∷ [] → ⊥) (λ m. source.now.modules ≡ m.now ∷ []) }
{
    match source.modules.as_slice() {
        [design] => Some(design),
        _ => None,
    }
}

/// Whether the list of all candidates proves the leakage contract of a source (after LeaVe). `Other` exactly where the contract or
/// the source isn't of the form that is decided.
pub fn judge(alloc: Global, contract: &Contract, source: &Source) -> Result<Verdict, NoMemory>
    ensures { IfOk result (IsJudged contract.now source.now) }
{
    let Some(port) = first_port(contract) else {
        return Ok(Verdict::Other);
    };
    let Some(design) = only_module(source) else {
        return Ok(Verdict::Other);
    };
    let answer = judge_module(alloc, contract, port, design)?;
    Ok(answer)
}
