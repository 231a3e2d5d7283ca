//! The expressions of a contract file.

ghost use Rattle.std.specs.Prelude.{◌≡◌, ◌++◌, ◌∷◌, [], IfOk, OnOk, MatchOption};
ghost use Rattle.lv_contract.specs.declared.named.PortText as named;
ghost use Rattle.lv_first.specs.FirstContract as spec;
ghost use Rattle.lv_first.specs.FirstContract.{IsFirstContract};

use lv_ast::Expr;
use lv_bits::NoMemory;
use lv_contract::{Contract, Named, PortText};
use sqlite_items::Items;
use std::alloc::Global;

/// What a contract file watches, as trees.
#[derive(Drop)]
pub(crate) struct ObserverTrees {
    pub(crate) retire: Expr,
    pub(crate) contract: Items<Expr>,
    pub(crate) attacker: Items<Expr>,
    /// The expressions that have one value in both states of an initial pair.
    pub(crate) equal: Items<Expr>,
}

fn push_exprs(alloc: Global, exprs: &mut Items<Expr>, list: &[Named]) -> Result<(), NoMemory>
    ensures { OnOk result (exprs.new ≡ exprs.old ++ spec.exprs list.now) }
{
    for one in list {
        exprs.push(one.expr.get().copy(alloc)?)?;
    }
    Ok(())
}

fn exprs_of(alloc: Global, list: &[Named]) -> Result<Items<Expr>, NoMemory>
    ensures { IfOk result (λ xs. xs ≡ spec.exprs list.now) }
{
    let mut exprs = Items::new(alloc);
    push_exprs(alloc, &mut exprs, list)?;
    Ok(exprs)
}

/// What is watched at a port of a contract.
pub(crate) fn trees_of(
    alloc: Global,
    contract: &Contract,
    port: &PortText,
) -> Result<ObserverTrees, NoMemory>
    ensures { IfOk result (λ c. c ≡ spec.trees_of contract.now port.now) }
{
    Ok(ObserverTrees {
        retire: port.retire.expr.get().copy(alloc)?,
        contract: exprs_of(alloc, port.contract.as_slice())?,
        attacker: exprs_of(alloc, contract.attacker.as_slice())?,
        equal: exprs_of(alloc, contract.initial_equal.as_slice())?,
    })
}

/// Whether nothing is assumed, an initial pair has nothing in common but what is equal, and no candidate is listed.
fn lists_nothing(contract: &Contract) -> bool
    ensures { result ≡ spec.lists_nothing contract.now }
{
    contract.assume.is_empty()
        && contract.initial_each.is_empty()
        && contract.equal.is_empty()
        && contract.guarded.is_empty()
        && contract.each.is_empty()
}

/// Whether the keys that change no verdict say what their absence says.
fn sets_nothing(contract: &Contract) -> bool
    ensures { result ≡ spec.sets_nothing contract.now }
{
    contract.budget == 200_000
        && contract.cycles == 16
        && contract.certificate.is_none()
        && contract.sim.is_none()
}

/// Whether the contract is of format 1 with one file and no lookahead, and asks for all candidates.
fn has_first_keys(contract: &Contract) -> bool
    ensures { result ≡ spec.has_first_keys contract.now }
{
    contract.format == 1
        && contract.files.len() == 1
        && contract.lookahead == 0
        && contract.registers
        && contract.aligned
}

fn is_plain(contract: &Contract) -> bool
    ensures { result ≡ spec.is_plain contract.now }
{
    has_first_keys(contract) && sets_nothing(contract) && lists_nothing(contract)
}

/// The only port of a contract.
fn only_port(contract: &Contract) -> Option<&PortText>
    ensures { MatchOption result ((p : named.PortText) → contract.now.ports ≡ p ∷ [] → ⊥) (λ p. contract.now.ports ≡ p.now ∷ []) }
{
    match contract.ports.as_slice() {
        [port] => Some(port),
        _ => None,
    }
}

/// The port of a contract of the form that is decided.
pub(crate) fn first_port(contract: &Contract) -> Option<&PortText>
    ensures { MatchOption result ((p : named.PortText) → IsFirstContract contract.now p → ⊥) (λ p. IsFirstContract contract.now p.now) }
{
    if !is_plain(contract) {
        return None;
    }
    only_port(contract)
}
