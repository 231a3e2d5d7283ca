ghost use Rattle.std.specs.Prelude.{◌≡◌, ◌==◌, ℕ, Some, true, map, IfOk, IfErr, MatchResult};
ghost use Rattle.std.specs.List.{list_all};
ghost use Rattle.toml.specs.Data.{Members, as_table};
ghost use Rattle.toml.specs.View.{view, items_view, table_view};
ghost use Rattle.lv_contract.specs.Values.{table_at, members_of, tables_in, keeps};
ghost use Rattle.lv_contract.specs.Ranges.{are_same};
ghost use Rattle.lv_contract.specs.Shapes as spec;
ghost use Rattle.lv_contract.specs.Parts.{format_of, port_in};
ghost use Rattle.lv_contract.specs.Says.{IsContractIn, IsContractFile};
ghost use Rattle.lv_contract.specs.Checks.{HasPartFaultInside, HasFaultAsPort, HasPortPartFault, IsPortsRefusal, PortsKeep, Keeps};
ghost use Rattle.lv_contract.specs.Refusals.{IsFault, IsRefusal};

use crate::check::{check_table, check_value, told_key};
use crate::contract::Contract;
use crate::error::ContractError;
use crate::gather::{contract_of, top_level};
use crate::key::{Key, Level};
use crate::lists::behind_first;
use crate::need::Need;
use crate::values::{array, find_table, number};
use std::alloc::Global;
use toml::{Table, Value};

fn check_inside(
    alloc: Global,
    need: Need,
    level: Level,
    table: &Table,
    key: Key,
) -> Result<(), ContractError>
    ensures { MatchResult result (λ _. (part : Members) → table_at key (table_view table.now) ≡ Some part → keeps need level part ≡ true) (HasPartFaultInside need key level (table_view table.now)) }
{
    match find_table(table, key) {
        Some(inner) => match check_table(alloc, need, level, inner) {
            Ok(()) => Ok(()),
            Err(error) => Err(error),
        },
        None => Ok(()),
    }
}

fn check_port(alloc: Global, need: Need, value: &Value) -> Result<(), ContractError>
    ensures { MatchResult result (λ _. (port : Members) → as_table (view value.now) ≡ Some port → keeps need Level.Port port ≡ true) (HasFaultAsPort need (view value.now)) }
{
    match value.as_table() {
        Some(port) => match check_table(alloc, need, Level::Port, port) {
            Ok(()) => Ok(()),
            Err(error) => Err(error),
        },
        None => Ok(()),
    }
}

fn check_each_port(alloc: Global, need: Need, values: &[Value]) -> Result<(), ContractError>
    ensures { MatchResult result (λ _. (i : ℕ) (port : Members) → port_in i (items_view values.now) ≡ Some port → keeps need Level.Port port ≡ true) (HasPortPartFault need (items_view values.now)) }
{
    for value in values {
        match check_port(alloc, need, value) {
            Ok(()) => {}
            Err(error) => return Err(error),
        }
    }
    Ok(())
}

/// How many entries a port has at `contract`.
fn contract_count(value: &Value) -> usize
    ensures { result ≡ spec.contract_count (members_of (view value.now)) }
{
    match value.as_table() {
        Some(port) => {
            let entries = array(port, Key::Contract);
            entries.len()
        }
        None => 0,
    }
}

fn have_count(values: &[Value], count: usize) -> bool
    ensures { result ≡ list_all (λ value. count == spec.contract_count (members_of (view value))) values.now }
{
    values.iter().all(|value| count == contract_count(value))
}

/// Whether all ports have as many entries.
fn have_one_count(values: &[Value]) -> bool
    ensures { result ≡ are_same (map spec.contract_count (tables_in (items_view values.now))) }
{
    if values.len() == 0 {
        return true;
    }
    let count = contract_count(&values[0]);
    let rest = behind_first(values);
    have_count(rest, count)
}

fn refuse_ports(alloc: Global) -> ContractError
    ensures { IsPortsRefusal result }
{
    match told_key(alloc, Level::Second, Key::Port) {
        Ok(name) => ContractError::Value(name),
        Err(_) => ContractError::NoMemory,
    }
}

fn check_ports(alloc: Global, need: Need, table: &Table) -> Result<(), ContractError>
    requires { format_of (table_view table.now) ≡ Some 2 }
    ensures { MatchResult result (λ _. PortsKeep need (table_view table.now)) (IsFault need (table_view table.now)) }
{
    let values = array(table, Key::Port);
    match check_each_port(alloc, need, values) {
        Ok(()) => {}
        Err(error) => return Err(error),
    }
    let even = have_one_count(values);
    if even {
        return Ok(());
    }
    Err(refuse_ports(alloc))
}

fn check_all(alloc: Global, need: Need, format: u64, table: &Table) -> Result<(), ContractError>
    requires { format_of (table_view table.now) ≡ Some format }
    ensures { MatchResult result (λ _. Keeps need format (table_view table.now)) (IsFault need (table_view table.now)) }
{
    let level = top_level(format);
    match check_table(alloc, need, level, table) {
        Ok(()) => {}
        Err(error) => return Err(error),
    }
    match check_inside(alloc, need, Level::Initial, table, Key::Initial) {
        Ok(()) => {}
        Err(error) => return Err(error),
    }
    match check_inside(alloc, need, Level::Candidates, table, Key::Candidates) {
        Ok(()) => {}
        Err(error) => return Err(error),
    }
    match check_inside(alloc, need, Level::Simulation, table, Key::Simulation) {
        Ok(()) => {}
        Err(error) => return Err(error),
    }
    if format != 2 {
        return Ok(());
    }
    match check_ports(alloc, need, table) {
        Ok(()) => Ok(()),
        Err(error) => Err(error),
    }
}

fn read_table(alloc: Global, table: &Table, need: Need) -> Result<Contract, ContractError>
    ensures { MatchResult result (IsContractIn need (table_view table.now)) (IsFault need (table_view table.now)) }
{
    match check_value(alloc, need, Level::First, table, Key::Format) {
        Ok(()) => {}
        Err(error) => return Err(error),
    }
    let format = number(table, Key::Format, 1);
    match check_all(alloc, need, format, table) {
        Ok(()) => {}
        Err(error) => return Err(error),
    }
    match contract_of(alloc, format, table) {
        Ok(contract) => Ok(contract),
        Err(error) => Err(error),
    }
}

/// The contract that the bytes of a file say, for what it is needed.
///
/// `Toml` comes where they are no TOML document; `Key` where a needed key is absent or a key is unknown; `Value` where a value is
/// of another kind or out of its range; `Expr` where a text spells no expression, with the number of its entry and a byte of it.
/// Where `format` is refused, it is the one that is told. The keys are those of docs/CONTRACT.md.
pub fn read_contract(alloc: Global, bytes: &[u8], need: Need) -> Result<Contract, ContractError>
    ensures contract { IfOk result (IsContractFile bytes.now need) }
    ensures refused { IfErr result (IsRefusal bytes.now need) }
    ensures no_cause { IfOk result (λ _. (e : ContractError) → IsRefusal bytes.now need e → e ≡ ContractError.NoMemory) }
    ensures no_contract { IfErr result (λ e. (c : Contract) → IsContractFile bytes.now need c → e ≡ ContractError.NoMemory) }
{
    match toml::table_from_slice(alloc, bytes) {
        Ok(table) => match read_table(alloc, &table, need) {
            Ok(contract) => Ok(contract),
            Err(error) => Err(error),
        },
        Err(error) if error.is_memory() => Err(ContractError::NoMemory),
        Err(_) => Err(ContractError::Toml),
    }
}
