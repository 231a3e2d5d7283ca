//! The tables of a contract file, once their keys are checked.

ghost use Rattle.std.specs.Prelude.{◌≡◌, ◌≤◌, Some, true, [], ◌∷◌, length, map, MatchResult};
ghost use Rattle.toml.specs.Data.{Members};
ghost use Rattle.toml.specs.View.{items_view, table_view};
ghost use Rattle.lv_contract.specs.Values.{members_at, table_at, all_items, is_table, tables_in};
ghost use Rattle.lv_contract.specs.Named.{port_texts};
ghost use Rattle.lv_contract.specs.Shapes.{InitialFits, CandidatesFit, SimulationFits, PortFits, PortsFit, EachPortFits};
ghost use Rattle.lv_contract.specs.Parts.{HasSpellingFault, HasFaultInside, HasPortKeyFault, HasPortFault, HasPortsFault};
ghost use Rattle.lv_contract.specs.Says.{SaysSimulation, SaysTable, port_at, ports_at};
ghost use Rattle.lv_contract.specs.Tables.{SaysInitial, SaysCandidates};

use crate::contract::SimTable;
use crate::error::ContractError;
use crate::key::{Key, Level};
use crate::lists::{expression, expressions, inputs, pairs, states};
use crate::named::{Guarded, Named, PortText};
use crate::values::{array, find_table, number, truth};
use sqlite_items::Items;
use std::alloc::Global;
use toml::{Table, Value};

/// The table `initial`.
#[derive(Drop)]
pub(crate) struct InitialLists {
    pub(crate) equal: Items<Named>,
    pub(crate) each: Items<Named>,
}

fn initial_of(alloc: Global, table: &Table) -> Result<InitialLists, ContractError>
    requires { InitialFits (table_view table.now) }
    ensures { MatchResult result (SaysInitial (table_view table.now)) (HasSpellingFault Level.Initial 0 (table_view table.now)) }
{
    let equal = expressions(alloc, Level::Initial, table, Key::Equal, 0)?;
    let each = expressions(alloc, Level::Initial, table, Key::Each, 0)?;
    Ok(InitialLists { equal, each })
}

pub(crate) fn initial(alloc: Global, table: &Table) -> Result<InitialLists, ContractError>
    requires { InitialFits (members_at Key.Initial (table_view table.now)) }
    ensures { MatchResult result (SaysInitial (members_at Key.Initial (table_view table.now))) (HasFaultInside Key.Initial Level.Initial (table_view table.now)) }
{
    match find_table(table, Key::Initial) {
        Some(inner) => initial_of(alloc, inner),
        None => Ok(InitialLists {
            equal: Items::new(alloc),
            each: Items::new(alloc),
        }),
    }
}

/// The table `candidates`.
#[derive(Drop)]
pub(crate) struct CandidateLists {
    pub(crate) registers: bool,
    pub(crate) equal: Items<Named>,
    pub(crate) guarded: Items<Guarded>,
    pub(crate) each: Items<Named>,
    pub(crate) aligned: bool,
}

fn candidates_of(alloc: Global, table: &Table) -> Result<CandidateLists, ContractError>
    requires { CandidatesFit (table_view table.now) }
    ensures { MatchResult result (SaysCandidates (table_view table.now)) (HasSpellingFault Level.Candidates 0 (table_view table.now)) }
{
    let equal = match expressions(alloc, Level::Candidates, table, Key::Equal, 0) {
        Ok(equal) => equal,
        Err(error) => return Err(error),
    };
    let guarded = match pairs(alloc, table) {
        Ok(guarded) => guarded,
        Err(error) => return Err(error),
    };
    let each = match expressions(alloc, Level::Candidates, table, Key::Each, 0) {
        Ok(each) => each,
        Err(error) => return Err(error),
    };
    Ok(CandidateLists {
        registers: truth(table, Key::Registers),
        equal,
        guarded,
        each,
        aligned: truth(table, Key::Aligned),
    })
}

pub(crate) fn candidates(alloc: Global, table: &Table) -> Result<CandidateLists, ContractError>
    requires { CandidatesFit (members_at Key.Candidates (table_view table.now)) }
    ensures { MatchResult result (SaysCandidates (members_at Key.Candidates (table_view table.now))) (HasFaultInside Key.Candidates Level.Candidates (table_view table.now)) }
{
    match find_table(table, Key::Candidates) {
        Some(inner) => candidates_of(alloc, inner),
        None => Ok(CandidateLists {
            registers: false,
            equal: Items::new(alloc),
            guarded: Items::new(alloc),
            each: Items::new(alloc),
            aligned: false,
        }),
    }
}

fn simulation_of(alloc: Global, table: &Table) -> Result<SimTable, ContractError>
    requires { SimulationFits (table_view table.now) }
    ensures { MatchResult result (SaysSimulation (table_view table.now)) (HasSpellingFault Level.Simulation 0 (table_view table.now)) }
{
    let cycles = number(table, Key::SimulatedCycles, 1);
    let show = match expressions(alloc, Level::Simulation, table, Key::Show, 0) {
        Ok(show) => show,
        Err(error) => return Err(error),
    };
    let state = match states(alloc, table) {
        Ok(state) => state,
        Err(error) => return Err(error),
    };
    let input = match inputs(alloc, table) {
        Ok(input) => input,
        Err(error) => return Err(error),
    };
    Ok(SimTable {
        cycles,
        show,
        state,
        input,
    })
}

pub(crate) fn simulation(alloc: Global, table: &Table) -> Result<Option<SimTable>, ContractError>
    requires { (part : Members) → table_at Key.Simulation (table_view table.now) ≡ Some part → SimulationFits part }
    ensures { MatchResult result (SaysTable (table_at Key.Simulation (table_view table.now))) (HasFaultInside Key.Simulation Level.Simulation (table_view table.now)) }
{
    match find_table(table, Key::Simulation) {
        Some(inner) => Ok(Some(simulation_of(alloc, inner)?)),
        None => Ok(None),
    }
}

fn port(alloc: Global, level: Level, table: &Table, number: u64) -> Result<PortText, ContractError>
    requires fit { PortFits (table_view table.now) }
    requires few { number ≤ 4 }
    ensures { MatchResult result (λ p. port_texts p ≡ port_at (table_view table.now)) (HasPortKeyFault level number (table_view table.now)) }
{
    let retire = expression(alloc, level, table, Key::Retire, number)?;
    let contract = expressions(alloc, level, table, Key::Contract, number)?;
    Ok(PortText { retire, contract })
}

/// The one port of a file in format 1.
fn first_port(alloc: Global, table: &Table) -> Result<Items<PortText>, ContractError>
    requires { PortFits (table_view table.now) }
    ensures { MatchResult result (λ ps. map port_texts ps ≡ map port_at ((table_view table.now) ∷ [])) (HasPortKeyFault Level.First 0 (table_view table.now)) }
{
    let mut ports = Items::new(alloc);
    ports.push(port(alloc, Level::First, table, 0)?)?;
    Ok(ports)
}

/// The ports of a file in format 2.
fn all_ports(alloc: Global, values: &[Value]) -> Result<Items<PortText>, ContractError>
    requires tables { all_items is_table (items_view values.now) ≡ true }
    requires each { EachPortFits (tables_in (items_view values.now)) }
    requires few { length values.now ≤ 4 }
    ensures { MatchResult result (λ ps. map port_texts ps ≡ map port_at (tables_in (items_view values.now))) (HasPortFault (tables_in (items_view values.now))) }
{
    let mut ports = Items::new(alloc);
    for (at, value) in values.iter().enumerate() {
        if let Some(table) = value.as_table() {
            let read = match port(alloc, Level::Port, table, at as u64) {
                Ok(read) => read,
                Err(error) => return Err(error),
            };
            match ports.push(read) {
                Ok(()) => {}
                Err(_) => return Err(ContractError::NoMemory),
            }
        }
    }
    Ok(ports)
}

pub(crate) fn ports(
    alloc: Global,
    table: &Table,
    format: u64,
) -> Result<Items<PortText>, ContractError>
    requires { PortsFit format (table_view table.now) }
    ensures { MatchResult result (λ ps. map port_texts ps ≡ ports_at format (table_view table.now)) (HasPortsFault format (table_view table.now)) }
{
    if format == 2 {
        let values = array(table, Key::Port);
        all_ports(alloc, values)
    } else {
        first_port(alloc, table)
    }
}
