//! What a contract file says beside numbers and names, once its keys are checked.

ghost use Rattle.std.specs.Prelude.{◌≡◌, Some, true, IfOk, IfErr, MatchResult};
ghost use Rattle.toml.specs.View.{table_view};
ghost use Rattle.lv_contract.specs.declared.need.Need.{Need};
ghost use Rattle.lv_contract.specs.Shapes.{TopFits};
ghost use Rattle.lv_contract.specs.Parts.{format_of};
ghost use Rattle.lv_contract.specs.Refusals.{IsFault};
ghost use Rattle.lv_contract.specs.Values.{number_at};
ghost use Rattle.lv_contract.specs.Ranges.{in_range};
ghost use Rattle.lv_contract.specs.Says.{Says};
ghost use Rattle.lv_contract.specs.Gathered.{SaysNames, SaysObserved, SaysInside, SaysParts};
ghost use Rattle.lv_contract.specs.Shapes as spec;

use crate::contract::{Contract, SimTable};
use crate::error::ContractError;
use crate::key::{Key, Level};
use crate::lists::expressions;
use crate::named::{Named, PortText};
use crate::tables::{CandidateLists, InitialLists, candidates, initial, ports, simulation};
use crate::values::{number, text, text_or_none, texts};
use lv_bits::{NoMemory, Text};
use sqlite_items::Items;
use std::alloc::Global;
use toml::Table;

/// What is observed, and which inputs are allowed.
#[derive(Drop)]
pub(crate) struct Observed {
    pub(crate) ports: Items<PortText>,
    pub(crate) attacker: Items<Named>,
    pub(crate) assume: Items<Named>,
}

/// What the tables inside say.
#[derive(Drop)]
pub(crate) struct Inside {
    pub(crate) initial: InitialLists,
    pub(crate) candidates: CandidateLists,
    pub(crate) sim: Option<SimTable>,
}

/// The files and names.
#[derive(Drop)]
pub(crate) struct Names {
    pub(crate) files: Items<Text>,
    pub(crate) top: Text,
    pub(crate) clock: Text,
    pub(crate) certificate: Option<Text>,
}

/// All that stands there beside numbers.
#[derive(Drop)]
pub(crate) struct Parts {
    pub(crate) names: Names,
    pub(crate) observed: Observed,
    pub(crate) inside: Inside,
}

fn read_names(alloc: Global, table: &Table) -> Result<Names, NoMemory>
    ensures { IfOk result (SaysNames (table_view table.now)) }
{
    let files = texts(alloc, table, Key::Files)?;
    let top = text(table, Key::Top);
    let clock = text(table, Key::Clock);
    let top = Text::new(alloc, top.as_bytes())?;
    let clock = Text::new(alloc, clock.as_bytes())?;
    let certificate = text_or_none(alloc, table, Key::Certificate)?;
    Ok(Names {
        files,
        top,
        clock,
        certificate,
    })
}

/// The table of the whole file in this format.
pub(crate) fn top_level(format: u64) -> Level
    ensures { result ≡ spec.top_level format }
{
    if format == 2 {
        Level::Second
    } else {
        Level::First
    }
}

fn read_observed(alloc: Global, format: u64, table: &Table) -> Result<Observed, ContractError>
    requires format { format_of (table_view table.now) ≡ Some format }
    requires fit { TopFits format (table_view table.now) }
    ensures { MatchResult result (SaysObserved format (table_view table.now)) (λ e. (need : Need) → IsFault need (table_view table.now) e) }
{
    let level = top_level(format);
    let ports = match ports(alloc, table, format) {
        Ok(ports) => ports,
        Err(error) => return Err(error),
    };
    let attacker = match expressions(alloc, level, table, Key::Attacker, 0) {
        Ok(attacker) => attacker,
        Err(error) => return Err(error),
    };
    match expressions(alloc, level, table, Key::Assume, 0) {
        Ok(assume) => Ok(Observed {
            ports,
            attacker,
            assume,
        }),
        Err(error) => Err(error),
    }
}

fn read_inside(alloc: Global, format: u64, table: &Table) -> Result<Inside, ContractError>
    requires format { format_of (table_view table.now) ≡ Some format }
    requires fit { TopFits format (table_view table.now) }
    ensures { MatchResult result (SaysInside (table_view table.now)) (λ e. (need : Need) → IsFault need (table_view table.now) e) }
{
    let initial = match initial(alloc, table) {
        Ok(initial) => initial,
        Err(error) => return Err(error),
    };
    let candidates = match candidates(alloc, table) {
        Ok(candidates) => candidates,
        Err(error) => return Err(error),
    };
    match simulation(alloc, table) {
        Ok(sim) => Ok(Inside {
            initial,
            candidates,
            sim,
        }),
        Err(error) => Err(error),
    }
}

fn read_parts(alloc: Global, format: u64, table: &Table) -> Result<Parts, ContractError>
    requires format { format_of (table_view table.now) ≡ Some format }
    requires fit { TopFits format (table_view table.now) }
    ensures { MatchResult result (SaysParts format (table_view table.now)) (λ e. (need : Need) → IsFault need (table_view table.now) e) }
{
    let names = match read_names(alloc, table) {
        Ok(names) => names,
        Err(_) => return Err(ContractError::NoMemory),
    };
    let observed = match read_observed(alloc, format, table) {
        Ok(observed) => observed,
        Err(error) => return Err(error),
    };
    match read_inside(alloc, format, table) {
        Ok(inside) => Ok(Parts {
            names,
            observed,
            inside,
        }),
        Err(error) => Err(error),
    }
}

fn lookahead_of(table: &Table) -> u32
    requires { in_range Key.Lookahead (number_at 0 Key.Lookahead (table_view table.now)) ≡ true }
    ensures { result ≡ number_at 0 Key.Lookahead (table_view table.now) }
{
    let lookahead = number(table, Key::Lookahead, 0);
    lookahead as u32
}

fn joined(format: u64, table: &Table, parts: Parts) -> Contract
    requires format { format_of (table_view table.now) ≡ Some format }
    requires fit { TopFits format (table_view table.now) }
    requires parts { SaysParts format (table_view table.now) parts }
    ensures format { result.format ≡ format }
    ensures says { Says (table_view table.now) result }
{
    let Parts {
        names,
        observed,
        inside,
    } = parts;
    let Inside {
        initial,
        candidates,
        sim,
    } = inside;
    Contract {
        format,
        files: names.files,
        top: names.top,
        clock: names.clock,
        lookahead: lookahead_of(table),
        budget: number(table, Key::Budget, 200_000),
        certificate: names.certificate,
        cycles: number(table, Key::Cycles, 16),
        ports: observed.ports,
        attacker: observed.attacker,
        assume: observed.assume,
        initial_equal: initial.equal,
        initial_each: initial.each,
        registers: candidates.registers,
        equal: candidates.equal,
        guarded: candidates.guarded,
        each: candidates.each,
        aligned: candidates.aligned,
        sim,
    }
}

pub(crate) fn contract_of(
    alloc: Global,
    format: u64,
    table: &Table,
) -> Result<Contract, ContractError>
    requires format { format_of (table_view table.now) ≡ Some format }
    requires fit { TopFits format (table_view table.now) }
    ensures format { IfOk result (λ c. c.format ≡ format) }
    ensures says { IfOk result (Says (table_view table.now)) }
    ensures refused { IfErr result (λ e. (need : Need) → IsFault need (table_view table.now) e) }
{
    match read_parts(alloc, format, table) {
        Ok(parts) => Ok(joined(format, table, parts)),
        Err(error) => Err(error),
    }
}
