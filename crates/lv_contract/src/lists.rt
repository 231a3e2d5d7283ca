//! Expressions at the keys of a table, each with its text.

ghost use Rattle.std.specs.Prelude.{◌≡◌, ◌≤◌, ◌<◌, ◌+◌, ◌^◌, true, length, map, drop, MatchResult};
ghost use Rattle.std.specs.List.{list_all};
ghost use Rattle.toml.specs.View.{view, items_view, table_view};
ghost use Rattle.lv_contract.specs.Keys.{kind_of};
ghost use Rattle.lv_contract.specs.Values.{is_printable, passes, items_of, texts_in, string_at, text_at, texts_at, lists_at};
ghost use Rattle.lv_contract.specs.Named.{texts, guarded_pair, state_pair, input_texts, pair_of, inputs_of};
ghost use Rattle.lv_contract.specs.Shapes.{is_expression, is_expressions, TextsFit, ListsFit};
ghost use Rattle.lv_contract.specs.Parts.{IsTextFault, IsFaultAmong, IsFaultAtEntry, IsEntryFault, IsSpellingFault};

use crate::check::told_key;
use crate::error::ContractError;
use crate::expression::{Unread, read_expression};
use crate::key::{Key, Level};
use crate::named::{Guarded, Named, SimInput, SimState};
use crate::values::{array, elements, text, text_in, text_of};
use lv_bits::Text;
use sqlite_items::Items;
use std::alloc::Global;
use toml::{Table, Value};

/// The expression of a text that stands at an entry of a key.
fn named(
    alloc: Global,
    level: Level,
    key: Key,
    entry: u64,
    text: &str,
) -> Result<Named, ContractError>
    requires { is_printable text.now ≡ true }
    ensures { MatchResult result (λ x. x.text ≡ text.now) (IsTextFault level key entry text.now) }
{
    match read_expression(alloc, text.as_bytes()) {
        Ok(expr) => Ok(Named {
            text: Text::new(alloc, text.as_bytes())?,
            expr,
        }),
        Err(Unread::At(byte)) => Err(ContractError::Expr(
            told_key(alloc, level, key)?,
            entry,
            byte,
        )),
        Err(Unread::NoMemory) => Err(ContractError::NoMemory),
    }
}

/// The expression at a key of the port with that number.
pub(crate) fn expression(
    alloc: Global,
    level: Level,
    table: &Table,
    key: Key,
    number: u64,
) -> Result<Named, ContractError>
    requires kind { is_expression (kind_of key) ≡ true }
    requires printable { passes is_printable (string_at key (table_view table.now)) ≡ true }
    ensures { MatchResult result (λ x. x.text ≡ text_at key (table_view table.now)) (IsSpellingFault level number key (table_view table.now)) }
{
    let text = text(table, key);
    match named(alloc, level, key, number, text) {
        Ok(expr) => Ok(expr),
        Err(error) => Err(error),
    }
}

/// The expressions of an array. The number of the first is given.
#[tactic(auto, using(crate::proofs::Views::lists))]
fn all_named(
    alloc: Global,
    level: Level,
    key: Key,
    first: u64,
    values: &[Value],
) -> Result<Items<Named>, ContractError>
    requires printable { list_all is_printable (texts_in (items_view values.now)) ≡ true }
    requires fits { first + length values.now < 2 ^ 64 }
    ensures { MatchResult result (λ xs. texts xs ≡ texts_in (items_view values.now)) (IsFaultAmong level key first (texts_in (items_view values.now))) }
{
    let mut list = Items::new(alloc);
    for (at, value) in values.iter().enumerate() {
        let text = text_of(value);
        match named(alloc, level, key, first + at as u64, text) {
            Ok(expr) => list.push(expr)?,
            Err(error) => return Err(error),
        }
    }
    Ok(list)
}

/// The expressions at a key of the port with that number.
pub(crate) fn expressions(
    alloc: Global,
    level: Level,
    table: &Table,
    key: Key,
    number: u64,
) -> Result<Items<Named>, ContractError>
    requires kind { is_expressions (kind_of key) ≡ true }
    requires fit { TextsFit key (table_view table.now) }
    requires few { number ≤ 4 }
    ensures { MatchResult result (λ xs. texts xs ≡ texts_at key (table_view table.now)) (IsSpellingFault level number key (table_view table.now)) }
{
    let values = array(table, key);
    match all_named(alloc, level, key, 1024 * number, values) {
        Ok(list) => Ok(list),
        Err(error) => Err(error),
    }
}

/// The entry of `candidates.when` with that number.
fn pair(alloc: Global, entry: usize, value: &Value) -> Result<Guarded, ContractError>
    requires printable { list_all is_printable (texts_in (items_of (view value.now))) ≡ true }
    requires few { entry ≤ 1024 }
    ensures { MatchResult result (λ x. guarded_pair x ≡ pair_of (texts_in (items_of (view value.now)))) (IsEntryFault Level.Candidates Key.When entry (texts_in (items_of (view value.now)))) }
{
    let values = elements(value);
    let first = 2 * entry as u64;
    let guard = text_in(values, 0);
    let expr = text_in(values, 1);
    let guard = match named(alloc, Level::Candidates, Key::When, first, guard) {
        Ok(guard) => guard,
        Err(error) => return Err(error),
    };
    match named(alloc, Level::Candidates, Key::When, first + 1, expr) {
        Ok(expr) => Ok(Guarded { guard, expr }),
        Err(error) => Err(error),
    }
}

#[tactic(auto, using(crate::proofs::Views::lists))]
pub(crate) fn pairs(alloc: Global, table: &Table) -> Result<Items<Guarded>, ContractError>
    requires { ListsFit 2 Key.When (table_view table.now) }
    ensures { MatchResult result (λ xs. map guarded_pair xs ≡ map pair_of (lists_at Key.When (table_view table.now))) (IsSpellingFault Level.Candidates 0 Key.When (table_view table.now)) }
{
    let values = array(table, Key::When);
    let mut list = Items::new(alloc);
    for (entry, value) in values.iter().enumerate() {
        match pair(alloc, entry, value) {
            Ok(read) => list.push(read)?,
            Err(error) => return Err(error),
        }
    }
    Ok(list)
}

/// The entry of `sim.state` with that number.
fn state(alloc: Global, entry: usize, value: &Value) -> Result<SimState, ContractError>
    requires printable { list_all is_printable (texts_in (items_of (view value.now))) ≡ true }
    ensures { MatchResult result (λ x. state_pair x ≡ pair_of (texts_in (items_of (view value.now)))) (IsEntryFault Level.Simulation Key.State entry (texts_in (items_of (view value.now)))) }
{
    let values = elements(value);
    let register = text_in(values, 0);
    let constant = text_in(values, 1);
    let register = Text::new(alloc, register.as_bytes())?;
    match named(alloc, Level::Simulation, Key::State, entry as u64, constant) {
        Ok(value) => Ok(SimState { register, value }),
        Err(error) => Err(error),
    }
}

#[tactic(auto, using(crate::proofs::Views::lists))]
pub(crate) fn states(alloc: Global, table: &Table) -> Result<Items<SimState>, ContractError>
    requires { ListsFit 2 Key.State (table_view table.now) }
    ensures { MatchResult result (λ xs. map state_pair xs ≡ map pair_of (lists_at Key.State (table_view table.now))) (IsSpellingFault Level.Simulation 0 Key.State (table_view table.now)) }
{
    let values = array(table, Key::State);
    let mut list = Items::new(alloc);
    for (entry, value) in values.iter().enumerate() {
        match state(alloc, entry, value) {
            Ok(read) => list.push(read)?,
            Err(error) => return Err(error),
        }
    }
    Ok(list)
}

/// The constants of the entry of `sim.input` with that number.
#[tactic(auto, using(crate::proofs::Views::lists))]
fn constants(alloc: Global, entry: usize, values: &[Value]) -> Result<Items<Named>, ContractError>
    requires { list_all is_printable (texts_in (items_view values.now)) ≡ true }
    ensures { MatchResult result (λ xs. texts xs ≡ texts_in (items_view values.now)) (IsFaultAtEntry Level.Simulation Key.Input entry (texts_in (items_view values.now))) }
{
    let mut list = Items::new(alloc);
    for value in values {
        let text = text_of(value);
        match named(alloc, Level::Simulation, Key::Input, entry as u64, text) {
            Ok(constant) => list.push(constant)?,
            Err(error) => return Err(error),
        }
    }
    Ok(list)
}

/// The entry of `sim.input` with that number.
fn input(alloc: Global, entry: usize, value: &Value) -> Result<SimInput, ContractError>
    requires printable { list_all is_printable (texts_in (items_of (view value.now))) ≡ true }
    requires few { length (texts_in (items_of (view value.now))) ≤ 10001 }
    ensures { MatchResult result (λ x. input_texts x ≡ inputs_of (texts_in (items_of (view value.now)))) (IsEntryFault Level.Simulation Key.Input entry (texts_in (items_of (view value.now)))) }
{
    let values = elements(value);
    let input = text_in(values, 0);
    let input = Text::new(alloc, input.as_bytes())?;
    let rest = behind_first(values);
    match constants(alloc, entry, rest) {
        Ok(values) => Ok(SimInput { input, values }),
        Err(error) => Err(error),
    }
}

/// The values behind the first.
pub(crate) fn behind_first(values: &[Value]) -> &[Value]
    ensures { result.now ≡ drop 1 values.now }
{
    if values.is_empty() {
        values
    } else {
        &values[1..]
    }
}

#[tactic(auto, using(crate::proofs::Views::lists))]
pub(crate) fn inputs(alloc: Global, table: &Table) -> Result<Items<SimInput>, ContractError>
    requires { ListsFit 10001 Key.Input (table_view table.now) }
    ensures { MatchResult result (λ xs. map input_texts xs ≡ map inputs_of (lists_at Key.Input (table_view table.now))) (IsSpellingFault Level.Simulation 0 Key.Input (table_view table.now)) }
{
    let values = array(table, Key::Input);
    let mut list = Items::new(alloc);
    for (entry, value) in values.iter().enumerate() {
        match input(alloc, entry, value) {
            Ok(read) => list.push(read)?,
            Err(error) => return Err(error),
        }
    }
    Ok(list)
}
