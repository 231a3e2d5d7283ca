//! Which keys a table has, and whether their values fit.

ghost use Rattle.std.specs.Prelude.{◌≡◌, ℕ, true, ◌++◌, IfOk, MatchResult};
ghost use Rattle.std.specs.List.{list_all};
ghost use Rattle.toml.specs.View.{table_view};
ghost use Rattle.lv_contract.specs.Keys as keys;
ghost use Rattle.lv_contract.specs.Keys.{prefix_of, full_name, keys_of};
ghost use Rattle.lv_contract.specs.Values.{knows_all, keeps_row, keeps};
ghost use Rattle.lv_contract.specs.Parts.{IsKeyFault, IsUnknownFault, IsPartFault};

use crate::error::ContractError;
use crate::fits::fits;
use crate::key::{Key, Level};
use crate::need::Need;
use crate::values::find;
use lv_bits::{NoMemory, Text};
use std::alloc::Global;
use toml::Table;

/// The name of a key as refusals tell it.
fn told(alloc: Global, level: Level, word: &str) -> Result<Text, NoMemory>
    ensures { IfOk result (λ name. name ≡ prefix_of level ++ word.now) }
{
    let prefix = level.prefix();
    let mut name = Vec::from_slice(alloc, prefix.as_bytes())?;
    name.extend_from_slice(word.as_bytes())?;
    Ok(Text::from(name))
}

/// The same of a key of the table.
pub(crate) fn told_key(alloc: Global, level: Level, key: Key) -> Result<Text, NoMemory>
    ensures { IfOk result (λ name. name ≡ full_name level key) }
{
    let word = key.name();
    told(alloc, level, word)
}

fn is_known(level: Level, word: &str) -> bool
    ensures { result ≡ keys.is_known level word.now }
{
    let keys = level.keys();
    keys.iter().any(|key| key.name() == word)
}

fn check_keys(alloc: Global, level: Level, table: &Table) -> Result<(), ContractError>
    ensures { MatchResult result (λ _. knows_all level (table_view table.now) ≡ true) (λ e. IsUnknownFault level (table_view table.now) e) }
{
    'members: for (key, _value) in table.iter() {
        let word = key.as_str();
        if !is_known(level, word) {
            return Err(ContractError::Key(told(alloc, level, word)?));
        }
    }
    Ok(())
}

/// Checks that a needed key stands there, and that its value fits.
pub(crate) fn check_value(
    alloc: Global,
    need: Need,
    level: Level,
    table: &Table,
    key: Key,
) -> Result<(), ContractError>
    ensures { MatchResult result (λ _. keeps_row need (table_view table.now) key ≡ true) (λ e. (n : ℕ) → IsKeyFault need level n key (table_view table.now) e) }
{
    match find(table, key) {
        Some(value) => {
            if !fits(key.kind(), value) {
                return Err(ContractError::Value(told_key(alloc, level, key)?));
            }
            Ok(())
        }
        None => {
            if key.is_needed(need) {
                return Err(ContractError::Key(told_key(alloc, level, key)?));
            }
            Ok(())
        }
    }
}

fn check_values(alloc: Global, need: Need, level: Level, table: &Table) -> Result<(), ContractError>
    ensures { MatchResult result (λ _. list_all (keeps_row need (table_view table.now)) (keys_of level) ≡ true) (λ e. (n : ℕ) → IsPartFault need level n (table_view table.now) e) }
{
    for key in level.keys() {
        match check_value(alloc, need, level, table, *key) {
            Ok(()) => {}
            Err(error) => return Err(error),
        }
    }
    Ok(())
}

/// Checks the keys of a table and their values.
pub(crate) fn check_table(
    alloc: Global,
    need: Need,
    level: Level,
    table: &Table,
) -> Result<(), ContractError>
    ensures { MatchResult result (λ _. keeps need level (table_view table.now) ≡ true) (λ e. (n : ℕ) → IsPartFault need level n (table_view table.now) e) }
{
    check_keys(alloc, level, table)?;
    check_values(alloc, need, level, table)
}
