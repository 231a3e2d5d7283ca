//! What stands at a key, by the kind of its value.

ghost use Rattle.std.specs.Prelude.{◌≡◌, IfOk, option_map, option_copied};
ghost use Rattle.toml.specs.View.{view, items_view, table_view};
ghost use Rattle.lv_contract.specs.Values as spec;
ghost use Rattle.lv_contract.specs.Values.{value_at, number_at, truth_at, string_at, text_at, items_at, items_of, texts_at, texts_in, table_at};

use crate::key::Key;
use lv_bits::{NoMemory, Text};
use sqlite_items::Items;
use std::alloc::Global;
use toml::{Table, Value};

/// The value at a key.
pub(crate) fn find<'a>(table: &'a Table, key: Key) -> Option<&'a Value>
    ensures { option_map (λ value. view value.now) result ≡ value_at key (table_view table.now) }
{
    let name = key.name();
    table.get(name)
}

/// The number that a value is, unless it is negative.
pub(crate) fn number_of(value: &Value) -> Option<u64>
    ensures { result ≡ spec.number_of (view value.now) }
{
    match value.as_integer() {
        Some(number) if 0 <= number => Some(number as u64),
        _ => None,
    }
}

/// The number at a key, or another where there is none.
pub(crate) fn number(table: &Table, key: Key, default: u64) -> u64
    ensures { result ≡ number_at default key (table_view table.now) }
{
    match find(table, key) {
        Some(value) => match number_of(value) {
            Some(number) => number,
            None => default,
        },
        None => default,
    }
}

/// The truth value at a key, or false.
pub(crate) fn truth(table: &Table, key: Key) -> bool
    ensures { result ≡ truth_at key (table_view table.now) }
{
    match find(table, key) {
        Some(value) => value.as_bool() == Some(true),
        None => false,
    }
}

/// The string at a key.
pub(crate) fn string<'a>(table: &'a Table, key: Key) -> Option<&'a str>
    ensures { option_copied result ≡ string_at key (table_view table.now) }
{
    match find(table, key) {
        Some(value) => value.as_str(),
        None => None,
    }
}

/// The same, or an empty string.
pub(crate) fn text<'a>(table: &'a Table, key: Key) -> &'a str
    ensures { result.now ≡ text_at key (table_view table.now) }
{
    match string(table, key) {
        Some(text) => text,
        None => "",
    }
}

/// The string at a key that may be absent.
pub(crate) fn text_or_none(alloc: Global, table: &Table, key: Key) -> Result<Option<Text>, NoMemory>
    ensures { IfOk result (λ text. text ≡ string_at key (table_view table.now)) }
{
    match string(table, key) {
        Some(text) => Ok(Some(Text::new(alloc, text.as_bytes())?)),
        None => Ok(None),
    }
}

/// The string that a value is, or none.
pub(crate) fn text_of<'a>(value: &'a Value) -> &'a str
    ensures { result.now ≡ spec.text_of (view value.now) }
{
    match value.as_str() {
        Some(text) => text,
        None => "",
    }
}

/// The entries of the array that a value is.
pub(crate) fn elements<'a>(value: &'a Value) -> &'a [Value]
    ensures { items_view result.now ≡ items_of (view value.now) }
{
    match value.as_array() {
        Some(values) => values.as_slice(),
        None => &[],
    }
}

/// The entries of the array at a key.
pub(crate) fn array<'a>(table: &'a Table, key: Key) -> &'a [Value]
    ensures { items_view result.now ≡ items_at key (table_view table.now) }
{
    match find(table, key) {
        Some(value) => elements(value),
        None => &[],
    }
}

/// The string at a place of an array.
#[tactic(auto, using(crate::proofs::Views::lists))]
pub(crate) fn text_in<'a>(values: &'a [Value], at: usize) -> &'a str
    ensures { result.now ≡ spec.text_in at (texts_in (items_view values.now)) }
{
    if at < values.len() {
        text_of(&values[at])
    } else {
        ""
    }
}

/// The strings of the array at a key.
#[tactic(auto, using(crate::proofs::Views::lists))]
pub(crate) fn texts(alloc: Global, table: &Table, key: Key) -> Result<Items<Text>, NoMemory>
    ensures { IfOk result (λ texts. texts ≡ texts_at key (table_view table.now)) }
{
    let values = array(table, key);
    let mut texts = Items::new(alloc);
    for value in values {
        let text = text_of(value);
        texts.push(Text::new(alloc, text.as_bytes())?)?;
    }
    Ok(texts)
}

/// The table at a key.
pub(crate) fn find_table<'a>(table: &'a Table, key: Key) -> Option<&'a Table>
    ensures { option_map (λ inner. table_view inner.now) result ≡ table_at key (table_view table.now) }
{
    match find(table, key) {
        Some(value) => value.as_table(),
        None => None,
    }
}
