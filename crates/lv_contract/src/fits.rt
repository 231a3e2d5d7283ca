//! Kinds of values and their ranges.

ghost use Rattle.std.specs.Prelude.{◌≡◌};
ghost use Rattle.std.specs.List.{list_all};
ghost use Rattle.toml.specs.View.{view, items_view};
ghost use Rattle.lv_contract.specs.Values as spec;

use crate::key::Kind;
use crate::values::number_of;
use toml::Value;

const MOST_ENTRIES: usize = 1024;

fn is_printable(text: &[u8]) -> bool
    ensures { result ≡ spec.is_printable text.now }
{
    text.iter().all(|byte| 32 <= *byte && *byte <= 126)
}

fn is_text(value: &Value) -> bool
    ensures { result ≡ spec.is_text (view value.now) }
{
    match value.as_str() {
        Some(text) => is_printable(text.as_bytes()),
        None => false,
    }
}

fn is_name(value: &Value) -> bool
    ensures { result ≡ spec.fits Kind.Name (view value.now) }
{
    match value.as_str() {
        Some(text) => text.len() != 0 && is_printable(text.as_bytes()),
        None => false,
    }
}

fn is_number(value: &Value, least: u64, most: u64) -> bool
    ensures { result ≡ spec.fits (Kind.Number least most) (view value.now) }
{
    match number_of(value) {
        Some(number) => least <= number && number <= most,
        None => false,
    }
}

fn is_within(count: usize, least: usize, most: usize) -> bool
    ensures { result ≡ spec.within least most count }
{
    least <= count && count <= most
}

fn all_texts(values: &[Value]) -> bool
    ensures { result ≡ list_all (λ value. spec.is_text (view value)) values.now }
{
    values.iter().all(|value| is_text(value))
}

#[tactic(auto, using(crate::proofs::Views::sizes))]
fn are_texts(values: &[Value], least: usize, most: usize) -> bool
    ensures { result ≡ spec.are_texts least most (items_view values.now) }
{
    is_within(values.len(), least, most) && all_texts(values)
}

fn is_list(value: &Value, least: usize, most: usize) -> bool
    ensures { result ≡ spec.is_list least most (view value.now) }
{
    match value.as_array() {
        Some(values) => are_texts(values.as_slice(), least, most),
        None => false,
    }
}

fn all_lists(values: &[Value], least: usize, most: usize) -> bool
    ensures { result ≡ list_all (λ value. spec.is_list least most (view value)) values.now }
{
    values.iter().all(|value| is_list(value, least, most))
}

#[tactic(auto, using(crate::proofs::Views::sizes))]
fn are_lists(values: &[Value], least: usize, most: usize) -> bool
    ensures { result ≡ spec.are_lists least most (items_view values.now) }
{
    is_within(values.len(), 0, MOST_ENTRIES) && all_lists(values, least, most)
}

fn has_lists(value: &Value, least: usize, most: usize) -> bool
    ensures { result ≡ spec.has_lists least most (view value.now) }
{
    match value.as_array() {
        Some(values) => are_lists(values.as_slice(), least, most),
        None => false,
    }
}

fn all_tables(values: &[Value]) -> bool
    ensures { result ≡ list_all (λ value. spec.is_table (view value)) values.now }
{
    values.iter().all(|value| value.is_table())
}

#[tactic(auto, using(crate::proofs::Views::sizes))]
fn are_ports(values: &[Value]) -> bool
    ensures { result ≡ spec.are_ports (items_view values.now) }
{
    is_within(values.len(), 1, 4) && all_tables(values)
}

fn has_ports(value: &Value) -> bool
    ensures { result ≡ spec.fits Kind.Ports (view value.now) }
{
    match value.as_array() {
        Some(values) => are_ports(values.as_slice()),
        None => false,
    }
}

/// Whether a value is of the kind and in its range.
pub(crate) fn fits(kind: Kind, value: &Value) -> bool
    ensures { result ≡ spec.fits kind (view value.now) }
{
    match kind {
        Kind::Number(least, most) => is_number(value, least, most),
        Kind::Truth => value.is_bool(),
        Kind::Name => is_name(value),
        Kind::Files => is_list(value, 1, 64),
        Kind::Expression => is_text(value),
        Kind::Expressions(least) => is_list(value, least, MOST_ENTRIES),
        Kind::Pairs => has_lists(value, 2, 2),
        Kind::States => has_lists(value, 2, 2),
        Kind::Inputs => has_lists(value, 1, 10_001),
        Kind::Table => value.is_table(),
        Kind::Ports => has_ports(value),
    }
}
