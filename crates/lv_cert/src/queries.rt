ghost use Rattle.std.specs.Prelude.{◌≡◌, ◌≢◌, ◌↔◌, ◌+◌, ◌<◌, ◌≤◌, ◌^◌, true, false, IsTrue, length, get_or, codes};
ghost use Rattle.lv_cert.specs.Lines.{literal};
ghost use Rattle.lv_cert.specs.Parts.{Reads, ReadsTurn, IsReadOr, over};
ghost use Rattle.lv_cert.specs.Sections.{literals, clauses, hint_part, hints, step_part, steps, lines_part, set_part, query_part};
ghost use Rattle.lv_cert.specs.Whole.{ShowsStep, ShowsSteps, ShowsQuery};

use crate::error::CertError;
use crate::number::small_number_of;
use crate::words::{Input, is_same};
use lv_clauses::{Clause, Derivation, Line, Lit};
use std::alloc::Global;

/// The largest count of variables, clauses and lines.
const MOST: u64 = 0x7fff_ffff_ffff_ffff;

/// The literal of these letters, which begin with a minus.
fn negative_of(letters: &[u8], low: u64, vars: u64) -> Option<Lit>
    requires less { low < vars }
    requires some { 0 < length letters.now }
    requires minus { get_or letters.now 0 0 ≡ 45 }
    ensures { IsReadOr (λ l. (low < l.var) × (l.var ≤ vars)) literal letters.now result }
{
    match small_number_of(&letters[1..], low + 1, vars) {
        Some(var) => Some(Lit::new(var, true)),
        None => None,
    }
}

/// The literal of these letters, which don't begin with a minus.
fn positive_of(letters: &[u8], low: u64, vars: u64) -> Option<Lit>
    requires less { low < vars }
    requires plain { get_or letters.now 0 0 ≢ 45 }
    ensures { IsReadOr (λ l. (low < l.var) × (l.var ≤ vars)) literal letters.now result }
{
    match small_number_of(letters, low + 1, vars) {
        Some(var) => Some(Lit::new(var, false)),
        None => None,
    }
}

/// The literal of these letters, if its variable is above `low` and at most `vars`.
fn literal_of(letters: &[u8], low: u64, vars: u64) -> Option<Lit>
    ensures { IsReadOr (λ l. (low < l.var) × (l.var ≤ vars)) literal letters.now result }
{
    if low >= vars {
        return None;
    }
    if letters.is_empty() {
        return None;
    }
    if letters[0] == b'-' {
        negative_of(letters, low, vars)
    } else {
        positive_of(letters, low, vars)
    }
}

/// Whether a word is a zero that ends its line, or doesn't.
fn is_zero(letters: &[u8], end: bool, last: bool) -> bool
    ensures { IsTrue result ↔ ((letters.now ≡ codes "0") × (end ≡ last)) }
{
    end == last && is_same(letters, b"0")
}

/// Reads a literal, none where a zero stands in its place.
fn read_literal(
    input: &mut Input,
    low: u64,
    vars: u64,
    last: bool,
) -> Result<Option<Lit>, CertError>
    ensures { ReadsTurn (literals vars last low) (over low vars) last input.old input.new result }
{
    let line = input.line();
    let Some(found) = input.next_word() else {
        return Err(CertError::Line(line));
    };
    if is_zero(found.letters, found.last, last) {
        return Ok(None);
    }
    if found.last {
        return Err(CertError::Line(line));
    }
    match literal_of(found.letters, low, vars) {
        Some(lit) => Ok(Some(lit)),
        None => Err(CertError::Line(line)),
    }
}

/// Reads literals up to the zero behind them.
fn read_literals(
    alloc: Global,
    input: &mut Input,
    vars: u64,
    last: bool,
) -> Result<Vec<Lit>, CertError>
    ensures { Reads (literals vars last 0) (λ v a. v.items ≡ a) input.old input.new result }
{
    let mut lits = Vec::new(alloc);
    let mut low = 0;
    while let Some(lit) = read_literal(input, low, vars, last)? {
        if lits.push(lit).is_err() {
            return Err(CertError::NoMemory);
        }
        low = lit.var();
    }
    Ok(lits)
}

/// Passes over a clause.
fn skip_clause(input: &mut Input, vars: u64) -> Result<(), CertError>
    ensures { Reads (literals vars true 0) (λ _ _. Unit {0}) input.old input.new result }
{
    let mut low = 0;
    while let Some(lit) = read_literal(input, low, vars, true)? {
        low = lit.var();
    }
    Ok(())
}

/// Passes over so many clauses.
fn skip_clauses(input: &mut Input, vars: u64, count: u64) -> Result<(), CertError>
    ensures { Reads (clauses vars count) (λ _ _. Unit {0}) input.old input.new result }
{
    for i in 0..count {
        skip_clause(input, vars)?;
    }
    Ok(())
}

/// Reads a hint below `id`, none where a zero stands in its place.
fn read_hint(input: &mut Input, id: u64) -> Result<Option<u64>, CertError>
    requires { 1 ≤ id }
    ensures { ReadsTurn (hints id) (hint_part id 0) true input.old input.new result }
{
    let line = input.line();
    let Some(found) = input.next_word() else {
        return Err(CertError::Line(line));
    };
    if is_zero(found.letters, found.last, true) {
        return Ok(None);
    }
    if found.last {
        return Err(CertError::Line(line));
    }
    match small_number_of(found.letters, 1, id - 1) {
        Some(hint) => Ok(Some(hint)),
        None => Err(CertError::Line(line)),
    }
}

/// Reads hints up to the zero behind them.
fn read_hints(alloc: Global, input: &mut Input, id: u64) -> Result<Vec<u64>, CertError>
    requires { 1 ≤ id }
    ensures { Reads (hints id) (λ v a. v.items ≡ a) input.old input.new result }
{
    let mut hints = Vec::new(alloc);
    while let Some(hint) = read_hint(input, id)? {
        if hints.push(hint).is_err() {
            return Err(CertError::NoMemory);
        }
    }
    Ok(hints)
}

/// Reads the line with the number `id` of a derivation.
fn read_step(alloc: Global, input: &mut Input, vars: u64, id: u64) -> Result<Line, CertError>
    requires { 1 ≤ id }
    ensures { Reads (step_part vars 0 id) ShowsStep input.old input.new result }
{
    input.number(id, id, false)?;
    let lits = read_literals(alloc, input, vars, false)?;
    let hints = read_hints(alloc, input, id)?;
    match Clause::of(alloc, &lits) {
        Ok(Some(clause)) => Ok(Line::new(clause, hints)),
        Ok(None) => unreachable!(),
        Err(_) => Err(CertError::NoMemory),
    }
}

/// Reads so many lines, with numbers from `id` on.
fn read_steps(
    alloc: Global,
    input: &mut Input,
    vars: u64,
    id: u64,
    count: u64,
) -> Result<Derivation, CertError>
    requires { (1 ≤ id) × (id + count < 2 ^ 64) }
    ensures { Reads (steps vars id count) ShowsSteps input.old input.new result }
{
    let mut lines = Derivation::new(alloc);
    for k in 0..count {
        let line = read_step(alloc, input, vars, id + k)?;
        if lines.push(line).is_err() {
            return Err(CertError::NoMemory);
        }
    }
    Ok(lines)
}

/// Reads a derivation whose lines have numbers from `id` on.
fn read_lines(alloc: Global, input: &mut Input, vars: u64, id: u64) -> Result<Derivation, CertError>
    requires { (1 ≤ id) × (id ≤ MOST + 1) }
    ensures { Reads (lines_part vars id) (λ v a. ShowsSteps v a.1) input.old input.new result }
{
    input.expect(b"lines", false)?;
    let count = input.number(0, MOST, true)?;
    read_steps(alloc, input, vars, id, count)
}

/// Passes over a set, and reads the derivation behind it.
fn read_set(alloc: Global, input: &mut Input) -> Result<Derivation, CertError>
    ensures { Reads set_part ShowsQuery input.old input.new result }
{
    input.expect(b"p", false)?;
    input.expect(b"cnf", false)?;
    let vars = input.number(0, MOST, false)?;
    let count = input.number(0, MOST, true)?;
    skip_clauses(input, vars, count)?;
    read_lines(alloc, input, vars, count + 1)
}

/// Reads a query of this name: its set is passed over, and its derivation is kept.
pub(crate) fn read_query(
    alloc: Global,
    input: &mut Input,
    name: &[u8],
) -> Result<Derivation, CertError>
    ensures { Reads (query_part name.now) ShowsQuery input.old input.new result }
{
    input.expect(b"query", false)?;
    input.expect(name, true)?;
    read_set(alloc, input)
}
