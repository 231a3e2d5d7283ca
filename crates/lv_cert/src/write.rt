ghost use Rattle.std.specs.Prelude.{◌≡◌, ℕ, ◌+◌, ◌<◌, ◌^◌, true, false, [], ◌∷◌, ◌++◌, map, length, decimal, codes, IfOk, OnOk};
ghost use Rattle.lv_cert.specs.Words.{word, spelled, spell, text_of};
ghost use Rattle.lv_cert.specs.Values.{values_of, sets_of};
ghost use Rattle.lv_cert.specs.Lines.{Line as WordLine, literal, keep_line, pair_lines, input_line, clause_line, step_line, step_lines, set_lines, query_lines, kept_lines, first_lines, inputs_lines, lines_of};
ghost use Rattle.lv_cert.specs.Grammar.{CanBeWritten, AreRising, AreWide, IsCertificate, shape_of};
ghost use Rattle.lv_cert.specs.Sections.{spaced, literal_words};

use crate::cert::Cert;
use itoa::Buffer;
use lv_bits::{Bytes, NoMemory};
use lv_clauses::{ClauseSet, Derivation, Line, Lit};
use std::alloc::Global;

fn push_word(out: &mut Vec<u8>, letters: &[u8], last: bool) -> Result<(), NoMemory>
    ensures { OnOk result (out.new.items ≡ out.old.items ++ spelled (word letters.now last)) }
{
    out.extend_from_slice(letters)?;
    out.push(if last { b'\n' } else { b' ' })?;
    Ok(())
}

fn push_number(out: &mut Vec<u8>, number: u64, last: bool) -> Result<(), NoMemory>
    ensures { OnOk result (out.new.items ≡ out.old.items ++ spelled (word (decimal number) last)) }
{
    let mut buffer = Buffer::new();
    push_word(out, buffer.format(number).as_bytes(), last)
}

fn push_value(out: &mut Vec<u8>, value: u128, last: bool) -> Result<(), NoMemory>
    ensures { OnOk result (out.new.items ≡ out.old.items ++ spelled (word (decimal value) last)) }
{
    let mut buffer = Buffer::new();
    push_word(out, buffer.format(value).as_bytes(), last)
}

/// Writes a line of a word and a number.
fn push_line(out: &mut Vec<u8>, letters: &[u8], number: u64) -> Result<(), NoMemory>
    ensures { OnOk result (out.new.items ≡ out.old.items ++ text_of ((letters.now ∷ decimal number ∷ []) ∷ [])) }
{
    push_word(out, letters, false)?;
    push_number(out, number, true)
}

fn push_keeps(out: &mut Vec<u8>, kept: &[u64]) -> Result<(), NoMemory>
    ensures { OnOk result (out.new.items ≡ out.old.items ++ text_of (map keep_line kept.now)) }
{
    for number in kept {
        push_line(out, b"keep", *number)?;
    }
    Ok(())
}

fn push_pair(out: &mut Vec<u8>, left: u128, right: u128) -> Result<(), NoMemory>
    ensures { OnOk result (out.new.items ≡ out.old.items ++ text_of ((codes "pair" ∷ decimal left ∷ decimal right ∷ []) ∷ [])) }
{
    push_word(out, b"pair", false)?;
    push_value(out, left, false)?;
    push_value(out, right, true)
}

fn push_pairs(out: &mut Vec<u8>, left: &[u128], right: &[u128]) -> Result<(), NoMemory>
    requires { length left.now ≡ length right.now }
    ensures { OnOk result (out.new.items ≡ out.old.items ++ text_of (pair_lines left.now right.now)) }
{
    for (i, value) in left.iter().enumerate() {
        push_pair(out, *value, right[i])?;
    }
    Ok(())
}

fn push_input(out: &mut Vec<u8>, value: u128) -> Result<(), NoMemory>
    ensures { OnOk result (out.new.items ≡ out.old.items ++ text_of (input_line value ∷ [])) }
{
    push_word(out, b"input", false)?;
    push_value(out, value, true)
}

fn push_inputs(out: &mut Vec<u8>, input: &[u128]) -> Result<(), NoMemory>
    ensures { OnOk result (out.new.items ≡ out.old.items ++ text_of (map input_line input.now)) }
{
    for value in input {
        push_input(out, *value)?;
    }
    Ok(())
}

fn push_literal(out: &mut Vec<u8>, lit: Lit) -> Result<(), NoMemory>
    ensures { OnOk result (out.new.items ≡ out.old.items ++ spelled (word (literal lit) false)) }
{
    if lit.neg() {
        out.push(b'-')?;
    }
    push_number(out, lit.var(), false)
}

/// Writes literals and a zero.
fn push_literals(out: &mut Vec<u8>, lits: &[Lit], last: bool) -> Result<(), NoMemory>
    ensures { OnOk result (out.new.items ≡ out.old.items ++ spell (literal_words lits.now ++ word (codes "0") last ∷ [])) }
{
    for lit in lits {
        push_literal(out, *lit)?;
    }
    push_word(out, b"0", last)
}

/// Writes hints and a zero.
fn push_hints(out: &mut Vec<u8>, hints: &[u64]) -> Result<(), NoMemory>
    ensures { OnOk result (out.new.items ≡ out.old.items ++ spell (spaced hints.now ++ word (codes "0") true ∷ [])) }
{
    for hint in hints {
        push_number(out, *hint, false)?;
    }
    push_word(out, b"0", true)
}

fn push_clause(out: &mut Vec<u8>, lits: &[Lit]) -> Result<(), NoMemory>
    ensures { OnOk result (out.new.items ≡ out.old.items ++ text_of (clause_line lits.now ∷ [])) }
{
    push_literals(out, lits, true)
}

fn push_clauses(out: &mut Vec<u8>, set: &ClauseSet) -> Result<(), NoMemory>
    ensures { OnOk result (out.new.items ≡ out.old.items ++ text_of (map clause_line set.now.clauses)) }
{
    for k in 0..set.len() {
        push_clause(out, set.clause(k + 1).lits())?;
    }
    Ok(())
}

/// Writes a set as in DIMACS.
fn push_set(out: &mut Vec<u8>, set: &ClauseSet) -> Result<(), NoMemory>
    ensures { OnOk result (out.new.items ≡ out.old.items ++ text_of (set_lines set.now)) }
{
    push_word(out, b"p", false)?;
    push_word(out, b"cnf", false)?;
    push_number(out, set.vars(), false)?;
    push_number(out, set.len(), true)?;
    push_clauses(out, set)
}

/// Writes a line of a derivation as in LRAT.
fn push_step(out: &mut Vec<u8>, id: u64, line: &Line) -> Result<(), NoMemory>
    ensures { OnOk result (out.new.items ≡ out.old.items ++ text_of (step_line id line.now ∷ [])) }
{
    push_number(out, id, false)?;
    push_literals(out, line.clause().lits(), false)?;
    push_hints(out, line.hints())
}

/// Writes lines with the numbers behind `count`.
fn push_steps(out: &mut Vec<u8>, count: u64, lines: &Derivation) -> Result<(), NoMemory>
    requires count { count < 2 ^ 63 }
    requires few { length lines.now < 2 ^ 63 }
    ensures { OnOk result (out.new.items ≡ out.old.items ++ text_of (step_lines (count + 1) lines.now)) }
{
    for k in 0..lines.len() {
        push_step(out, count + 1 + k, lines.line(k))?;
    }
    Ok(())
}

fn push_query(
    out: &mut Vec<u8>,
    name: &[u8],
    set: &ClauseSet,
    lines: &Derivation,
) -> Result<(), NoMemory>
    requires { length lines.now < 2 ^ 63 }
    ensures { OnOk result (out.new.items ≡ out.old.items ++ text_of (query_lines name.now set.now lines.now)) }
{
    set.kept();
    push_word(out, b"query", false)?;
    push_word(out, name, true)?;
    push_set(out, set)?;
    push_line(out, b"lines", lines.len())?;
    push_steps(out, set.len(), lines)
}

/// Writes the list, the states and the input.
fn push_found(out: &mut Vec<u8>, cert: &Cert) -> Result<(), NoMemory>
    requires { length cert.now.left.items ≡ length cert.now.right.items }
    ensures { OnOk result (out.new.items ≡ out.old.items ++ text_of (kept_lines cert.now.kept.items ++ (first_lines cert.now.left.items cert.now.right.items ++ inputs_lines cert.now.input.items))) }
{
    push_line(out, b"kept", cert.kept.len() as u64)?;
    push_keeps(out, &cert.kept)?;
    push_line(out, b"first", cert.left.len() as u64)?;
    push_pairs(out, &cert.left, &cert.right)?;
    push_line(out, b"inputs", cert.input.len() as u64)?;
    push_inputs(out, &cert.input)
}

/// Values have at most 128 bits. It does nothing: its contract is the law.
fn are_wide(values: &Vec<u128>)
    ensures { AreWide values.now.items }
{}

/// The text of a certificate, with the clauses of the sets that its derivations are of.
///
/// Both states have as many values, the numbers of the list rise, and each derivation is over its set's variables, with hints that name clauses of the set or earlier lines.
/// Read for as many candidates as there may be, registers and inputs, it gives the certificate back. The clauses are lines of DIMACS, the derivations lines of LRAT.
pub fn write_cert(
    alloc: Global,
    cert: &Cert,
    base: &ClauseSet,
    step: &ClauseSet,
    imply: &ClauseSet,
) -> Result<Bytes, NoMemory>
    requires { CanBeWritten (values_of cert.now) (sets_of base.now step.now imply.now) }
    ensures text { IfOk result (λ bytes. bytes ≡ text_of (lines_of (values_of cert.now) (sets_of base.now step.now imply.now))) }
    ensures certificate { IfOk result (λ bytes. (candidates : ℕ) → AreRising 0 candidates cert.now.kept.items →
        IsCertificate (shape_of candidates (values_of cert.now)) (values_of cert.now) bytes) }
{
    are_wide(&cert.left);
    are_wide(&cert.right);
    are_wide(&cert.input);
    base.kept();
    step.kept();
    imply.kept();
    let mut out = Vec::new(alloc);
    push_word(&mut out, b"leave-certificate", false)?;
    push_word(&mut out, b"1", true)?;
    push_found(&mut out, cert)?;
    push_query(&mut out, b"base", base, &cert.base)?;
    push_query(&mut out, b"step", step, &cert.step)?;
    push_query(&mut out, b"imply", imply, &cert.imply)?;
    push_word(&mut out, b"end", true)?;
    Ok(Bytes::from(out))
}
