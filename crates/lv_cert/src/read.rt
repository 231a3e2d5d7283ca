ghost use Rattle.std.specs.Prelude.{◌≡◌, ◌≤◌, true, false, codes, IfOk, IfErr};
ghost use Rattle.lv_cert.specs.Values.{Values, values_of};
ghost use Rattle.lv_cert.specs.Grammar.{IsCertificate, IsRefusal};
ghost use Rattle.lv_cert.specs.Parts.{Reads, numeral, after};
ghost use Rattle.lv_cert.specs.Sections.{keeps, kept_part, pair_part, pairs, first_part, input_part, inputs, inputs_part};
ghost use Rattle.lv_cert.specs.Whole.{lists_part, proofs_part, cert_part, ListsValue, ProofsValue, ShowsPairs, ShowsLists, ShowsProofs, ShowsCert};

use crate::cert::{Cert, Shape};
use crate::error::CertError;
use crate::queries::read_query;
use crate::words::Input;
use lv_clauses::Derivation;
use std::alloc::Global;

/// Reads a line of the list, whose number is between these two.
fn read_keep(input: &mut Input, low: u64, high: u64) -> Result<u64, CertError>
    requires { low ≤ high }
    ensures { Reads (after (codes "keep") false (numeral low high true)) (λ n a. n ≡ a) input.old input.new result }
{
    input.expect(b"keep", false)?;
    input.number(low, high, true)
}

/// Reads so many lines of the list, of numbers below `count`.
fn read_keeps(
    alloc: Global,
    input: &mut Input,
    count: u64,
    total: u64,
) -> Result<Vec<u64>, CertError>
    requires { total ≤ count }
    ensures { Reads (keeps count total) (λ v a. v.items ≡ a) input.old input.new result }
{
    let mut kept = Vec::new(alloc);
    let mut low = 0;
    for i in 0..total {
        let n = read_keep(input, low, count - total + i)?;
        if kept.push(n).is_err() {
            return Err(CertError::NoMemory);
        }
        low = n + 1;
    }
    Ok(kept)
}

/// Reads the list.
fn read_kept(alloc: Global, input: &mut Input, count: u64) -> Result<Vec<u64>, CertError>
    ensures { Reads (kept_part count) (λ v a. v.items ≡ a.1) input.old input.new result }
{
    input.expect(b"kept", false)?;
    let total = input.number(0, count, true)?;
    read_keeps(alloc, input, count, total)
}

/// Both states.
#[derive(Drop)]
pub(crate) struct States {
    pub(crate) left: Vec<u128>,
    pub(crate) right: Vec<u128>,
}

fn read_pair(input: &mut Input) -> Result<(u128, u128), CertError>
    ensures { Reads (pair_part 0 0) (λ v a. v ≡ a) input.old input.new result }
{
    input.expect(b"pair", false)?;
    let left = input.value(false)?;
    let right = input.value(true)?;
    Ok((left, right))
}

fn read_pairs(alloc: Global, input: &mut Input, count: u64) -> Result<States, CertError>
    ensures { Reads (pairs count) ShowsPairs input.old input.new result }
{
    let mut left = Vec::new(alloc);
    let mut right = Vec::new(alloc);
    for i in 0..count {
        let (l, r) = read_pair(input)?;
        if left.push(l).is_err() || right.push(r).is_err() {
            return Err(CertError::NoMemory);
        }
    }
    Ok(States { left, right })
}

fn read_first(alloc: Global, input: &mut Input, count: u64) -> Result<States, CertError>
    ensures { Reads (first_part count) (λ v a. ShowsPairs v a.1) input.old input.new result }
{
    input.expect(b"first", false)?;
    input.number(count, count, true)?;
    read_pairs(alloc, input, count)
}

fn read_input(input: &mut Input) -> Result<u128, CertError>
    ensures { Reads (input_part 0 0) (λ v a. v ≡ a) input.old input.new result }
{
    input.expect(b"input", false)?;
    input.value(true)
}

fn read_values(alloc: Global, input: &mut Input, count: u64) -> Result<Vec<u128>, CertError>
    ensures { Reads (inputs count) (λ v a. v.items ≡ a) input.old input.new result }
{
    let mut values = Vec::new(alloc);
    for i in 0..count {
        let value = read_input(input)?;
        if values.push(value).is_err() {
            return Err(CertError::NoMemory);
        }
    }
    Ok(values)
}

fn read_inputs(alloc: Global, input: &mut Input, count: u64) -> Result<Vec<u128>, CertError>
    ensures { Reads (inputs_part count) (λ v a. v.items ≡ a.1) input.old input.new result }
{
    input.expect(b"inputs", false)?;
    input.number(count, count, true)?;
    read_values(alloc, input, count)
}

/// What stands before the queries.
#[derive(Drop)]
pub(crate) struct Lists {
    pub(crate) kept: Vec<u64>,
    pub(crate) states: States,
    pub(crate) values: Vec<u128>,
}

/// The derivations of the three queries.
#[derive(Drop)]
pub(crate) struct Proofs {
    pub(crate) base: Derivation,
    pub(crate) step: Derivation,
    pub(crate) imply: Derivation,
}

/// Reads the list, the states and the input.
fn read_lists(alloc: Global, input: &mut Input, shape: Shape) -> Result<Lists, CertError>
    ensures { Reads (lists_part shape) ShowsLists input.old input.new result }
{
    let kept = read_kept(alloc, input, shape.candidates)?;
    let states = read_first(alloc, input, shape.registers)?;
    let values = read_inputs(alloc, input, shape.inputs)?;
    Ok(Lists {
        kept,
        states,
        values,
    })
}

/// Reads the three queries.
fn read_proofs(alloc: Global, input: &mut Input) -> Result<Proofs, CertError>
    ensures { Reads proofs_part ShowsProofs input.old input.new result }
{
    let base = read_query(alloc, input, b"base")?;
    let step = read_query(alloc, input, b"step")?;
    let imply = read_query(alloc, input, b"imply")?;
    Ok(Proofs { base, step, imply })
}

fn joined(lists: Lists, proofs: Proofs) -> Cert
    ensures { (a : ListsValue) (b : ProofsValue) → ShowsLists lists a → ShowsProofs proofs b → ShowsCert result (a, (b, tt)) }
{
    let Lists {
        kept,
        states,
        values,
    } = lists;
    let States { left, right } = states;
    let Proofs { base, step, imply } = proofs;
    Cert {
        kept,
        left,
        right,
        input: values,
        base,
        step,
        imply,
    }
}

/// Reads all lines of a certificate.
fn read_all(alloc: Global, input: &mut Input, shape: Shape) -> Result<Cert, CertError>
    ensures { Reads (cert_part shape) ShowsCert input.old input.new result }
{
    input.expect(b"leave-certificate", false)?;
    input.expect(b"1", true)?;
    let lists = read_lists(alloc, input, shape)?;
    let proofs = read_proofs(alloc, input)?;
    input.expect(b"end", true)?;
    Ok(joined(lists, proofs))
}

/// The certificate that bytes are, for a task of this shape.
///
/// `Line` exactly where the bytes are no certificate for the shape: the first line that doesn't fit or is missing, from 1.
/// The clauses are passed over and not kept.
pub fn read_cert(alloc: Global, bytes: &[u8], shape: Shape) -> Result<Cert, CertError>
    ensures ok { IfOk result (λ cert. IsCertificate shape (values_of cert) bytes.now) }
    ensures only { IfOk result (λ cert. (v : Values) → IsCertificate shape v bytes.now → v ≡ values_of cert) }
    ensures err { IfErr result (IsRefusal shape bytes.now) }
{
    let mut input = Input::new(bytes);
    let cert = read_all(alloc, &mut input, shape)?;
    match input.more() {
        None => Ok(cert),
        Some(line) => Err(CertError::Line(line)),
    }
}
