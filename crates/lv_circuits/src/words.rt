ghost use Rattle.std.specs.Prelude.{◌≡◌, ℕ, ◌<◌, Bool, false, not, length, map, IfOk, if◌then◌else◌};
ghost use Rattle.lv_aig.specs.Edges.{Gives, edge_bit};
ghost use Rattle.lv_circuits.specs.Words.{AllBelow, edge_at, GivesBits, edge_bits, zip_bits, fold_bits, kind_bit, sum_bits, carry_out};

use crate::gates::{Kind, carry_gate, full_adder, gate, mux};
use lv_aig::{And, Edge};
use lv_bits::NoMemory;
use sqlite_items::Items;
use std::alloc::Global;

pub(crate) fn edge(es: &[Edge], i: usize) -> Edge
    requires { i < length es.now }
    ensures { result ≡ edge_at es.now i }
{
    es[i]
}

/// Bit by bit.
pub fn zip(
    alloc: Global,
    and: &mut And,
    kind: Kind,
    a: &[Edge],
    b: &[Edge],
) -> Result<Items<Edge>, NoMemory>
    requires same { length a.now ≡ length b.now }
    requires a { AllBelow (length and.old) a.now }
    requires b { AllBelow (length and.old) b.now }
    ensures bits { IfOk result (λ es. GivesBits and.old and.new es (λ values. zip_bits (kind_bit kind) (edge_bits values a.now) (edge_bits values b.now))) }
    ensures count { IfOk result (λ es. length es ≡ length a.now) }
{
    let mut out = Items::new(alloc);
    for i in 0..a.len() {
        let x = edge(a, i);
        let y = edge(b, i);
        let e = gate(and, kind, x, y)?;
        out.push(e)?;
    }
    Ok(out)
}

/// The bits of `a` where `c` is 1, else those of `b`.
pub fn choose(
    alloc: Global,
    and: &mut And,
    c: Edge,
    a: &[Edge],
    b: &[Edge],
) -> Result<Items<Edge>, NoMemory>
    requires same { length a.now ≡ length b.now }
    requires c { c.node < length and.old }
    requires a { AllBelow (length and.old) a.now }
    requires b { AllBelow (length and.old) b.now }
    ensures bits { IfOk result (λ es. GivesBits and.old and.new es (λ values. zip_bits (λ x y. if edge_bit values c then x else y) (edge_bits values a.now) (edge_bits values b.now))) }
    ensures count { IfOk result (λ es. length es ≡ length a.now) }
{
    let mut out = Items::new(alloc);
    for i in 0..a.len() {
        let x = edge(a, i);
        let y = edge(b, i);
        let e = mux(and, c, x, y)?;
        out.push(e)?;
    }
    Ok(out)
}

/// Each bit turned.
pub fn negate(alloc: Global, and: &And, a: &[Edge]) -> Result<Items<Edge>, NoMemory>
    requires { AllBelow (length and.now) a.now }
    ensures bits { IfOk result (λ es. GivesBits and.now and.now es (λ values. map not (edge_bits values a.now))) }
    ensures count { IfOk result (λ es. length es ≡ length a.now) }
{
    let mut out = Items::new(alloc);
    for i in 0..a.len() {
        let x = edge(a, i);
        let e = and.not(x);
        out.push(e)?;
    }
    Ok(out)
}

/// The bits of a sum, and its carry.
#[derive(Drop)]
pub struct Sum {
    pub bits: Items<Edge>,
    pub carry: Edge,
}

pub fn add(
    alloc: Global,
    and: &mut And,
    a: &[Edge],
    b: &[Edge],
    carry_in: Edge,
) -> Result<Sum, NoMemory>
    requires same { length a.now ≡ length b.now }
    requires a { AllBelow (length and.old) a.now }
    requires b { AllBelow (length and.old) b.now }
    requires carry { carry_in.node < length and.old }
    ensures count { IfOk result (λ s. length s.bits ≡ length a.now) }
    ensures bits { IfOk result (λ s. GivesBits and.old and.new s.bits (λ values. sum_bits (edge_bit values carry_in) (edge_bits values a.now) (edge_bits values b.now))) }
    ensures carry { IfOk result (λ s. Gives and.old and.new s.carry (λ values. carry_out (edge_bit values carry_in) (edge_bits values a.now) (edge_bits values b.now))) }
{
    let mut bits = Items::new(alloc);
    let mut carry = carry_in;
    for i in 0..a.len() {
        let x = edge(a, i);
        let y = edge(b, i);
        let digit = full_adder(and, x, y, carry)?;
        bits.push(digit.sum)?;
        carry = digit.carry;
    }
    Ok(Sum { bits, carry })
}

/// The carry of a sum.
pub fn carry(and: &mut And, a: &[Edge], b: &[Edge], carry_in: Edge) -> Result<Edge, NoMemory>
    requires same { length a.now ≡ length b.now }
    requires a { AllBelow (length and.old) a.now }
    requires b { AllBelow (length and.old) b.now }
    requires carry { carry_in.node < length and.old }
    ensures { IfOk result (λ e. Gives and.old and.new e (λ values. carry_out (edge_bit values carry_in) (edge_bits values a.now) (edge_bits values b.now))) }
{
    let mut carry = carry_in;
    for i in 0..a.len() {
        let x = edge(a, i);
        let y = edge(b, i);
        carry = carry_gate(and, x, y, carry)?;
    }
    Ok(carry)
}

/// All bits joined, from the lowest on.
pub fn fold(and: &mut And, kind: Kind, a: &[Edge]) -> Result<Edge, NoMemory>
    requires { AllBelow (length and.old) a.now }
    ensures { IfOk result (λ e. Gives and.old and.new e (λ values. fold_bits (kind_bit kind) false (edge_bits values a.now))) }
{
    let mut joined = and.zero();
    for i in 0..a.len() {
        let x = edge(a, i);
        joined = gate(and, kind, joined, x)?;
    }
    Ok(joined)
}
