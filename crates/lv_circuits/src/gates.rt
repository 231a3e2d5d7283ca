ghost use Rattle.std.specs.Prelude.{ℕ, ◌<◌, Bool, length, IfOk, if◌then◌else◌};
ghost use Rattle.lv_aig.specs.Edges.{Gives, edge_bit};
ghost use Rattle.lv_circuits.specs.Words.{kind_bit, xor};

use lv_aig::{And, Edge};
use lv_bits::NoMemory;

/// How two bits are joined.
#[derive(Clone, Copy, Debug, PartialEq, Eq)]
pub enum Kind {
    Both,
    Either,
    Differ,
}

fn both(and: &mut And, a: Edge, b: Edge) -> Result<Edge, NoMemory>
    requires a { a.node < length and.old }
    requires b { b.node < length and.old }
    ensures { IfOk result (λ e. Gives and.old and.new e (λ values. kind_bit Kind.Both (edge_bit values a) (edge_bit values b))) }
{
    and.and(a, b)
}

fn either(and: &mut And, a: Edge, b: Edge) -> Result<Edge, NoMemory>
    requires a { a.node < length and.old }
    requires b { b.node < length and.old }
    ensures { IfOk result (λ e. Gives and.old and.new e (λ values. kind_bit Kind.Either (edge_bit values a) (edge_bit values b))) }
{
    let e = and.and(and.not(a), and.not(b))?;
    Ok(and.not(e))
}

fn differ(and: &mut And, a: Edge, b: Edge) -> Result<Edge, NoMemory>
    requires a { a.node < length and.old }
    requires b { b.node < length and.old }
    ensures { IfOk result (λ e. Gives and.old and.new e (λ values. kind_bit Kind.Differ (edge_bit values a) (edge_bit values b))) }
{
    let one = both(and, a, b)?;
    let none = both(and, and.not(a), and.not(b))?;
    let e = both(and, and.not(one), and.not(none))?;
    Ok(e)
}

pub fn gate(and: &mut And, kind: Kind, a: Edge, b: Edge) -> Result<Edge, NoMemory>
    requires a { a.node < length and.old }
    requires b { b.node < length and.old }
    ensures { IfOk result (λ e. Gives and.old and.new e (λ values. kind_bit kind (edge_bit values a) (edge_bit values b))) }
{
    match kind {
        Kind::Both => both(and, a, b),
        Kind::Either => either(and, a, b),
        Kind::Differ => differ(and, a, b),
    }
}

/// `a` where `c` is 1, else `b`.
pub fn mux(and: &mut And, c: Edge, a: Edge, b: Edge) -> Result<Edge, NoMemory>
    requires c { c.node < length and.old }
    requires a { a.node < length and.old }
    requires b { b.node < length and.old }
    ensures { IfOk result (λ e. Gives and.old and.new e (λ values. if edge_bit values c then edge_bit values a else edge_bit values b)) }
{
    let left = both(and, c, a)?;
    let right = both(and, and.not(c), b)?;
    let e = either(and, left, right)?;
    Ok(e)
}

/// The digit and the carry of a sum of three bits.
#[derive(Clone, Copy)]
pub struct Digit {
    pub sum: Edge,
    pub carry: Edge,
}

/// The carry of a sum of three bits.
pub(crate) fn carry_gate(and: &mut And, x: Edge, y: Edge, carry: Edge) -> Result<Edge, NoMemory>
    requires x { x.node < length and.old }
    requires y { y.node < length and.old }
    requires carry { carry.node < length and.old }
    ensures { IfOk result (λ e. Gives and.old and.new e (λ values. if xor (edge_bit values x) (edge_bit values y) then edge_bit values carry else edge_bit values x)) }
{
    let apart = differ(and, x, y)?;
    let first = both(and, x, y)?;
    let second = both(and, apart, carry)?;
    let e = either(and, first, second)?;
    Ok(e)
}

// The gates that the digit and the carry have in common stand once.
pub(crate) fn full_adder(and: &mut And, x: Edge, y: Edge, carry: Edge) -> Result<Digit, NoMemory>
    requires x { x.node < length and.old }
    requires y { y.node < length and.old }
    requires carry { carry.node < length and.old }
    ensures sum { IfOk result (λ d. Gives and.old and.new d.sum (λ values. xor (xor (edge_bit values x) (edge_bit values y)) (edge_bit values carry))) }
    ensures carry { IfOk result (λ d. Gives and.old and.new d.carry (λ values. if xor (edge_bit values x) (edge_bit values y) then edge_bit values carry else edge_bit values x)) }
{
    let apart = differ(and, x, y)?;
    let sum = differ(and, apart, carry)?;
    let carry = carry_gate(and, x, y, carry)?;
    Ok(Digit { sum, carry })
}
