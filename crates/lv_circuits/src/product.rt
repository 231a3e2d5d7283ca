ghost use Rattle.std.specs.Prelude.{◌≡◌, ℕ, ◌+◌, ◌*◌, ◌^◌, ◌%◌, ◌<◌, Bool, length, IfOk};
ghost use Rattle.lv_bits.specs.Values.{bit};
ghost use Rattle.lv_aig.specs.Edges.{Grows, IsValuation, edge_bit};
ghost use Rattle.lv_bits.specs.Digits.{number};
ghost use Rattle.lv_circuits.specs.Words.{AllBelow, edge_bits};
ghost use Rattle.lv_circuits.specs.Products.{IsMultipleAbove};

use crate::gates::Kind;
use crate::shifts::copies;
use crate::words::{add, edge, zip};
use lv_aig::{And, Edge};
use lv_bits::NoMemory;
use sqlite_items::Items;
use std::alloc::Global;

/// The lowest bit of a sum, and the others.
#[derive(Drop)]
struct PartialSum {
    low: Edge,
    high: Items<Edge>,
}

// The sum of `high` and of `a` where `c` is 1.
fn row(
    alloc: Global,
    and: &mut And,
    high: &[Edge],
    a: &[Edge],
    c: Edge,
) -> Result<PartialSum, NoMemory>
    requires high { AllBelow (length and.old) high.now }
    requires a { AllBelow (length and.old) a.now }
    requires c { c.node < length and.old }
    requires same { length high.now ≡ length a.now }
    requires some { 0 < length high.now }
    ensures grows { IfOk result (λ _. Grows and.old and.new) }
    ensures low { IfOk result (λ r. r.low.node < length and.new) }
    ensures high { IfOk result (λ r. AllBelow (length and.new) r.high) }
    ensures count { IfOk result (λ r. length r.high + 1 ≡ length high.now) }
    ensures is { IfOk result (λ r. (values : ℕ → Bool) → IsValuation and.new values → IsMultipleAbove (number (edge_bits values high.now) + bit (edge_bit values c) * number (edge_bits values a.now)) (number (edge_bits values r.high) * 2 + bit (edge_bit values r.low)) (2 ^ length a.now)) }
{
    let masks = copies(alloc, c, a.len())?;
    let terms = zip(alloc, and, Kind::Both, a, masks.as_slice())?;
    let zero = and.zero();
    let sum = add(alloc, and, high, terms.as_slice(), zero)?;
    let bits = sum.bits.as_slice();
    let low = edge(bits, 0);
    let high = Items::from_slice(alloc, &bits[1..])?;
    Ok(PartialSum { low, high })
}

/// The product, row by row from the lowest bit of `b` on, without the bits above the width.
pub fn product(
    alloc: Global,
    and: &mut And,
    a: &[Edge],
    b: &[Edge],
) -> Result<Items<Edge>, NoMemory>
    requires a { AllBelow (length and.old) a.now }
    requires b { AllBelow (length and.old) b.now }
    requires same { length a.now ≡ length b.now }
    ensures grows { IfOk result (λ _. Grows and.old and.new) }
    ensures below { IfOk result (λ es. AllBelow (length and.new) es) }
    ensures count { IfOk result (λ es. length es ≡ length a.now) }
    ensures is { IfOk result (λ es. (values : ℕ → Bool) → IsValuation and.new values → number (edge_bits values es) ≡ number (edge_bits values a.now) * number (edge_bits values b.now) % 2 ^ length a.now) }
{
    let zero = and.zero();
    let mut low = Items::new(alloc);
    let mut high = copies(alloc, zero, a.len())?;
    for i in 0..b.len() {
        let c = edge(b, i);
        let part = &a[..a.len() - i];
        let sum = row(alloc, and, high.as_slice(), part, c)?;
        let PartialSum {
            low: digit,
            high: rest,
        } = sum;
        low.push(digit)?;
        high = rest;
    }
    Ok(low)
}
