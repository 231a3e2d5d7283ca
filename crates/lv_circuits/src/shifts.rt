ghost use Rattle.std.specs.Prelude.{◌≡◌, ℕ, ◌+◌, ◌^◌, ◌<◌, ◌≤◌, Bool, length, replicate, take, IfOk, if◌then◌else◌};
ghost use Rattle.lv_aig.specs.Edges.{edge_bit};
ghost use Rattle.lv_bits.specs.Digits.{number};
ghost use Rattle.lv_circuits.specs.Words.{AllBelow, GivesBits, edge_bits};
ghost use Rattle.lv_circuits.specs.Moves.{moved};

use crate::gates::Kind;
use crate::words::{choose, edge, fold};
use lv_aig::{And, Edge};
use lv_bits::NoMemory;
use sqlite_items::Items;
use std::alloc::Global;

/// Where a word is moved.
#[derive(Clone, Copy, Debug, PartialEq, Eq)]
pub enum Way {
    Left,
    Right,
}

/// The same edge so many times.
#[tactic(auto, using(crate::proofs::Moves::replicate_more))]
pub fn copies(alloc: Global, e: Edge, count: usize) -> Result<Items<Edge>, NoMemory>
    ensures { IfOk result (λ es. es ≡ replicate count e) }
{
    let mut out = Items::new(alloc);
    for _ in 0..count {
        out.push(e)?;
    }
    Ok(out)
}

// The word moved by so many places, which takes no gate.
fn moved_by(
    alloc: Global,
    way: Way,
    fill: Edge,
    a: &[Edge],
    far: usize,
) -> Result<Items<Edge>, NoMemory>
    requires { far ≤ length a.now }
    ensures { IfOk result (λ es. es ≡ moved way fill far a.now) }
{
    let free = copies(alloc, fill, far)?;
    match way {
        Way::Left => {
            let mut out = free;
            out.append(Items::from_slice(alloc, &a[..a.len() - far])?)?;
            Ok(out)
        }
        Way::Right => {
            let mut out = Items::from_slice(alloc, &a[far..])?;
            out.append(free)?;
            Ok(out)
        }
    }
}

// The word moved by so many places where `c` is 1.
fn stage(
    alloc: Global,
    and: &mut And,
    way: Way,
    fill: Edge,
    c: Edge,
    a: &[Edge],
    far: usize,
) -> Result<Items<Edge>, NoMemory>
    requires fill { fill.node < length and.old }
    requires c { c.node < length and.old }
    requires a { AllBelow (length and.old) a.now }
    requires far { far ≤ length a.now }
    ensures bits { IfOk result (λ es. GivesBits and.old and.new es (λ values. if edge_bit values c then moved way (edge_bit values fill) far (edge_bits values a.now) else edge_bits values a.now)) }
    ensures count { IfOk result (λ es. length es ≡ length a.now) }
{
    let far = moved_by(alloc, way, fill, a, far)?;
    let es = choose(alloc, and, c, far.as_slice(), a)?;
    Ok(es)
}

// How many of the lowest `count` bits of a distance move by less than a width of at most 128.
fn stages(width: usize, count: usize) -> usize
    requires { width ≤ 128 }
    ensures within { result ≤ count }
    ensures few { result ≤ 7 }
    ensures near { (i : ℕ) → i < result → 2 ^ i < width }
    ensures far { result < count → width ≤ 2 ^ result }
{
    let mut stages = 0;
    while stages < count && stages < 7 && far_of(stages) < width {
        stages += 1;
    }
    stages
}

// 2 to the stage.
fn far_of(stage: usize) -> usize
    requires { stage < 7 }
    ensures { result ≡ 2 ^ stage }
{
    1usize << stage
}

// The word moved by a distance of few bits, one stage a bit.
fn shift_near(
    alloc: Global,
    and: &mut And,
    way: Way,
    fill: Edge,
    a: &[Edge],
    b: &[Edge],
) -> Result<Items<Edge>, NoMemory>
    requires fill { fill.node < length and.old }
    requires a { AllBelow (length and.old) a.now }
    requires b { AllBelow (length and.old) b.now }
    requires few { length b.now ≤ 7 }
    requires near { (i : ℕ) → i < length b.now → 2 ^ i < length a.now }
    ensures bits { IfOk result (λ es. GivesBits and.old and.new es (λ values. moved way (edge_bit values fill) (number (edge_bits values b.now)) (edge_bits values a.now))) }
    ensures count { IfOk result (λ es. length es ≡ length a.now) }
{
    let mut word = Items::from_slice(alloc, a)?;
    for i in 0..b.len() {
        let c = edge(b, i);
        let far = far_of(i);
        let next = stage(alloc, and, way, fill, c, word.as_slice(), far)?;
        word = next;
    }
    Ok(word)
}

/// The word `a` moved by the number `b`, with `fill` in the places that become free: one stage for each bit of `b`
/// that moves by less than the width, and one choice for the others.
pub fn shift(
    alloc: Global,
    and: &mut And,
    way: Way,
    fill: Edge,
    a: &[Edge],
    b: &[Edge],
) -> Result<Items<Edge>, NoMemory>
    requires fill { fill.node < length and.old }
    requires a { AllBelow (length and.old) a.now }
    requires b { AllBelow (length and.old) b.now }
    requires width { length a.now ≤ 128 }
    ensures bits { IfOk result (λ es. GivesBits and.old and.new es (λ values. moved way (edge_bit values fill) (number (edge_bits values b.now)) (edge_bits values a.now))) }
    ensures count { IfOk result (λ es. length es ≡ length a.now) }
{
    let count = stages(a.len(), b.len());
    let low = &b[..count];
    let high = &b[count..];
    let near = shift_near(alloc, and, way, fill, a, low)?;
    let any = fold(and, Kind::Either, high)?;
    let gone = copies(alloc, fill, a.len())?;
    let es = choose(alloc, and, any, gone.as_slice(), near.as_slice())?;
    Ok(es)
}
