ghost use Rattle.std.specs.Prelude.{◌≡◌, ℕ, ◌+◌, ◌-◌, ◌*◌, ◌/◌, ◌%◌, ◌^◌, ◌<◌, ◌≤◌, length, true, IfOk, IsTrue, pos, ◌-ℤ◌};
ghost use Rattle.lv_values.specs.Worlds.{World, IsIn, IsKnown, width_of, number, Grows, Gives};
ghost use Rattle.lv_values.specs.Windows.{integer};
ghost use Rattle.lv_values.specs.Picked.{code_number, item_value, other_value, item_width, AreChoices, HasElements, AreBits, IsNear, IsElement, Misses, AreOutside, AreKnown};

use crate::select::{read, written, zeros};
use crate::value::{Value, choose, cut};
use crate::window::{Number, window_of};
use lv_bits::NoMemory;
use lv_netlist::Builder;
use std::alloc::Global;

/// What stands at each number that an index may have.
#[derive(Clone, Copy)]
pub enum Choices {
    /// Elements, whose numbers begin with the first field, of so many bits as the second says. Others are 0.
    Elements(u32, u32),
    /// So many bits as the last field says of a word with these bounds, from the number on. Those outside of the word are 0.
    Read(Value, u32, u32, u32),
    /// A word with these bounds, with the last field written to its bits from the number on. Those outside of it write nothing.
    Write(Value, u32, u32, Value),
}

/// The number of a word.
pub fn number_of(code: u128, signed: bool, width: u32) -> Number
    requires some { 1 ≤ width }
    requires most { width ≤ 128 }
    requires fits { code < 2 ^ width }
    ensures is { integer result ≡ code_number signed width code }
    ensures near { IsNear result }
{
    let half = 1u128 << (width - 1);
    if signed && code >= half {
        Number::Below((half - 1) - (code - half))
    } else {
        Number::Above(code)
    }
}

/// A number that is so much lower.
pub fn lowered(z: Number, by: u32) -> Number
    requires near { IsNear z }
    requires most { by ≤ 128 }
    ensures { integer result ≡ integer z -ℤ pos by }
{
    let by = u128::from(by);
    match z {
        Number::Above(i) => {
            if by <= i {
                Number::Above(i - by)
            } else {
                Number::Below(by - i - 1)
            }
        }
        Number::Below(i) => Number::Below(i + by),
    }
}

/// Whether no number of those that codes from `first` to `last` stand for, and of the `count` from each on, lies between the bounds.
fn is_apart(
    low: u32,
    high: u32,
    count: u32,
    signed: bool,
    width: u32,
    down: u32,
    first: u128,
    last: u128,
) -> bool
    requires some { 1 ≤ width }
    requires most { width ≤ 128 }
    requires fits { last < 2 ^ width }
    requires near { down ≤ 128 }
    ensures { IsTrue result → Misses low high count signed width down first last }
{
    let half = 1u128 << (width - 1);
    let below = u128::from(low) + u128::from(down);
    let above = u128::from(high) + u128::from(down);
    let count = u128::from(count);
    if !signed || last < half {
        return above < first || (last < below && count <= below - last);
    }
    half <= first && count <= below + ((half - 1) - (last - half) + 1)
}

fn element(nodes: &[u64], low: u32, width: u32, z: Number) -> Value
    requires some { 1 ≤ width }
    requires most { width ≤ 128 }
    ensures is { IsElement nodes.now low width (integer z) result }
{
    if let Number::Above(i) = z {
        if u128::from(low) <= i && i - u128::from(low) < nodes.len() as u128 {
            let at = (i - u128::from(low)) as usize;
            return Value::Node(nodes[at], width);
        }
    }
    zeros(width)
}

/// What stands at a number.
pub fn item(b: &mut Builder, nodes: &[u64], choices: &Choices, z: Number) -> Result<Value, NoMemory>
    requires choices { AreChoices b.old nodes.now choices.now }
    ensures is { IfOk result (λ r. Gives b.old b.new r (item_width choices.now) (λ w. item_value w nodes.now choices.now (integer z))) }
    ensures known { IfOk result (λ r. AreKnown choices.now → IsKnown r) }
{
    match choices {
        Choices::Elements(low, width) => Ok(element(nodes, *low, *width, z)),
        Choices::Read(word, left, right, count) => {
            let at = window_of(*left, *right, z, *count);
            let r = read(b, word.same(), at)?;
            Ok(r)
        }
        Choices::Write(word, left, right, x) => {
            let at = window_of(*left, *right, z, x.width());
            let r = written(b, word.same(), at, x.same())?;
            Ok(r)
        }
    }
}

/// What stands at the numbers outside.
fn other(b: &Builder, nodes: &[u64], choices: &Choices) -> Value
    requires choices { AreChoices b.now nodes.now choices.now }
    ensures { Gives b.now b.now result (item_width choices.now) (λ w. other_value w choices.now) }
{
    match choices {
        Choices::Elements(_, width) => zeros(*width),
        Choices::Read(_, _, _, count) => zeros(*count),
        Choices::Write(word, _, _, _) => word.same(),
    }
}

/// Whether all codes from `first` to `last` stand for numbers outside.
fn is_outside(
    nodes: &[u64],
    choices: &Choices,
    signed: bool,
    width: u32,
    down: u32,
    first: u128,
    last: u128,
) -> bool
    requires some { 1 ≤ width }
    requires most { width ≤ 128 }
    requires fits { last < 2 ^ width }
    requires near { down ≤ 128 }
    requires elements { HasElements nodes.now choices.now }
    ensures { IsTrue result → AreOutside nodes.now choices.now signed width down first last }
{
    match choices {
        Choices::Elements(low, _) => {
            let more = (nodes.len() - 1) as u32;
            is_apart(*low, *low + more, 1, signed, width, down, first, last)
        }
        Choices::Read(_, left, right, count) => {
            let low = (*left).min(*right);
            let high = (*left).max(*right);
            is_apart(low, high, *count, signed, width, down, first, last)
        }
        Choices::Write(_, left, right, x) => {
            let low = (*left).min(*right);
            let high = (*left).max(*right);
            is_apart(low, high, x.width(), signed, width, down, first, last)
        }
    }
}

/// What stands at the code that begins with `base` and ends with the `k` lowest bits of the index.
#[cycle(tree)]
fn tree(
    b: &mut Builder,
    nodes: &[u64],
    choices: &Choices,
    index: &Value,
    bits: &[Value],
    signed: bool,
    down: u32,
    k: u32,
    base: u128,
) -> Result<Value, NoMemory>
    requires choices { AreChoices b.old nodes.now choices.now }
    requires elements { HasElements nodes.now choices.now }
    requires bits { AreBits b.old index.now bits.now (width_of index.now) }
    requires some { 1 ≤ width_of index.now }
    requires most { width_of index.now ≤ 128 }
    requires near { down ≤ 128 }
    requires below { base + 2 ^ k ≤ 2 ^ width_of index.now }
    requires levels { k ≤ width_of index.now }
    ensures { IfOk result (λ r. Gives b.old b.new r (item_width choices.now) (λ w. item_value w nodes.now choices.now (code_number signed (width_of index.now) (base + number w index.now % 2 ^ k) -ℤ pos down))) }
{
    let width = index.width();
    if k == 0 {
        let n = number_of(base, signed, width);
        let z = lowered(n, down);
        let r = item(b, nodes, choices, z)?;
        return Ok(r);
    }
    let half = 1u128 << (k - 1);
    let last = base + (half - 1) + half;
    if is_outside(nodes, choices, signed, width, down, base, last) {
        return Ok(other(b, nodes, choices));
    }
    let x = tree(b, nodes, choices, index, bits, signed, down, k - 1, base)?;
    let y = tree(
        b,
        nodes,
        choices,
        index,
        bits,
        signed,
        down,
        k - 1,
        base + half,
    )?;
    let t = bits[(k - 1) as usize];
    let r = choose(b, t, y, x)?;
    Ok(r)
}

/// The bits of a value, the lowest first.
fn bits_of(alloc: Global, b: &mut Builder, x: &Value) -> Result<Vec<Value>, NoMemory>
    requires x_in { IsIn b.old x.now }
    requires most { width_of x.now ≤ 128 }
    ensures grows { IfOk result (λ r. Grows b.old b.new) }
    ensures bits { IfOk result (λ r. AreBits b.new x.now r.items (width_of x.now)) }
{
    let mut bits = Vec::new(alloc);
    for i in 0..x.width() {
        let bit = cut(b, x.same(), i, 1)?;
        bits.reserve(1)?;
        bits.push_reserved(bit);
    }
    Ok(bits)
}

/// What stands at the number that an index has, lower by `down`. The number is signed where the index is.
pub fn pick(
    alloc: Global,
    b: &mut Builder,
    nodes: &[u64],
    choices: &Choices,
    index: &Value,
    signed: bool,
    down: u32,
) -> Result<Value, NoMemory>
    requires choices { AreChoices b.old nodes.now choices.now }
    requires elements { HasElements nodes.now choices.now }
    requires index_in { IsIn b.old index.now }
    requires some { 1 ≤ width_of index.now }
    requires most { width_of index.now ≤ 128 }
    requires near { down ≤ 128 }
    ensures is { IfOk result (λ r. Gives b.old b.new r (item_width choices.now) (λ w. item_value w nodes.now choices.now (code_number signed (width_of index.now) (number w index.now) -ℤ pos down))) }
    ensures known { IfOk result (λ r. AreKnown choices.now → IsKnown index.now → IsKnown r) }
{
    match index {
        Value::Known(word) => {
            let n = number_of(word.value(), signed, word.width());
            let z = lowered(n, down);
            let r = item(b, nodes, choices, z)?;
            Ok(r)
        }
        Value::Node(_, width) => {
            let bits = bits_of(alloc, b, index)?;
            let r = tree(
                b,
                nodes,
                choices,
                index,
                bits.as_slice(),
                signed,
                down,
                *width,
                0,
            )?;
            Ok(r)
        }
    }
}
