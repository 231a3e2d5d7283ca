ghost use Rattle.std.specs.Prelude.{true, false, not, ◌&&◌, ◌-◌, ◌≡◌, ℕ, ◌<◌, ◌≤◌, Bool, [], ◌∷◌, length, IfOk, IsTrue, IsFalse, ◌==◌, ◌+◌, ◌*◌, ◌/◌, ◌%◌, ◌^◌, nat_lt, if◌then◌else◌};
ghost use Rattle.lv_bits.specs.Words.{Bits};
ghost use Rattle.lv_bits.specs.Values.{bit, unary_of, binary_of, is_less, is_unary, is_apart, extended};
ghost use Rattle.lv_aig.specs.Edges.{Gives, IsValuation, edge_bit};
ghost use Rattle.lv_circuits.specs.Rows.{IsEven, IsApart};
ghost use Rattle.lv_circuits.specs.Words.{AllBelow, AreEven, GivesBits, GivesWord, word_of, edge_bits, kind_bit};
ghost use Rattle.lv_bits.specs.Digits.{number};

use crate::gates::{Kind, gate, mux};
use crate::product::product;
use crate::shifts::{Way, copies, shift};
use crate::words::{add, carry, choose, edge, fold, negate, zip};
use lv_aig::{And, Edge};
use lv_bits::{NoMemory, Op, Word};
use sqlite_items::Items;
use std::alloc::Global;

fn single(alloc: Global, e: Edge) -> Result<Items<Edge>, NoMemory>
    ensures { IfOk result (λ es. es ≡ e ∷ []) }
{
    let mut es = Items::new(alloc);
    es.push(e)?;
    Ok(es)
}

fn not_word(alloc: Global, and: &mut And, a: &[Edge]) -> Result<Items<Edge>, NoMemory>
    requires { AllBelow (length and.old) a.now }
    ensures { IfOk result (λ es. GivesWord and.old and.new es (λ values. unary_of Op.Not (word_of values a.now))) }
{
    let es = negate(alloc, and, a)?;
    Ok(es)
}

fn log_not(alloc: Global, and: &mut And, a: &[Edge]) -> Result<Items<Edge>, NoMemory>
    requires { AllBelow (length and.old) a.now }
    ensures { IfOk result (λ es. GivesWord and.old and.new es (λ values. unary_of Op.LogNot (word_of values a.now))) }
{
    let any = fold(and, Kind::Either, a)?;
    let e = and.not(any);
    let es = single(alloc, e)?;
    Ok(es)
}

fn red_or(alloc: Global, and: &mut And, a: &[Edge]) -> Result<Items<Edge>, NoMemory>
    requires { AllBelow (length and.old) a.now }
    ensures { IfOk result (λ es. GivesWord and.old and.new es (λ values. unary_of Op.RedOr (word_of values a.now))) }
{
    let e = fold(and, Kind::Either, a)?;
    let es = single(alloc, e)?;
    Ok(es)
}

fn red_xor(alloc: Global, and: &mut And, a: &[Edge]) -> Result<Items<Edge>, NoMemory>
    requires { AllBelow (length and.old) a.now }
    ensures { IfOk result (λ es. GivesWord and.old and.new es (λ values. unary_of Op.RedXor (word_of values a.now))) }
{
    let e = fold(and, Kind::Differ, a)?;
    let es = single(alloc, e)?;
    Ok(es)
}

fn red_and(alloc: Global, and: &mut And, a: &[Edge]) -> Result<Items<Edge>, NoMemory>
    requires { AllBelow (length and.old) a.now }
    ensures { IfOk result (λ es. GivesWord and.old and.new es (λ values. unary_of Op.RedAnd (word_of values a.now))) }
{
    let turned = negate(alloc, and, a)?;
    let any = fold(and, Kind::Either, turned.as_slice())?;
    let e = and.not(any);
    let es = single(alloc, e)?;
    Ok(es)
}

fn and_word(alloc: Global, and: &mut And, a: &[Edge], b: &[Edge]) -> Result<Items<Edge>, NoMemory>
    requires { AreEven (length and.old) a.now b.now }
    ensures { (signed : Bool) → IfOk result (λ es. GivesWord and.old and.new es (λ values. binary_of Op.And signed (word_of values a.now) (word_of values b.now))) }
{
    let es = zip(alloc, and, Kind::Both, a, b)?;
    Ok(es)
}

fn or_word(alloc: Global, and: &mut And, a: &[Edge], b: &[Edge]) -> Result<Items<Edge>, NoMemory>
    requires { AreEven (length and.old) a.now b.now }
    ensures { (signed : Bool) → IfOk result (λ es. GivesWord and.old and.new es (λ values. binary_of Op.Or signed (word_of values a.now) (word_of values b.now))) }
{
    let es = zip(alloc, and, Kind::Either, a, b)?;
    Ok(es)
}

fn xor_word(alloc: Global, and: &mut And, a: &[Edge], b: &[Edge]) -> Result<Items<Edge>, NoMemory>
    requires { AreEven (length and.old) a.now b.now }
    ensures { (signed : Bool) → IfOk result (λ es. GivesWord and.old and.new es (λ values. binary_of Op.Xor signed (word_of values a.now) (word_of values b.now))) }
{
    let es = zip(alloc, and, Kind::Differ, a, b)?;
    Ok(es)
}

fn xnor_word(alloc: Global, and: &mut And, a: &[Edge], b: &[Edge]) -> Result<Items<Edge>, NoMemory>
    requires { AreEven (length and.old) a.now b.now }
    ensures { (signed : Bool) → IfOk result (λ es. GivesWord and.old and.new es (λ values. binary_of Op.Xnor signed (word_of values a.now) (word_of values b.now))) }
{
    let differ = zip(alloc, and, Kind::Differ, a, b)?;
    let es = negate(alloc, and, differ.as_slice())?;
    Ok(es)
}

fn add_word(alloc: Global, and: &mut And, a: &[Edge], b: &[Edge]) -> Result<Items<Edge>, NoMemory>
    requires { AreEven (length and.old) a.now b.now }
    ensures { (signed : Bool) → IfOk result (λ es. GivesWord and.old and.new es (λ values. binary_of Op.Add signed (word_of values a.now) (word_of values b.now))) }
{
    let zero = and.zero();
    let sum = add(alloc, and, a, b, zero)?;
    Ok(sum.bits)
}

fn sub_word(alloc: Global, and: &mut And, a: &[Edge], b: &[Edge]) -> Result<Items<Edge>, NoMemory>
    requires { AreEven (length and.old) a.now b.now }
    ensures { (signed : Bool) → IfOk result (λ es. GivesWord and.old and.new es (λ values. binary_of Op.Sub signed (word_of values a.now) (word_of values b.now))) }
{
    let turned = negate(alloc, and, b)?;
    let one = and.not(and.zero());
    let sum = add(alloc, and, a, turned.as_slice(), one)?;
    Ok(sum.bits)
}

fn equal(alloc: Global, and: &mut And, a: &[Edge], b: &[Edge]) -> Result<Items<Edge>, NoMemory>
    requires { AreEven (length and.old) a.now b.now }
    ensures { (signed : Bool) → IfOk result (λ es. GivesWord and.old and.new es (λ values. binary_of Op.Eq signed (word_of values a.now) (word_of values b.now))) }
{
    let differ = zip(alloc, and, Kind::Differ, a, b)?;
    let any = fold(and, Kind::Either, differ.as_slice())?;
    let e = and.not(any);
    let es = single(alloc, e)?;
    Ok(es)
}

fn unequal(alloc: Global, and: &mut And, a: &[Edge], b: &[Edge]) -> Result<Items<Edge>, NoMemory>
    requires { AreEven (length and.old) a.now b.now }
    ensures { (signed : Bool) → IfOk result (λ es. GivesWord and.old and.new es (λ values. binary_of Op.Ne signed (word_of values a.now) (word_of values b.now))) }
{
    let differ = zip(alloc, and, Kind::Differ, a, b)?;
    let e = fold(and, Kind::Either, differ.as_slice())?;
    let es = single(alloc, e)?;
    Ok(es)
}

/// The word `a` where `c` is not 0, else `b`.
pub fn mux_word(
    alloc: Global,
    and: &mut And,
    c: &[Edge],
    a: &[Edge],
    b: &[Edge],
) -> Result<Items<Edge>, NoMemory>
    requires c { AllBelow (length and.old) c.now }
    requires a { AllBelow (length and.old) a.now }
    requires b { AllBelow (length and.old) b.now }
    requires same { length a.now ≡ length b.now }
    ensures { IfOk result (λ es. GivesWord and.old and.new es (λ values. let k : Bits = word_of values c.now in if k.value == 0 then word_of values b.now else word_of values a.now)) }
{
    let some = fold(and, Kind::Either, c)?;
    let es = choose(alloc, and, some, a, b)?;
    Ok(es)
}

/// Whether `a` is below `b`, without sign.
fn below(alloc: Global, and: &mut And, a: &[Edge], b: &[Edge]) -> Result<Edge, NoMemory>
    requires { AreEven (length and.old) a.now b.now }
    ensures { IfOk result (λ e. Gives and.old and.new e (λ values. nat_lt (number (edge_bits values a.now)) (number (edge_bits values b.now)))) }
{
    let turned = negate(alloc, and, b)?;
    let one = and.not(and.zero());
    let over = carry(and, a, turned.as_slice(), one)?;
    Ok(and.not(over))
}

/// Whether `a` is below `b`.
fn less(
    alloc: Global,
    and: &mut And,
    signed: bool,
    a: &[Edge],
    b: &[Edge],
) -> Result<Edge, NoMemory>
    requires { AreEven (length and.old) a.now b.now }
    ensures { IfOk result (λ e. Gives and.old and.new e (λ values. is_less signed (length a.now) (number (edge_bits values a.now)) (number (edge_bits values b.now)))) }
{
    let plain = below(alloc, and, a, b)?;
    if !signed {
        return Ok(plain);
    }
    let x = edge(a, a.len() - 1);
    let y = edge(b, a.len() - 1);
    let apart = gate(and, Kind::Differ, x, y)?;
    let e = mux(and, apart, x, plain)?;
    Ok(e)
}

fn is_below(
    alloc: Global,
    and: &mut And,
    signed: bool,
    a: &[Edge],
    b: &[Edge],
) -> Result<Items<Edge>, NoMemory>
    requires { AreEven (length and.old) a.now b.now }
    ensures { IfOk result (λ es. GivesWord and.old and.new es (λ values. binary_of Op.Lt signed (word_of values a.now) (word_of values b.now))) }
{
    let less = less(alloc, and, signed, a, b)?;
    let es = single(alloc, less)?;
    Ok(es)
}

fn is_above(
    alloc: Global,
    and: &mut And,
    signed: bool,
    a: &[Edge],
    b: &[Edge],
) -> Result<Items<Edge>, NoMemory>
    requires { AreEven (length and.old) a.now b.now }
    ensures { IfOk result (λ es. GivesWord and.old and.new es (λ values. binary_of Op.Gt signed (word_of values a.now) (word_of values b.now))) }
{
    let less = less(alloc, and, signed, b, a)?;
    let es = single(alloc, less)?;
    Ok(es)
}

fn at_most(
    alloc: Global,
    and: &mut And,
    signed: bool,
    a: &[Edge],
    b: &[Edge],
) -> Result<Items<Edge>, NoMemory>
    requires { AreEven (length and.old) a.now b.now }
    ensures { IfOk result (λ es. GivesWord and.old and.new es (λ values. binary_of Op.Le signed (word_of values a.now) (word_of values b.now))) }
{
    let less = less(alloc, and, signed, b, a)?;
    let e = and.not(less);
    let es = single(alloc, e)?;
    Ok(es)
}

fn at_least(
    alloc: Global,
    and: &mut And,
    signed: bool,
    a: &[Edge],
    b: &[Edge],
) -> Result<Items<Edge>, NoMemory>
    requires { AreEven (length and.old) a.now b.now }
    ensures { IfOk result (λ es. GivesWord and.old and.new es (λ values. binary_of Op.Ge signed (word_of values a.now) (word_of values b.now))) }
{
    let less = less(alloc, and, signed, a, b)?;
    let e = and.not(less);
    let es = single(alloc, e)?;
    Ok(es)
}

/// The `width` bits from `low` on.
pub fn slice(
    alloc: Global,
    and: &And,
    a: &[Edge],
    low: usize,
    width: usize,
) -> Result<Items<Edge>, NoMemory>
    requires a { AllBelow (length and.now) a.now }
    requires inside { low + width ≤ length a.now }
    ensures { IfOk result (λ es. GivesWord and.now and.now es (λ values. let w : Bits = word_of values a.now in record { width = width; value = w.value / 2 ^ low % 2 ^ width })) }
{
    let es = Items::from_slice(alloc, &a[low..low + width])?;
    Ok(es)
}

/// The bits of `a` above those of `b`.
pub fn concat(alloc: Global, and: &And, a: &[Edge], b: &[Edge]) -> Result<Items<Edge>, NoMemory>
    requires a { AllBelow (length and.now) a.now }
    requires b { AllBelow (length and.now) b.now }
    ensures { IfOk result (λ es. GivesWord and.now and.now es (λ values. let x : Bits = word_of values a.now in let y : Bits = word_of values b.now in record { width = x.width + y.width; value = x.value * 2 ^ y.width + y.value })) }
{
    let mut es = Items::from_slice(alloc, b)?;
    let high = Items::from_slice(alloc, a)?;
    es.append(high)?;
    Ok(es)
}

fn neg_word(alloc: Global, and: &mut And, a: &[Edge]) -> Result<Items<Edge>, NoMemory>
    requires { AllBelow (length and.old) a.now }
    ensures { IfOk result (λ es. GivesWord and.old and.new es (λ values. unary_of Op.Neg (word_of values a.now))) }
{
    let turned = negate(alloc, and, a)?;
    let zero = and.zero();
    let zeros = copies(alloc, zero, a.len())?;
    let one = and.not(zero);
    let sum = add(alloc, and, turned.as_slice(), zeros.as_slice(), one)?;
    Ok(sum.bits)
}

fn logic(
    alloc: Global,
    and: &mut And,
    kind: Kind,
    a: &[Edge],
    b: &[Edge],
) -> Result<Items<Edge>, NoMemory>
    requires a { AllBelow (length and.old) a.now }
    requires b { AllBelow (length and.old) b.now }
    ensures { IfOk result (λ es. GivesWord and.old and.new es (λ values. record { width = 1; value = bit (kind_bit kind (not (number (edge_bits values a.now) == 0)) (not (number (edge_bits values b.now) == 0))) })) }
{
    let x = fold(and, Kind::Either, a)?;
    let y = fold(and, Kind::Either, b)?;
    let e = gate(and, kind, x, y)?;
    let es = single(alloc, e)?;
    Ok(es)
}

fn mul_word(alloc: Global, and: &mut And, a: &[Edge], b: &[Edge]) -> Result<Items<Edge>, NoMemory>
    requires { AreEven (length and.old) a.now b.now }
    ensures { (signed : Bool) → IfOk result (λ es. GivesWord and.old and.new es (λ values. binary_of Op.Mul signed (word_of values a.now) (word_of values b.now))) }
{
    let es = product(alloc, and, a, b)?;
    Ok(es)
}

// The edge that fills in above a word: its top bit where it is signed, else 0.
fn fill_of(and: &And, signed: bool, a: &[Edge]) -> Edge
    requires a { AllBelow (length and.now) a.now }
    requires some { 0 < length a.now }
    ensures within { result.node < length and.now }
    ensures is { (values : ℕ → Bool) → IsValuation and.now values → edge_bit values result ≡ (signed && not (nat_lt (number (edge_bits values a.now)) (2 ^ (length a.now - 1)))) }
{
    if signed {
        edge(a, a.len() - 1)
    } else {
        and.zero()
    }
}

fn shl_word(alloc: Global, and: &mut And, a: &[Edge], b: &[Edge]) -> Result<Items<Edge>, NoMemory>
    requires a { AllBelow (length and.old) a.now }
    requires b { AllBelow (length and.old) b.now }
    requires width { length a.now ≤ 128 }
    ensures { (signed : Bool) → IfOk result (λ es. GivesWord and.old and.new es (λ values. binary_of Op.Shl signed (word_of values a.now) (word_of values b.now))) }
{
    let zero = and.zero();
    let es = shift(alloc, and, Way::Left, zero, a, b)?;
    Ok(es)
}

fn shr_word(alloc: Global, and: &mut And, a: &[Edge], b: &[Edge]) -> Result<Items<Edge>, NoMemory>
    requires a { AllBelow (length and.old) a.now }
    requires b { AllBelow (length and.old) b.now }
    requires width { length a.now ≤ 128 }
    ensures { (signed : Bool) → IfOk result (λ es. GivesWord and.old and.new es (λ values. binary_of Op.Shr signed (word_of values a.now) (word_of values b.now))) }
{
    let zero = and.zero();
    let es = shift(alloc, and, Way::Right, zero, a, b)?;
    Ok(es)
}

fn sar_word(
    alloc: Global,
    and: &mut And,
    signed: bool,
    a: &[Edge],
    b: &[Edge],
) -> Result<Items<Edge>, NoMemory>
    requires a { AllBelow (length and.old) a.now }
    requires b { AllBelow (length and.old) b.now }
    requires some { 0 < length a.now }
    requires width { length a.now ≤ 128 }
    ensures { IfOk result (λ es. GivesWord and.old and.new es (λ values. binary_of Op.Sar signed (word_of values a.now) (word_of values b.now))) }
{
    let fill = fill_of(and, signed, a);
    let es = shift(alloc, and, Way::Right, fill, a, b)?;
    Ok(es)
}

/// The word at a greater width, filled with its top bit where it is signed, else with zeros.
pub fn extend(
    alloc: Global,
    and: &And,
    a: &[Edge],
    width: usize,
    signed: bool,
) -> Result<Items<Edge>, NoMemory>
    requires a { AllBelow (length and.now) a.now }
    requires some { 0 < length a.now }
    requires wide { length a.now ≤ width }
    ensures { IfOk result (λ es. GivesWord and.now and.now es (λ values. let w : Bits = word_of values a.now in record { width = width; value = extended signed w.width width w.value })) }
{
    let fill = fill_of(and, signed, a);
    let high = copies(alloc, fill, width - a.len())?;
    let mut es = Items::from_slice(alloc, a)?;
    es.append(high)?;
    Ok(es)
}

// The edge whose value is always this bit.
fn digit(and: &And, set: bool) -> Edge
    ensures within { result.node < length and.now }
    ensures is { (values : ℕ → Bool) → IsValuation and.now values → edge_bit values result ≡ set }
{
    let zero = and.zero();
    if set { and.not(zero) } else { zero }
}

/// The word of a constant.
pub fn constant(alloc: Global, and: &And, word: Word) -> Result<Items<Edge>, NoMemory>
    ensures { IfOk result (λ es. GivesWord and.now and.now es (λ values. word)) }
{
    let mut out = Items::new(alloc);
    let mut rest = word.value();
    for _ in 0..word.width() {
        let set = rest % 2 == 1;
        let e = digit(and, set);
        out.push(e)?;
        rest /= 2;
    }
    Ok(out)
}

/// The circuit of an operator with one operand.
pub fn unary(alloc: Global, and: &mut And, op: Op, a: &[Edge]) -> Result<Items<Edge>, NoMemory>
    requires one { is_unary op ≡ true }
    requires a { AllBelow (length and.old) a.now }
    ensures { IfOk result (λ es. GivesWord and.old and.new es (λ values. unary_of op (word_of values a.now))) }
{
    match op {
        Op::Neg => neg_word(alloc, and, a),
        Op::Not => not_word(alloc, and, a),
        Op::LogNot => log_not(alloc, and, a),
        Op::RedAnd => red_and(alloc, and, a),
        Op::RedOr => red_or(alloc, and, a),
        Op::RedXor => red_xor(alloc, and, a),
        _ => unreachable!(),
    }
}

// An operator whose operands have one width.
fn even(
    alloc: Global,
    and: &mut And,
    op: Op,
    signed: bool,
    a: &[Edge],
    b: &[Edge],
) -> Result<Items<Edge>, NoMemory>
    requires even { IsEven op }
    requires words { AreEven (length and.old) a.now b.now }
    ensures { IfOk result (λ es. GivesWord and.old and.new es (λ values. binary_of op signed (word_of values a.now) (word_of values b.now))) }
{
    match op {
        Op::And => and_word(alloc, and, a, b),
        Op::Or => or_word(alloc, and, a, b),
        Op::Xor => xor_word(alloc, and, a, b),
        Op::Xnor => xnor_word(alloc, and, a, b),
        Op::Add => add_word(alloc, and, a, b),
        Op::Sub => sub_word(alloc, and, a, b),
        Op::Mul => mul_word(alloc, and, a, b),
        Op::Eq => equal(alloc, and, a, b),
        Op::Ne => unequal(alloc, and, a, b),
        Op::Lt => is_below(alloc, and, signed, a, b),
        Op::Le => at_most(alloc, and, signed, a, b),
        Op::Gt => is_above(alloc, and, signed, a, b),
        Op::Ge => at_least(alloc, and, signed, a, b),
        _ => unreachable!(),
    }
}

// An operator whose operands have widths of their own.
fn apart(
    alloc: Global,
    and: &mut And,
    op: Op,
    signed: bool,
    a: &[Edge],
    b: &[Edge],
) -> Result<Items<Edge>, NoMemory>
    requires apart { IsApart op }
    requires a { AllBelow (length and.old) a.now }
    requires b { AllBelow (length and.old) b.now }
    requires some { 0 < length a.now }
    requires width { length a.now ≤ 128 }
    ensures { IfOk result (λ es. GivesWord and.old and.new es (λ values. binary_of op signed (word_of values a.now) (word_of values b.now))) }
{
    match op {
        Op::Shl => shl_word(alloc, and, a, b),
        Op::Shr => shr_word(alloc, and, a, b),
        Op::Sar => sar_word(alloc, and, signed, a, b),
        Op::LogAnd => logic(alloc, and, Kind::Both, a, b),
        Op::LogOr => logic(alloc, and, Kind::Either, a, b),
        _ => unreachable!(),
    }
}

fn is_apart(op: Op) -> bool
    ensures { result ≡ is_apart op }
{
    matches!(op, Op::Shl | Op::Shr | Op::Sar | Op::LogAnd | Op::LogOr)
}

/// The circuit of an operator with two operands.
pub fn binary(
    alloc: Global,
    and: &mut And,
    op: Op,
    signed: bool,
    a: &[Edge],
    b: &[Edge],
) -> Result<Items<Edge>, NoMemory>
    requires two { is_unary op ≡ false }
    requires a { AllBelow (length and.old) a.now }
    requires b { AllBelow (length and.old) b.now }
    requires same { is_apart op ≡ false → length a.now ≡ length b.now }
    requires some { 0 < length a.now }
    requires width { length a.now ≤ 128 }
    ensures { IfOk result (λ es. GivesWord and.old and.new es (λ values. binary_of op signed (word_of values a.now) (word_of values b.now))) }
{
    if is_apart(op) {
        apart(alloc, and, op, signed, a, b)
    } else {
        even(alloc, and, op, signed, a, b)
    }
}
