ghost use Rattle.std.specs.Prelude.{◌≡◌, ℕ, ◌+◌, ◌<◌, ◌≤◌, ◌^◌, ◌%◌, true, length, map, take, drop, slice_index, ◌*◌, Bool, IfOk, IsTrue, IsFalse, pos, ◌-ℤ◌};
ghost use Rattle.std.specs.List.{list_all};
ghost use Rattle.lv_bits.specs.Values.{is_unary, is_apart, keeps_width, unary_value, binary_value, extended};
ghost use Rattle.lv_source.specs.Names as names;
ghost use Rattle.lv_source.specs.Names.{size};
ghost use Rattle.lv_source.specs.Values.{size_of, number_of, joined, repeated, widths};
ghost use Rattle.lv_source.specs.Places.{count_of, lowest, bit_selects};
ghost use Rattle.lv_source.specs.Meaning.{Reading};
ghost use Rattle.lv_flat.specs.Signals.{declared_all, signal_at};
ghost use Rattle.lv_flat.specs.Judged.{reading, meaning, is_good};
ghost use Rattle.lv_flat.specs.Cells.{all_cells};
ghost use Rattle.lv_values.specs.Worlds.{World, IsIn, IsKnown, width_of, number, Gives};
ghost use Rattle.lv_values.specs.Picked.{AreChoices, HasElements, AreKnown};
ghost use Rattle.lv_lower_exprs.specs.Reached.{at_width};
ghost use Rattle.lv_lower_exprs.specs.Tables.{IsTable, AreFirsts, Means};
ghost use Rattle.lv_lower_exprs.specs.Named.{bounds_by, chosen_by, name_width, is_good_select, are_good_selects, is_constant_select, are_constant, bits_read, HasElement, name_word, Selects, Stands};

use crate::divide::{quotient, remainder};
use crate::reach::{reach_one, reach_two};
use crate::sizes::{const_width, count, is_clock, literal_width, own, signal_of, signal_width};
use lv_ast::Literal;
use lv_bits::{NoMemory, Op, Word};
use lv_flat::{FlatExpr, FlatSelect, Signal};
use lv_netlist::Builder;
use lv_values::{
    Choices, Number, Value, binary_value, choose, cut, extend, item, join, pick, unary_value, zeros,
};
use sqlite_items::Boxed;
use std::alloc::Global;

/// The operator's value at the width and the sign that reach it.
fn unary_at(b: &mut Builder, op: Op, x: Value, width: u32, reached: bool) -> Result<Value, NoMemory>
    requires unary { IsTrue (is_unary op) }
    requires x_in { IsIn b.old x }
    requires same { IsTrue (keeps_width op) → width_of x ≡ width }
    requires some { 1 ≤ width }
    requires most { width ≤ 128 }
    ensures is { IfOk result (λ r. Gives b.old b.new r width (λ w. at_width op reached width (unary_value op (width_of x) (number w x)))) }
    ensures known { IfOk result (λ r. IsKnown x → IsKnown r) }
{
    let r = unary_value(b, op, x)?;
    if op.keeps_width() {
        return Ok(r);
    }
    let e = extend(b, r, width, reached)?;
    Ok(e)
}

fn binary_at(
    b: &mut Builder,
    op: Op,
    signed: bool,
    x: Value,
    y: Value,
    width: u32,
    reached: bool,
) -> Result<Value, NoMemory>
    requires binary { IsFalse (is_unary op) }
    requires x_in { IsIn b.old x }
    requires y_in { IsIn b.old y }
    requires both { IsFalse (is_apart op) → width_of x ≡ width_of y }
    requires same { IsTrue (keeps_width op) → width_of x ≡ width }
    requires some { 1 ≤ width }
    requires most { width ≤ 128 }
    ensures is { IfOk result (λ r. Gives b.old b.new r width (λ w. at_width op reached width (binary_value op signed (width_of x) (number w x) (number w y)))) }
    ensures known { IfOk result (λ r. IsKnown x → IsKnown y → IsKnown r) }
{
    let r = binary_value(b, op, signed, x, y)?;
    if op.keeps_width() {
        return Ok(r);
    }
    let e = extend(b, r, width, reached)?;
    Ok(e)
}

/// The expression's value at a width and a sign, over a table with a node for each cell (IEEE 1364-2005, 5.4, 5.5).
///
/// `first` has the number of the first cell of each signal, `table` the node of each cell. The width is at least the own one,
/// and at most 128. After `NoMemory` the graph may have more nodes.
#[cycle(lowering)]
pub fn value(
    alloc: Global,
    b: &mut Builder,
    signals: &[Signal],
    first: &[u64],
    table: &[u64],
    e: &FlatExpr,
    width: u32,
    signed: bool,
) -> Result<Value, NoMemory>
    requires good { is_good (declared_all signals.now) e.now ≡ true }
    requires wide { (meaning (declared_all signals.now) e.now).width ≤ width }
    requires most { width ≤ 128 }
    requires first { AreFirsts (declared_all signals.now) first.now }
    requires table { IsTable b.old (all_cells (declared_all signals.now)) table.now }
    ensures is { IfOk result (λ r. Means b.old b.new r (all_cells (declared_all signals.now)) table.now width (λ v. (meaning (declared_all signals.now) e.now).value width signed v)) }
    ensures known { IfOk result (λ r. (reading (declared_all signals.now) e.now).constant ≡ true → IsKnown r) }
{
    match e {
        FlatExpr::Un(op, a) => {
            let a_own = own(signals, a.get());
            let reach = reach_one(*op, width, signed, a_own);
            let x = value(alloc, b, signals, first, table, a.get(), reach.0, reach.1)?;
            let r = unary_at(b, *op, x, width, signed)?;
            Ok(r)
        }
        FlatExpr::Bin(op, x, y) => {
            let x_own = own(signals, x.get());
            let y_own = own(signals, y.get());
            let reach = reach_two(*op, width, signed, x_own, y_own);
            let p = value(
                alloc,
                b,
                signals,
                first,
                table,
                x.get(),
                reach.left,
                reach.left_signed,
            )?;
            let q = value(
                alloc,
                b,
                signals,
                first,
                table,
                y.get(),
                reach.right,
                reach.right_signed,
            )?;
            let r = binary_at(b, *op, reach.signed, p, q, width, signed)?;
            Ok(r)
        }
        FlatExpr::Div(x, y) => {
            let p = value(alloc, b, signals, first, table, x.get(), width, signed)?;
            let q = value(alloc, b, signals, first, table, y.get(), width, signed)?;
            Ok(quotient(signed, p, q))
        }
        FlatExpr::Rem(x, y) => {
            let p = value(alloc, b, signals, first, table, x.get(), width, signed)?;
            let q = value(alloc, b, signals, first, table, y.get(), width, signed)?;
            Ok(remainder(signed, p, q))
        }
        FlatExpr::Cond(c, x, y) => {
            let c_own = own(signals, c.get());
            let t = value(alloc, b, signals, first, table, c.get(), c_own.0, c_own.1)?;
            let p = value(alloc, b, signals, first, table, x.get(), width, signed)?;
            let q = value(alloc, b, signals, first, table, y.get(), width, signed)?;
            let r = choose(b, t, p, q)?;
            Ok(r)
        }
        FlatExpr::Cast(_, a) => {
            let a_own = own(signals, a.get());
            let x = value(alloc, b, signals, first, table, a.get(), a_own.0, a_own.1)?;
            let r = extend(b, x, width, signed)?;
            Ok(r)
        }
        FlatExpr::Lit(l) => {
            let r = literal_at(b, l, width, signed)?;
            Ok(r)
        }
        FlatExpr::Const(c, ss) => {
            let _ = const_width(*c);
            let word = Value::Known(c.word);
            let x = chosen(
                alloc,
                b,
                signals,
                first,
                table,
                word,
                c.left,
                c.right,
                None,
                ss.as_slice(),
            )?;
            let r = extend(b, x, width, signed)?;
            Ok(r)
        }
        FlatExpr::Signal(k, ss) => {
            let signal = signal_of(signals, *k);
            let _ = signal_width(signal);
            let word = name_word(alloc, b, signals, first, table, *k, ss.as_slice())?;
            let x = chosen(
                alloc,
                b,
                signals,
                first,
                table,
                word,
                signal.left,
                signal.right,
                signal.array,
                ss.as_slice(),
            )?;
            let r = extend(b, x, width, signed)?;
            Ok(r)
        }
        FlatExpr::Cat(es) => {
            let x = joined(alloc, b, signals, first, table, es.as_slice())?;
            let r = extend(b, x, width, signed)?;
            Ok(r)
        }
        FlatExpr::Rep(count, es) => {
            let x = joined(alloc, b, signals, first, table, es.as_slice())?;
            let y = repeated(b, *count, &x)?;
            let r = extend(b, y, width, signed)?;
            Ok(r)
        }
    }
}

/// What stands at the number that a select begins with.
#[cycle(lowering)]
pub(crate) fn at_select(
    alloc: Global,
    b: &mut Builder,
    signals: &[Signal],
    first: &[u64],
    table: &[u64],
    nodes: &[u64],
    choices: &Choices,
    s: &FlatSelect,
) -> Result<Value, NoMemory>
    requires good { is_good_select (declared_all signals.now) s.now ≡ true }
    requires some { 1 ≤ count_of (chosen_by (declared_all signals.now) s.now) }
    requires narrow { count_of (chosen_by (declared_all signals.now) s.now) ≤ 128 }
    requires choices { AreChoices b.old nodes.now choices.now }
    requires elements { HasElements nodes.now choices.now }
    requires first { AreFirsts (declared_all signals.now) first.now }
    requires table { IsTable b.old (all_cells (declared_all signals.now)) table.now }
    ensures is { IfOk result (λ r. Stands b.old b.new r (all_cells (declared_all signals.now)) table.now nodes.now choices.now (lowest (chosen_by (declared_all signals.now) s.now))) }
    ensures known { IfOk result (λ r. AreKnown choices.now → is_constant_select (declared_all signals.now) s.now ≡ true → IsKnown r) }
{
    match s {
        FlatSelect::Bit(e) => {
            let r = at_index(alloc, b, signals, first, table, nodes, choices, e, 0)?;
            Ok(r)
        }
        FlatSelect::Part(left, right) => {
            let low = (*left).min(*right);
            let r = item(b, nodes, choices, Number::Above(u128::from(low)))?;
            Ok(r)
        }
        FlatSelect::Up(e, _) => {
            let r = at_index(alloc, b, signals, first, table, nodes, choices, e, 0)?;
            Ok(r)
        }
        FlatSelect::Down(e, count) => {
            let r = at_index(
                alloc,
                b,
                signals,
                first,
                table,
                nodes,
                choices,
                e,
                *count - 1,
            )?;
            Ok(r)
        }
    }
}

/// What stands at the number of an index, lower by `down`.
#[cycle(lowering)]
fn at_index(
    alloc: Global,
    b: &mut Builder,
    signals: &[Signal],
    first: &[u64],
    table: &[u64],
    nodes: &[u64],
    choices: &Choices,
    e: &Boxed<FlatExpr>,
    down: u32,
) -> Result<Value, NoMemory>
    requires good { is_good (declared_all signals.now) e.now ≡ true }
    requires near { down ≤ 128 }
    requires choices { AreChoices b.old nodes.now choices.now }
    requires elements { HasElements nodes.now choices.now }
    requires first { AreFirsts (declared_all signals.now) first.now }
    requires table { IsTable b.old (all_cells (declared_all signals.now)) table.now }
    ensures is { IfOk result (λ r. Stands b.old b.new r (all_cells (declared_all signals.now)) table.now nodes.now choices.now (λ v. number_of (meaning (declared_all signals.now) e.now) v -ℤ pos down)) }
    ensures known { IfOk result (λ r. AreKnown choices.now → (reading (declared_all signals.now) e.now).constant ≡ true → IsKnown r) }
{
    let of = own(signals, e.get());
    let x = value(alloc, b, signals, first, table, e.get(), of.0, of.1)?;
    let r = pick(alloc, b, nodes, choices, &x, of.1, down)?;
    Ok(r)
}

/// The bits of a word that a select names, as choices by a number.
fn reads(signals: &[Signal], word: Value, left: u32, right: u32, s: &FlatSelect) -> Choices
    requires { count_of (chosen_by (declared_all signals.now) s.now) ≤ 128 }
    ensures { result ≡ Choices.Read word left right (count_of (chosen_by (declared_all signals.now) s.now)) }
{
    Choices::Read(word, left, right, count(signals, s))
}

/// The bits that the selects name of a word, without that of an element.
#[cycle(lowering)]
fn chosen(
    alloc: Global,
    b: &mut Builder,
    signals: &[Signal],
    first: &[u64],
    table: &[u64],
    word: Value,
    left: u32,
    right: u32,
    array: Option<(u32, u32)>,
    ss: &[FlatSelect],
) -> Result<Value, NoMemory>
    requires good { are_good_selects (declared_all signals.now) ss.now ≡ true }
    requires some { 1 ≤ name_width (declared_all signals.now) (size (record { left = left; right = right })) (bit_selects (bounds_by array) ss.now) }
    requires narrow { name_width (declared_all signals.now) (size (record { left = left; right = right })) (bit_selects (bounds_by array) ss.now) ≤ 128 }
    requires word_in { IsIn b.old word }
    requires width { width_of word ≡ size (record { left = left; right = right }) }
    requires most { width_of word ≤ 128 }
    requires first { AreFirsts (declared_all signals.now) first.now }
    requires table { IsTable b.old (all_cells (declared_all signals.now)) table.now }
    ensures is { IfOk result (λ r. Selects b.old b.new word r (all_cells (declared_all signals.now)) table.now (name_width (declared_all signals.now) (size (record { left = left; right = right })) (bit_selects (bounds_by array) ss.now)) (λ x v. bits_read (record { left = left; right = right }) (map (chosen_by (declared_all signals.now)) (bit_selects (bounds_by array) ss.now)) x v)) }
    ensures known { IfOk result (λ r. IsKnown word → are_constant (declared_all signals.now) ss.now ≡ true → IsKnown r) }
{
    match array {
        None => {
            match ss {
                [] => Ok(word),
                [s, ..] => {
                    let choices = reads(signals, word, left, right, s);
                    let r = at_select(alloc, b, signals, first, table, &[], &choices, s)?;
                    Ok(r)
                }
            }
        }
        Some(_) => {
            match ss {
                [_, s, ..] => {
                    let choices = reads(signals, word, left, right, s);
                    let r = at_select(alloc, b, signals, first, table, &[], &choices, s)?;
                    Ok(r)
                }
                _ => Ok(word),
            }
        }
    }
}

/// The word in which a name with these selects stands.
#[cycle(lowering)]
fn name_word(
    alloc: Global,
    b: &mut Builder,
    signals: &[Signal],
    first: &[u64],
    table: &[u64],
    k: u64,
    ss: &[FlatSelect],
) -> Result<Value, NoMemory>
    requires signal { k < length signals.now }
    requires shaped { HasElement (declared_all signals.now) (signal_at (declared_all signals.now) k).array ss.now }
    requires good { are_good_selects (declared_all signals.now) ss.now ≡ true }
    requires first { AreFirsts (declared_all signals.now) first.now }
    requires table { IsTable b.old (all_cells (declared_all signals.now)) table.now }
    ensures { IfOk result (λ r. Means b.old b.new r (all_cells (declared_all signals.now)) table.now (names.width_of (signal_at (declared_all signals.now) k)) (λ v. name_word (signal_at (declared_all signals.now) k) (map (chosen_by (declared_all signals.now)) ss.now) v)) }
{
    let signal = signal_of(signals, k);
    let width = signal_width(signal);
    if is_clock(signal) {
        return Ok(zeros(width));
    }
    let at = number_at(first, k);
    match signal.array {
        None => Ok(Value::Node(number_at(table, at), width)),
        Some((left, right)) => {
            match ss {
                [] => Ok(zeros(width)),
                [s, ..] => {
                    let nodes = elements_of(table, at, left, right);
                    let low = left.min(right);
                    let _ = left.max(right);
                    let choices = Choices::Elements(low, width);
                    let r = at_select(alloc, b, signals, first, table, nodes, &choices, s)?;
                    Ok(r)
                }
            }
        }
    }
}

/// The values of expressions at their own widths, the leftmost highest.
#[cycle(lowering)]
fn joined(
    alloc: Global,
    b: &mut Builder,
    signals: &[Signal],
    first: &[u64],
    table: &[u64],
    es: &[FlatExpr],
) -> Result<Value, NoMemory>
    requires good { list_all (λ (x : Bool). x) (map (is_good (declared_all signals.now)) es.now) ≡ true }
    requires some { 1 ≤ widths (map (meaning (declared_all signals.now)) es.now) }
    requires most { widths (map (meaning (declared_all signals.now)) es.now) ≤ 128 }
    requires first { AreFirsts (declared_all signals.now) first.now }
    requires table { IsTable b.old (all_cells (declared_all signals.now)) table.now }
    ensures is { IfOk result (λ r. Means b.old b.new r (all_cells (declared_all signals.now)) table.now (widths (map (meaning (declared_all signals.now)) es.now)) (λ v. joined v (map (meaning (declared_all signals.now)) es.now))) }
    ensures known { IfOk result (λ r. list_all (λ (x : Reading). x.constant) (map (reading (declared_all signals.now)) es.now) ≡ true → IsKnown r) }
{
    let of = own(signals, &es[0]);
    let head = value(alloc, b, signals, first, table, &es[0], of.0, of.1)?;
    let mut acc = head;
    let mut i = 1;
    while i < es.len() {
        let e = &es[i];
        let e_own = own(signals, e);
        let x = value(alloc, b, signals, first, table, e, e_own.0, e_own.1)?;
        acc = join(b, acc, x)?;
        i += 1;
    }
    Ok(acc)
}

/// The number at a place of a list.
pub fn number_at(list: &[u64], k: u64) -> u64
    requires { k < length list.now }
    ensures { result ≡ slice_index list.now k }
{
    list[k as usize]
}

/// The low bits of a number, at a width and a sign.
fn word_at(b: &mut Builder, x: u128, of: u32, width: u32, signed: bool) -> Result<Value, NoMemory>
    requires some { 1 ≤ of }
    requires wide { of ≤ width }
    requires most { width ≤ 128 }
    ensures is { IfOk result (λ r. Gives b.old b.new r width (λ w. extended signed of width (x % 2 ^ of))) }
    ensures known { IfOk result (λ r. IsKnown r) }
{
    let word = Value::Known(Word::new(128, x));
    let low = cut(b, word, 0, of)?;
    let r = extend(b, low, width, signed)?;
    Ok(r)
}

/// A literal's value at a width and a sign.
fn literal_at(b: &mut Builder, l: &Literal, width: u32, signed: bool) -> Result<Value, NoMemory>
    requires some { 1 ≤ size_of l.now.size }
    requires wide { size_of l.now.size ≤ width }
    requires most { width ≤ 128 }
    ensures is { IfOk result (λ r. Gives b.old b.new r width (λ w. extended signed (size_of l.now.size) width (l.now.value % 2 ^ size_of l.now.size))) }
    ensures known { IfOk result (λ r. IsKnown r) }
{
    let of = literal_width(l);
    let r = word_at(b, l.value, of, width, signed)?;
    Ok(r)
}

/// The nodes of an array's elements.
fn elements_of(table: &[u64], at: u64, left: u32, right: u32) -> &[u64]
    requires { at + size (record { left = left; right = right }) ≤ length table.now }
    ensures { result.now ≡ take (size (record { left = left; right = right })) (drop at table.now) }
{
    let count = u64::from(left.max(right)) - u64::from(left.min(right)) + 1;
    let end = at + count;
    &table[at as usize..end as usize]
}

/// So many copies of a value, one above the other.
fn repeated(b: &mut Builder, count: u32, x: &Value) -> Result<Value, NoMemory>
    requires x_in { IsIn b.old x.now }
    requires some { 1 ≤ count }
    requires any { 1 ≤ width_of x.now }
    requires most { count * width_of x.now ≤ 128 }
    ensures is { IfOk result (λ r. Gives b.old b.new r (count * width_of x.now) (λ w. repeated count (width_of x.now) (number w x.now))) }
    ensures known { IfOk result (λ r. IsKnown x.now → IsKnown r) }
{
    let mut acc = x.same();
    let mut i = 1u32;
    while i < count {
        acc = join(b, acc, x.same())?;
        i += 1;
    }
    Ok(acc)
}
