ghost use Rattle.std.specs.Prelude.{◌≡◌, ◌<◌, ◌≤◌, ◌^◌, ◌&&◌, Bool, true, length, map, Some, None};
ghost use Rattle.std.specs.List.{list_all};
ghost use Rattle.lv_source.specs.Names.{size, is_clock_sort};
ghost use Rattle.lv_source.specs.Values.{size_of, widths};
ghost use Rattle.lv_source.specs.Places.{count_of, bit_selects};
ghost use Rattle.lv_source.specs.Meaning.{meant, is_nil};
ghost use Rattle.lv_flat.specs.Signals.{declared, declared_all, signal_at};
ghost use Rattle.lv_flat.specs.Judged.{meaning, is_good, judge_select};
ghost use Rattle.lv_lower_exprs.specs.Named.{name_width, bounds_by};

use crate::reach::{binary_own, unary_own};
use lv_ast::Literal;
use lv_const::Const;
use lv_flat::{FlatExpr, FlatSelect, Signal, Sort};

/// How many numbers lie between two bounds.
pub(crate) fn span(left: u32, right: u32) -> u32
    requires { size (record { left = left; right = right }) ≤ 128 }
    ensures { result ≡ size (record { left = left; right = right }) }
{
    left.max(right) - left.min(right) + 1
}

/// The signal with this number.
pub fn signal_of(signals: &[Signal], k: u64) -> &Signal
    requires { k < length signals.now }
    ensures { signal_at (declared_all signals.now) k ≡ declared result.now }
{
    &signals[k as usize]
}

/// The width of a literal.
pub(crate) fn literal_width(l: &Literal) -> u32
    requires { size_of l.now.size ≤ 128 }
    ensures { result ≡ size_of l.now.size }
{
    match l.size {
        None => 32u32,
        Some(size) => size as u32,
    }
}

/// How many bits a select names.
pub fn count(signals: &[Signal], s: &FlatSelect) -> u32
    requires { count_of (meant (judge_select (declared_all signals.now) s.now).choice) ≤ 128 }
    ensures { result ≡ count_of (meant (judge_select (declared_all signals.now) s.now).choice) }
{
    match s {
        FlatSelect::Bit(_) => 1,
        FlatSelect::Part(left, right) => span(*left, *right),
        FlatSelect::Up(_, width) => *width,
        FlatSelect::Down(_, width) => *width,
    }
}

/// The selects of bits, without that of an element.
pub(crate) fn bit_selects(array: Option<(u32, u32)>, ss: &[FlatSelect]) -> &[FlatSelect]
    ensures { result.now ≡ bit_selects (bounds_by array) ss.now }
{
    match array {
        None => ss,
        Some(_) => {
            match ss {
                [] => ss,
                [_, rest @ ..] => rest,
            }
        }
    }
}

/// The width of a name of so many bits with these selects of bits.
fn name_width(signals: &[Signal], width: u32, ss: &[FlatSelect]) -> u32
    requires { name_width (declared_all signals.now) width ss.now ≤ 128 }
    ensures { result ≡ name_width (declared_all signals.now) width ss.now }
{
    match ss {
        [] => width,
        [s, ..] => count(signals, s),
    }
}

/// Whether a name with these selects of bits is signed.
fn name_signed(signed: bool, ss: &[FlatSelect]) -> bool
    ensures { result ≡ (is_nil ss.now && signed) }
{
    ss.is_empty() && signed
}

/// The width of a constant.
pub(crate) fn const_width(c: Const) -> u32
    ensures is { result ≡ size (record { left = c.left; right = c.right }) }
    ensures word { result ≡ c.word.width }
    ensures fits { c.word.value < 2 ^ result }
    ensures some { 1 ≤ result }
    ensures most { result ≤ 128 }
{
    let _ = c.word.value();
    c.word.width()
}

/// The width of a signal.
pub fn signal_width(s: &Signal) -> u32
    ensures is { result ≡ size (record { left = s.now.left; right = s.now.right }) }
    ensures some { 1 ≤ result }
    ensures most { result ≤ 128 }
{
    s.width
}

/// Whether the signal is a clock.
pub fn is_clock(s: &Signal) -> bool
    ensures { result ≡ is_clock_sort (declared s.now).sort }
{
    matches!(s.sort, Sort::Clock)
}

/// The own width and the own sign of an expression.
#[cycle(own)]
pub fn own(signals: &[Signal], e: &FlatExpr) -> (u32, bool)
    requires { is_good (declared_all signals.now) e.now ≡ true }
    ensures { result ≡ ((meaning (declared_all signals.now) e.now).width, (meaning (declared_all signals.now) e.now).signed) }
{
    match e {
        FlatExpr::Lit(l) => {
            let width = literal_width(l);
            (width, l.signed)
        }
        FlatExpr::Const(c, ss) => {
            let of = const_width(*c);
            let ss = ss.as_slice();
            let width = name_width(signals, of, ss);
            let signed = name_signed(c.signed, ss);
            (width, signed)
        }
        FlatExpr::Signal(k, ss) => {
            let signal = signal_of(signals, *k);
            let of = signal_width(signal);
            let ss = ss.as_slice();
            let rest = bit_selects(signal.array, ss);
            let width = name_width(signals, of, rest);
            let signed = name_signed(signal.signed, rest);
            (width, signed)
        }
        FlatExpr::Un(op, a) => {
            let a = own(signals, a.get());
            unary_own(*op, a)
        }
        FlatExpr::Bin(op, x, y) => {
            let x = own(signals, x.get());
            let y = own(signals, y.get());
            binary_own(*op, x, y)
        }
        FlatExpr::Div(x, y) => {
            let x = own(signals, x.get());
            let y = own(signals, y.get());
            (x.0.max(y.0), x.1 & y.1)
        }
        FlatExpr::Rem(x, y) => {
            let x = own(signals, x.get());
            let y = own(signals, y.get());
            (x.0.max(y.0), x.1 & y.1)
        }
        FlatExpr::Cond(_, x, y) => {
            let x = own(signals, x.get());
            let y = own(signals, y.get());
            (x.0.max(y.0), x.1 & y.1)
        }
        FlatExpr::Cat(es) => {
            let es = es.as_slice();
            let width = widths(signals, es);
            (width, false)
        }
        FlatExpr::Rep(count, es) => {
            let es = es.as_slice();
            let width = widths(signals, es);
            (*count * width, false)
        }
        FlatExpr::Cast(signed, a) => {
            let a = own(signals, a.get());
            (a.0, *signed)
        }
    }
}

/// The widths of expressions together.
#[cycle(own)]
pub(crate) fn widths(signals: &[Signal], es: &[FlatExpr]) -> u32
    requires good { list_all (λ (x : Bool). x) (map (is_good (declared_all signals.now)) es.now) ≡ true }
    requires most { widths (map (meaning (declared_all signals.now)) es.now) ≤ 128 }
    ensures { result ≡ widths (map (meaning (declared_all signals.now)) es.now) }
{
    let mut sum = 0u32;
    for e in es {
        sum += own(signals, e).0;
    }
    sum
}
