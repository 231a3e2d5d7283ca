ghost use Rattle.std.specs.Prelude.{◌≡◌, ◌&&◌, ◌||◌, not, [], Bool, slice_get, true};
ghost use Rattle.std.specs.Option.{option_copied};
ghost use Rattle.lv_bits.specs.Values.{keeps_width, is_apart};
ghost use Rattle.lv_source.specs.Names.{Here};
ghost use Rattle.lv_source.specs.Sites.{Walk};
ghost use Rattle.lv_const.specs.Constants.{names_of};
ghost use Rattle.lv_const.specs.Wherever.{AreDeclared};
ghost use Rattle.lv_flat.specs.Signals.{Signals};
ghost use Rattle.lv_resolve.specs.Places.{with_all};
ghost use Rattle.lv_resolve.specs.Forms.{Sites, HasForm, FormAnswer, HasPair, PairAnswer, settled_sites, first_sites, first_least, pair_sites, pair_least, wide};

use crate::close::close;
use crate::error::ResolveError;
use crate::form::{Form, Notes, Pair, Parts};
use lv_bits::Op;
use lv_const::Consts;
use lv_flat::Signal;
use sqlite_items::Items;
use std::alloc::Global;

/// An operand that keeps its own width and sign: no divisor in it may be 0 there.
pub fn settled(alloc: Global, all: &Consts, found: Form) -> Result<Form, ResolveError>
    ensures { (S : Signals) (here : Here) (sites : Sites) (w : Walk) (ok : Bool) → AreDeclared (names_of all.now) (with_all here) →
        HasForm S here sites (wide w) w ok found → FormAnswer S here (settled_sites sites w) 0 w ok result }
{
    let (operand, notes) = found.into_parts();
    match close(
        all,
        notes.divisors.as_slice(),
        operand.width,
        operand.signed,
    ) {
        Err(error) => Err(error),
        Ok(()) => Ok(Form {
            operand,
            notes: notes.without_divisors(alloc),
        }),
    }
}

/// Whether it compares truth values.
pub fn is_logical(op: Op) -> bool
    ensures { result ≡ (is_apart op && not (keeps_width op)) }
{
    op.is_apart() && !op.keeps_width()
}

fn is_kept(op: Op) -> bool
    ensures { result ≡ (keeps_width op || is_apart op) }
{
    op.keeps_width() || op.is_apart()
}

fn both_signed(a: bool, b: bool) -> bool
    ensures { result ≡ (a && b) }
{
    a && b
}

/// The operands of a comparison are taken at the greater of their widths, and signed only where both are.
pub fn compared(alloc: Global, all: &Consts, op: Op, found: Pair) -> Result<Pair, ResolveError>
    ensures { (S : Signals) (here : Here) (a b : Walk) (oka okb : Bool) → AreDeclared (names_of all.now) (with_all here) →
        HasPair S here (first_sites op a b) (first_least op a b) a b oka okb found → PairAnswer S here (pair_sites op a b)
        (pair_least op a b) a b oka okb result }
{
    if is_kept(op) {
        return Ok(found);
    }
    let (left, right, notes) = found.into_parts();
    let width = left.width.max(right.width);
    let signed = both_signed(left.signed, right.signed);
    match close(all, notes.divisors.as_slice(), width, signed) {
        Err(error) => Err(error),
        Ok(()) => Ok(Pair {
            left,
            right,
            notes: notes.without_divisors(alloc),
        }),
    }
}

/// No operands.
pub fn no_parts(alloc: Global) -> Parts
    ensures exprs { result.exprs ≡ [] }
    ensures total { result.total ≡ 0 }
    ensures constant { result.constant ≡ true }
    ensures clocks { result.notes.clocks ≡ [] }
    ensures divisors { result.notes.divisors ≡ [] }
{
    Parts {
        exprs: Items::new(alloc),
        total: 0,
        constant: true,
        notes: Notes::new(alloc),
    }
}

/// The signal of a number, if there is one.
pub fn signal_at(signals: &[Signal], number: u64) -> Option<&Signal>
    ensures { option_copied result ≡ slice_get signals.now number }
{
    signals.get(number as usize)
}
