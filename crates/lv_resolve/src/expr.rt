ghost use Rattle.std.specs.Prelude.{◌≡◌, map, true};
ghost use Rattle.std.specs.List.{list_all};
ghost use Rattle.lv_source.specs.Names.{Declared};
ghost use Rattle.lv_source.specs.Sites.{walk, walk_select};
ghost use Rattle.lv_flat.specs.Signals.{declared_all};
ghost use Rattle.lv_resolve.specs.Forms.{Anywhere, FormAnswer, PairAnswer, PartsAnswer, has_operands, has_select_operands, read_sites, operand_sites, operand_least, wide, member_sites, both_sites, both_width, pair_sites, pair_least, NameAnswer};
ghost use Rattle.lv_resolve.specs.Picks.{PickAnswer, PicksAnswer, IsHead, head_bounds};

use crate::error::ResolveError;
use crate::fixed::{copies, fixed};
use crate::form::{Form, Pair, Parts};
use crate::heads::place_of;
use crate::joins::{
    binary, cast, choice, concatenation, division, literal_form, pair, repetition, unary, with_part,
};
use crate::late::constant;
use crate::naming::{
    bit_pick, const_form, const_head, element, element_bits, part_pick, picked, run_pick,
    signal_form, signal_head, whole,
};
use crate::picks::{Head, Pick, Picks};
use crate::place::{Bindings, Place};
use crate::settle::{compared, is_logical, no_parts, settled, signal_at};
use lv_ast::{Expr, Path, Select};
use lv_bits::Op;
use sqlite_items::Boxed;
use std::alloc::Global;

/// The flat tree of an expression that is read, or joined by a concatenation.
#[cycle(forms)]
pub fn form<B: Bindings>(
    alloc: Global,
    place: &Place<B>,
    expr: &Expr,
    joined: bool,
) -> Result<Form, ResolveError>
    ensures { Anywhere (declared_all place.now.signals.now) (B.numbers place.now.bindings.now) place.now.all.now place.now.early.now (λ here.
        FormAnswer (declared_all place.now.signals.now) here (read_sites joined (walk here.names expr.now)) (wide (walk here.names expr.now))
        (walk here.names expr.now) (has_operands expr.now) result) }
{
    match expr {
        Expr::Lit(literal) => literal_form(alloc, literal, joined),
        Expr::Name(path, selects) => name(alloc, place, path, selects.as_slice()),
        Expr::Un(op, a) => match operand(alloc, place, a, !op.keeps_width()) {
            Err(error) => Err(error),
            Ok(a) => unary(alloc, *op, a),
        },
        Expr::Bin(op, a, b) => match operands(alloc, place, *op, a, b) {
            Err(error) => Err(error),
            Ok(pair) => binary(alloc, *op, pair),
        },
        Expr::Div(a, b) => match both(alloc, place, a, b) {
            Err(error) => Err(error),
            Ok(pair) => {
                let start = place_of(expr);
                division(alloc, false, start, b.get(), place_of(b.get()), pair)
            }
        },
        Expr::Rem(a, b) => match both(alloc, place, a, b) {
            Err(error) => Err(error),
            Ok(pair) => {
                let start = place_of(expr);
                division(alloc, true, start, b.get(), place_of(b.get()), pair)
            }
        },
        Expr::Cond(c, a, b) => match operand(alloc, place, c, true) {
            Err(error) => Err(error),
            Ok(c) => match operand(alloc, place, a, false) {
                Err(error) => Err(error),
                Ok(a) => match operand(alloc, place, b, false) {
                    Err(error) => Err(error),
                    Ok(b) => choice(alloc, c, a, b),
                },
            },
        },
        Expr::Cat(parts) => match members(alloc, place, parts.as_slice()) {
            Err(error) => Err(error),
            Ok(parts) => concatenation(place_of(expr), parts),
        },
        Expr::Rep(count, parts) => match fixed(place, count.get()) {
            Err(error) => Err(error),
            Ok(count) => match members(alloc, place, parts.as_slice()) {
                Err(error) => Err(error),
                Ok(parts) => {
                    let start = place_of(expr);
                    repetition(start, copies(count), parts)
                }
            },
        },
        Expr::Cast(signed, a) => match operand(alloc, place, a, true) {
            Err(error) => Err(error),
            Ok(a) => cast(alloc, *signed, a),
        },
    }
}

/// An operand: what reaches the node reaches it, or it keeps its own width and sign (`full`).
#[cycle(forms)]
fn operand<B: Bindings>(
    alloc: Global,
    place: &Place<B>,
    expr: &Boxed<Expr>,
    full: bool,
) -> Result<Form, ResolveError>
    ensures { Anywhere (declared_all place.now.signals.now) (B.numbers place.now.bindings.now) place.now.all.now place.now.early.now (λ here.
        FormAnswer (declared_all place.now.signals.now) here (operand_sites full (walk here.names expr.now)) (operand_least full (walk here.names expr.now))
        (walk here.names expr.now) (has_operands expr.now) result) }
{
    match form(alloc, place, expr.get(), false) {
        Err(error) => Err(error),
        Ok(found) => {
            if full {
                settled(alloc, place.all, found)
            } else {
                Ok(found)
            }
        }
    }
}

/// An operand of a concatenation.
#[cycle(forms)]
fn member<B: Bindings>(alloc: Global, place: &Place<B>, expr: &Expr) -> Result<Form, ResolveError>
    ensures { Anywhere (declared_all place.now.signals.now) (B.numbers place.now.bindings.now) place.now.all.now place.now.early.now (λ here.
        FormAnswer (declared_all place.now.signals.now) here (member_sites (walk here.names expr.now)) 0 (walk here.names expr.now)
        (has_operands expr.now) result) }
{
    match form(alloc, place, expr, true) {
        Err(error) => Err(error),
        Ok(found) => settled(alloc, place.all, found),
    }
}

/// Two operands that what reaches the node reaches.
#[cycle(forms)]
fn both<B: Bindings>(
    alloc: Global,
    place: &Place<B>,
    a: &Boxed<Expr>,
    b: &Boxed<Expr>,
) -> Result<Pair, ResolveError>
    ensures { Anywhere (declared_all place.now.signals.now) (B.numbers place.now.bindings.now) place.now.all.now place.now.early.now (λ here.
        PairAnswer (declared_all place.now.signals.now) here (both_sites (walk here.names a.now) (walk here.names b.now))
        (both_width (walk here.names a.now) (walk here.names b.now)) (walk here.names a.now) (walk here.names b.now) (has_operands a.now)
        (has_operands b.now) result) }
{
    match operand(alloc, place, a, false) {
        Err(error) => Err(error),
        Ok(left) => match operand(alloc, place, b, false) {
            Err(error) => Err(error),
            Ok(right) => pair(left, right),
        },
    }
}

/// The operands of a binary operator.
#[cycle(forms)]
fn operands<B: Bindings>(
    alloc: Global,
    place: &Place<B>,
    op: Op,
    a: &Boxed<Expr>,
    b: &Boxed<Expr>,
) -> Result<Pair, ResolveError>
    ensures { Anywhere (declared_all place.now.signals.now) (B.numbers place.now.bindings.now) place.now.all.now place.now.early.now (λ here.
        PairAnswer (declared_all place.now.signals.now) here (pair_sites op (walk here.names a.now) (walk here.names b.now))
        (pair_least op (walk here.names a.now) (walk here.names b.now)) (walk here.names a.now) (walk here.names b.now) (has_operands a.now)
        (has_operands b.now) result) }
{
    match operand(alloc, place, a, is_logical(op)) {
        Err(error) => Err(error),
        Ok(left) => match operand(alloc, place, b, op.is_apart()) {
            Err(error) => Err(error),
            Ok(right) => match pair(left, right) {
                Err(error) => Err(error),
                Ok(found) => compared(alloc, place.all, op, found),
            },
        },
    }
}

/// The operands of a concatenation, each at its own width and sign.
#[cycle(forms)]
fn members<B: Bindings>(
    alloc: Global,
    place: &Place<B>,
    exprs: &[Expr],
) -> Result<Parts, ResolveError>
    ensures { Anywhere (declared_all place.now.signals.now) (B.numbers place.now.bindings.now) place.now.all.now place.now.early.now (λ here.
        PartsAnswer (declared_all place.now.signals.now) here (map (walk here.names) exprs.now) (list_all has_operands exprs.now) result) }
{
    let mut parts = no_parts(alloc);
    for expr in exprs {
        match member(alloc, place, expr) {
            Err(error) => return Err(error),
            Ok(part) => match with_part(parts, part) {
                Err(error) => return Err(error),
                Ok(more) => parts = more,
            },
        }
    }
    Ok(parts)
}

/// A name with its selects.
#[cycle(forms)]
fn name<B: Bindings>(
    alloc: Global,
    place: &Place<B>,
    path: &Path,
    selects: &[Select],
) -> Result<Form, ResolveError>
    ensures { Anywhere (declared_all place.now.signals.now) (B.numbers place.now.bindings.now) place.now.all.now place.now.early.now (λ here.
        NameAnswer (declared_all place.now.signals.now) here path.now (map (walk_select here.names) selects.now)
        (list_all has_select_operands selects.now) result) }
{
    match place.bindings.signal(path) {
        Some(number) => match signal_at(place.signals, number) {
            None => Err(ResolveError::UnknownName(path.place)),
            Some(signal) => {
                let head = signal_head(signal);
                match picks(alloc, place, &head, path.place, selects) {
                    Err(error) => Err(error),
                    Ok(found) => signal_form(alloc, number, signal.sort, path.place, found),
                }
            }
        },
        None => match constant(place.all, path) {
            None => Err(ResolveError::UnknownName(path.place)),
            Some(constant) => {
                let head = const_head(&constant);
                match picks(alloc, place, &head, path.place, selects) {
                    Err(error) => Err(error),
                    Ok(found) => Ok(const_form(alloc, &constant, found)),
                }
            }
        },
    }
}

/// The selects of a name that is declared so.
#[cycle(forms)]
pub fn picks<B: Bindings>(
    alloc: Global,
    place: &Place<B>,
    head: &Head,
    at: u64,
    selects: &[Select],
) -> Result<Picks, ResolveError>
    ensures { Anywhere (declared_all place.now.signals.now) (B.numbers place.now.bindings.now) place.now.all.now place.now.early.now (λ here.
        (d : Declared) → IsHead d head.now → PicksAnswer (declared_all place.now.signals.now) here d (list_all has_select_operands selects.now)
        (map (walk_select here.names) selects.now) at result) }
{
    if head.array {
        return array_picks(alloc, place, head, at, selects);
    }
    if selects.len() == 0 {
        return Ok(whole(alloc, head));
    }
    if selects.len() != 1 {
        return Err(ResolveError::Range(at));
    }
    if !head.ranged {
        return Err(ResolveError::Range(at));
    }
    match pick(alloc, place, head, at, &selects[0]) {
        Err(error) => Err(error),
        Ok(found) => picked(alloc, head, found),
    }
}

/// Those of an array.
#[cycle(forms)]
fn array_picks<B: Bindings>(
    alloc: Global,
    place: &Place<B>,
    head: &Head,
    at: u64,
    selects: &[Select],
) -> Result<Picks, ResolveError>
    requires { head.now.array ≡ true }
    ensures { Anywhere (declared_all place.now.signals.now) (B.numbers place.now.bindings.now) place.now.all.now place.now.early.now (λ here.
        (d : Declared) → IsHead d head.now → PicksAnswer (declared_all place.now.signals.now) here d (list_all has_select_operands selects.now)
        (map (walk_select here.names) selects.now) at result) }
{
    if selects.len() == 0 {
        return Err(ResolveError::UnknownName(at));
    }
    match &selects[0] {
        Select::Bit(index) => {
            if selects.len() == 1 {
                return match operand(alloc, place, index, true) {
                    Err(error) => Err(error),
                    Ok(index) => element(alloc, head, index),
                };
            }
            if selects.len() != 2 {
                return Err(ResolveError::Range(at));
            }
            if !head.ranged {
                return Err(ResolveError::Range(at));
            }
            match operand(alloc, place, index, true) {
                Err(error) => Err(error),
                Ok(index) => match pick(alloc, place, head, at, &selects[1]) {
                    Err(error) => Err(error),
                    Ok(found) => element_bits(alloc, head, index, found),
                },
            }
        }
        Select::Part(_, _) => Err(ResolveError::UnknownName(at)),
        Select::Up(_, _) => Err(ResolveError::UnknownName(at)),
        Select::Down(_, _) => Err(ResolveError::UnknownName(at)),
    }
}

/// A select of bits.
#[cycle(forms)]
fn pick<B: Bindings>(
    alloc: Global,
    place: &Place<B>,
    head: &Head,
    at: u64,
    select: &Select,
) -> Result<Pick, ResolveError>
    ensures { Anywhere (declared_all place.now.signals.now) (B.numbers place.now.bindings.now) place.now.all.now place.now.early.now (λ here.
        PickAnswer (declared_all place.now.signals.now) here (head_bounds head.now) (has_select_operands select.now)
        (walk_select here.names select.now) at result) }
{
    match select {
        Select::Bit(a) => match operand(alloc, place, a, true) {
            Err(error) => Err(error),
            Ok(index) => bit_pick(alloc, index),
        },
        Select::Part(a, b) => match fixed(place, a.get()) {
            Err(error) => Err(error),
            Ok(left) => match fixed(place, b.get()) {
                Err(error) => Err(error),
                Ok(right) => part_pick(alloc, head, at, left, right),
            },
        },
        Select::Up(a, b) => match operand(alloc, place, a, true) {
            Err(error) => Err(error),
            Ok(index) => match fixed(place, b.get()) {
                Err(error) => Err(error),
                Ok(count) => run_pick(alloc, at, true, index, count),
            },
        },
        Select::Down(a, b) => match operand(alloc, place, a, true) {
            Err(error) => Err(error),
            Ok(index) => match fixed(place, b.get()) {
                Err(error) => Err(error),
                Ok(count) => run_pick(alloc, at, false, index, count),
            },
        },
    }
}
