ghost use Rattle.std.specs.Prelude.{◌≡◌, ◌≤◌, [], ◌∷◌, ◌++◌, IfOk, IfErr};
ghost use Rattle.lv_source.specs.NodeRules.{is_width as spec_is_width, is_literal_fault as literal_fault};
ghost use Rattle.lv_const.specs.Answers.{read_role};
ghost use Rattle.lv_resolve.specs.Joins.{IsNoted, IsUnary, IsBinary, IsPair, IsDivision, IsNoDivision, IsChoice, IsCast, IsMore, IsConcatenation, IsTooWide, IsCounted, IsUncounted, IsLiteral, IsNoLiteral, divided_by};
ghost use Rattle.lv_resolve.specs.Joins.{binary_width as spec_binary_width, binary_signed as spec_binary_signed};
ghost use Rattle.lv_resolve.specs.declared.error.ResolveError.TheVariants.{NoMemory};

use crate::error::ResolveError;
use crate::form::{Divisor, Form, Notes, Pair, Parts, boxed};
use crate::operand::Operand;
use lv_ast::{Expr, Literal};
use lv_bits::Op;
use lv_flat::FlatExpr;
use lv_held::Held;
use sqlite_items::Boxed;
use std::alloc::Global;

pub fn unary(alloc: Global, op: Op, a: Form) -> Result<Form, ResolveError>
    ensures ok { IfOk result (λ f. IsUnary op a f) }
    ensures err { IfErr result (λ x. x ≡ NoMemory) }
{
    let (a, notes) = a.into_parts();
    let width = if op.keeps_width() { a.width } else { 1 };
    let signed = op.keeps_width() && a.signed;
    let constant = a.constant;
    let a = boxed(alloc, a.into_expr())?;
    let operand = Operand {
        expr: Held::new(FlatExpr::Un(op, a)),
        width,
        signed,
        constant,
    };
    Ok(Form { operand, notes })
}

fn binary_width(op: Op, a: u32, b: u32) -> u32
    requires left { 1 ≤ a }
    requires left_most { a ≤ 128 }
    requires right_most { b ≤ 128 }
    ensures is { result ≡ spec_binary_width op a b }
    ensures some { 1 ≤ result }
    ensures most { result ≤ 128 }
{
    if !op.keeps_width() {
        1
    } else if op.is_apart() {
        a
    } else {
        a.max(b)
    }
}

fn binary_signed(op: Op, a: bool, b: bool) -> bool
    ensures { result ≡ spec_binary_signed op a b }
{
    if !op.keeps_width() {
        false
    } else if op.is_apart() {
        a
    } else {
        a && b
    }
}

pub fn binary(alloc: Global, op: Op, pair: Pair) -> Result<Form, ResolveError>
    ensures ok { IfOk result (λ f. IsBinary op pair f) }
    ensures err { IfErr result (λ x. x ≡ NoMemory) }
{
    let (a, b, notes) = pair.into_parts();
    let width = binary_width(op, a.width, b.width);
    let signed = binary_signed(op, a.signed, b.signed);
    let constant = a.constant && b.constant;
    let a = boxed(alloc, a.into_expr())?;
    let b = boxed(alloc, b.into_expr())?;
    let operand = Operand {
        expr: Held::new(FlatExpr::Bin(op, a, b)),
        width,
        signed,
        constant,
    };
    Ok(Form { operand, notes })
}

/// Two operands with the notes of both.
pub fn pair(a: Form, b: Form) -> Result<Pair, ResolveError>
    ensures ok { IfOk result (λ p. IsPair a b p) }
    ensures err { IfErr result (λ x. x ≡ NoMemory) }
{
    let (left, notes) = a.into_parts();
    let (right, more) = b.into_parts();
    let notes = notes.with(more)?;
    Ok(Pair { left, right, notes })
}

/// Notes with one more divisor.
fn with_divisor(
    alloc: Global,
    notes: Notes,
    divisor: &Expr,
    place: u64,
) -> Result<Notes, ResolveError>
    ensures ok { IfOk result (λ n. IsNoted n notes.clocks (notes.divisors ++ record { expr = divisor.now; place = place } ∷ [])) }
    ensures err { IfErr result (λ x. x ≡ NoMemory) }
{
    let (clocks, mut divisors) = notes.into_parts();
    let Ok(expr) = divisor.copy(alloc) else {
        return Err(ResolveError::NoMemory);
    };
    let divisor = Divisor {
        expr: Held::new(expr),
        place,
    };
    if divisors.push(divisor).is_err() {
        return Err(ResolveError::NoMemory);
    }
    Ok(Notes::of(clocks, divisors))
}

fn division_of(rest: bool, a: Boxed<FlatExpr>, b: Boxed<FlatExpr>) -> FlatExpr
    ensures { result ≡ divided_by rest a b }
{
    if rest {
        FlatExpr::Rem(a, b)
    } else {
        FlatExpr::Div(a, b)
    }
}

/// A quotient, or a remainder. `NotConstant` at `start` where one of both is not constant.
pub fn division(
    alloc: Global,
    rest: bool,
    start: u64,
    divisor: &Expr,
    place: u64,
    pair: Pair,
) -> Result<Form, ResolveError>
    ensures ok { IfOk result (λ f. IsDivision rest divisor.now place pair f) }
    ensures err { IfErr result (λ x. IsNoDivision start pair x) }
{
    let (a, b, notes) = pair.into_parts();
    if !(a.constant && b.constant) {
        return Err(ResolveError::NotConstant(start));
    }
    let width = a.width.max(b.width);
    let signed = a.signed && b.signed;
    let notes = with_divisor(alloc, notes, divisor, place)?;
    let a = boxed(alloc, a.into_expr())?;
    let b = boxed(alloc, b.into_expr())?;
    let operand = Operand {
        expr: Held::new(division_of(rest, a, b)),
        width,
        signed,
        constant: true,
    };
    Ok(Form { operand, notes })
}

pub fn choice(alloc: Global, c: Form, a: Form, b: Form) -> Result<Form, ResolveError>
    ensures ok { IfOk result (λ f. IsChoice c a b f) }
    ensures err { IfErr result (λ x. x ≡ NoMemory) }
{
    let (c, notes) = c.into_parts();
    let (a, more) = a.into_parts();
    let notes = notes.with(more)?;
    let (b, more) = b.into_parts();
    let notes = notes.with(more)?;
    let width = a.width.max(b.width);
    let signed = a.signed && b.signed;
    let constant = c.constant && (a.constant && b.constant);
    let c = boxed(alloc, c.into_expr())?;
    let a = boxed(alloc, a.into_expr())?;
    let b = boxed(alloc, b.into_expr())?;
    let operand = Operand {
        expr: Held::new(FlatExpr::Cond(c, a, b)),
        width,
        signed,
        constant,
    };
    Ok(Form { operand, notes })
}

pub fn cast(alloc: Global, signed: bool, a: Form) -> Result<Form, ResolveError>
    ensures ok { IfOk result (λ f. IsCast signed a f) }
    ensures err { IfErr result (λ x. x ≡ NoMemory) }
{
    let (a, notes) = a.into_parts();
    let width = a.width;
    let constant = a.constant;
    let a = boxed(alloc, a.into_expr())?;
    let operand = Operand {
        expr: Held::new(FlatExpr::Cast(signed, a)),
        width,
        signed,
        constant,
    };
    Ok(Form { operand, notes })
}

/// One more operand of a concatenation.
pub fn with_part(parts: Parts, part: Form) -> Result<Parts, ResolveError>
    requires { parts.total ≤ 100000000000000000000000 }
    ensures ok { IfOk result (λ p. IsMore parts part p) }
    ensures err { IfErr result (λ x. x ≡ NoMemory) }
{
    let (mut exprs, total, constant, notes) = parts.into_parts();
    let (operand, more) = part.into_parts();
    let notes = notes.with(more)?;
    let total = total + u128::from(operand.width);
    let constant = constant && operand.constant;
    if exprs.push(operand.into_expr()).is_err() {
        return Err(ResolveError::NoMemory);
    }
    Ok(Parts {
        exprs,
        total,
        constant,
        notes,
    })
}

/// Whether it is a width that is allowed.
pub fn is_width(width: u128) -> bool
    ensures { result ≡ spec_is_width width }
{
    1 <= width && width <= 128
}

/// A concatenation. `Range` at `place` where it has no bit or more than 128.
pub fn concatenation(place: u64, parts: Parts) -> Result<Form, ResolveError>
    ensures ok { IfOk result (λ f. IsConcatenation parts f) }
    ensures err { IfErr result (λ x. IsTooWide parts.total place x) }
{
    let (exprs, total, constant, notes) = parts.into_parts();
    if !is_width(total) {
        return Err(ResolveError::Range(place));
    }
    let operand = Operand {
        expr: Held::new(FlatExpr::Cat(exprs)),
        width: total as u32,
        signed: false,
        constant,
    };
    Ok(Form { operand, notes })
}

/// So many copies. `Range` at `place` where the count is 0, or they have no bit or more than 128.
pub fn repetition(place: u64, count: Option<u128>, parts: Parts) -> Result<Form, ResolveError>
    ensures ok { IfOk result (λ f. IsCounted count parts f) }
    ensures err { IfErr result (λ x. IsUncounted count parts.total place x) }
{
    let (exprs, total, constant, notes) = parts.into_parts();
    let Some(count) = count else {
        return Err(ResolveError::Range(place));
    };
    match count.checked_mul(total) {
        None => Err(ResolveError::Range(place)),
        Some(width) => {
            if !is_width(width) {
                return Err(ResolveError::Range(place));
            }
            let operand = Operand {
                expr: Held::new(FlatExpr::Rep(count as u32, exprs)),
                width: width as u32,
                signed: false,
                constant,
            };
            Ok(Form { operand, notes })
        }
    }
}

/// A literal. `Range` at it where its size or its value is none that is allowed.
pub fn literal_form(alloc: Global, literal: &Literal, joined: bool) -> Result<Form, ResolveError>
    ensures ok { IfOk result (λ f. IsLiteral literal.now joined f) }
    ensures err { IfErr result (λ x. IsNoLiteral literal.now joined x) }
{
    let size = match literal.size {
        None => 32,
        Some(size) => size,
    };
    if !is_width(size) || is_literal_fault(literal, joined) {
        return Err(ResolveError::Range(literal.place));
    }
    let operand = Operand {
        expr: Held::new(FlatExpr::Lit(*literal)),
        width: size as u32,
        signed: literal.signed,
        constant: true,
    };
    Ok(Form {
        operand,
        notes: Notes::new(alloc),
    })
}

fn is_literal_fault(literal: &Literal, joined: bool) -> bool
    ensures { result ≡ literal_fault (read_role joined) literal.now }
{
    match literal.size {
        Some(size) => !is_width(size),
        None => joined || literal.value >= 4294967296,
    }
}
