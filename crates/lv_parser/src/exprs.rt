//! Expressions, ranges and selects (IEEE 1364-2005, annexes A.2.5 and A.8).

ghost use Rattle.std.specs.Prelude.{◌≡◌, ◌≤◌, length, IfOk};
ghost use Rattle.lv_grammars.specs.Grammar.{perhaps, many};
ghost use Rattle.lv_grammar.specs.Shapes as shapes;
ghost use Rattle.lv_grammar.specs.Rules as rules;
ghost use Rattle.lv_parser.specs.Answers.{Answers, placed_result, GoesOn, Stays};

use crate::tokens::{boxed, held, ident, is_mark, mark, push, unheld};
use lv_ast::{Expr, Path, Range, Select, Tokens};
use lv_bits::NoMemory;
use lv_exprs::{SyntaxError, read_definite, read_expr};
use lv_grammar::Span;
use lv_held::Held;
use sqlite_items::Items;
use std::alloc::Global;

/// An expression that is no literal with free bits.
pub fn value(alloc: Global, tokens: &Tokens, at: usize) -> Result<(Held<Expr>, usize), SyntaxError>
    requires { at ≤ length tokens.now.list }
    ensures answer { Answers tokens.now.text tokens.now.list rules.value at result }
    ensures placed { Answers tokens.now.text tokens.now.list (rules.expr shapes.value) at (placed_result tokens.now.text tokens.now.list at result) }
    ensures ahead { IfOk result (λ r. GoesOn tokens.now.list at r) }
{
    held(read_definite(alloc, tokens, at))
}

/// A label of a `casez`, where it is one, or of a `case`.
pub fn label(
    alloc: Global,
    tokens: &Tokens,
    at: usize,
    wild: bool,
) -> Result<(Expr, usize), SyntaxError>
    requires { at ≤ length tokens.now.list }
    ensures answer { Answers tokens.now.text tokens.now.list (rules.label wild) at result }
    ensures ahead { IfOk result (λ r. GoesOn tokens.now.list at r) }
{
    if wild {
        read_expr(alloc, tokens, at, false)
    } else {
        unheld(value(alloc, tokens, at))
    }
}

pub fn range(alloc: Global, tokens: &Tokens, at: usize) -> Result<(Range, usize), SyntaxError>
    requires { at ≤ length tokens.now.list }
    ensures answer { Answers tokens.now.text tokens.now.list rules.range at result }
    ensures ahead { IfOk result (λ r. GoesOn tokens.now.list at r) }
{
    let first = mark(tokens, at, b"[")?;
    let (left, colon) = value(alloc, tokens, first)?;
    let second = mark(tokens, colon, b":")?;
    let (right, bracket) = value(alloc, tokens, second)?;
    let end = mark(tokens, bracket, b"]")?;
    Ok((Range { left, right }, end))
}

/// A range, where one stands there.
pub fn range_if(
    alloc: Global,
    tokens: &Tokens,
    at: usize,
) -> Result<(Option<Range>, usize), SyntaxError>
    requires { at ≤ length tokens.now.list }
    ensures answer { Answers tokens.now.text tokens.now.list (perhaps rules.range) at result }
    ensures ahead { IfOk result (λ r. Stays tokens.now.list at r) }
{
    if is_mark(tokens, at, b"[") {
        let (range, end) = range(alloc, tokens, at)?;
        Ok((Some(range), end))
    } else {
        Ok((None, at))
    }
}

/// What stands in a part select from its mark on.
fn bound(
    alloc: Global,
    tokens: &Tokens,
    at: usize,
    bytes: &[u8],
) -> Result<(Held<Expr>, usize), SyntaxError>
    requires { at ≤ length tokens.now.list }
    ensures answer { Answers tokens.now.text tokens.now.list (rules.bound bytes.now) at result }
    ensures ahead { IfOk result (λ r. GoesOn tokens.now.list at r) }
{
    let second = mark(tokens, at, bytes)?;
    let (right, bracket) = value(alloc, tokens, second)?;
    let end = mark(tokens, bracket, b"]")?;
    Ok((right, end))
}

/// How a select goes on behind its first expression.
fn span_behind(alloc: Global, tokens: &Tokens, at: usize) -> Result<(Span, usize), SyntaxError>
    requires { at ≤ length tokens.now.list }
    ensures answer { Answers tokens.now.text tokens.now.list rules.select_end at result }
    ensures ahead { IfOk result (λ r. GoesOn tokens.now.list at r) }
{
    if is_mark(tokens, at, b"]") {
        Ok((Span::Bit, at + 1))
    } else if is_mark(tokens, at, b":") {
        let (right, end) = bound(alloc, tokens, at, b":")?;
        Ok((Span::Part(right), end))
    } else if is_mark(tokens, at, b"+:") {
        let (right, end) = bound(alloc, tokens, at, b"+:")?;
        Ok((Span::Up(right), end))
    } else {
        let (right, end) = bound(alloc, tokens, at, b"-:")?;
        Ok((Span::Down(right), end))
    }
}

fn select_of(alloc: Global, left: Held<Expr>, span: Span) -> Result<Select, NoMemory>
    ensures { IfOk result (λ s. s ≡ rules.select_by left span) }
{
    let left = boxed(alloc, left.into_inner())?;
    match span {
        Span::Bit => Ok(Select::Bit(left)),
        Span::Part(right) => Ok(Select::Part(left, boxed(alloc, right.into_inner())?)),
        Span::Up(right) => Ok(Select::Up(left, boxed(alloc, right.into_inner())?)),
        Span::Down(right) => Ok(Select::Down(left, boxed(alloc, right.into_inner())?)),
    }
}

fn select(alloc: Global, tokens: &Tokens, at: usize) -> Result<(Select, usize), SyntaxError>
    requires { at ≤ length tokens.now.list }
    ensures answer { Answers tokens.now.text tokens.now.list rules.selected at result }
    ensures ahead { IfOk result (λ r. GoesOn tokens.now.list at r) }
{
    let first = mark(tokens, at, b"[")?;
    let (left, divider) = value(alloc, tokens, first)?;
    let (span, end) = span_behind(alloc, tokens, divider)?;
    let chosen = select_of(alloc, left, span)?;
    Ok((chosen, end))
}

/// As many as there are.
pub fn selects(
    alloc: Global,
    tokens: &Tokens,
    at: usize,
) -> Result<(Items<Select>, usize), SyntaxError>
    requires { at ≤ length tokens.now.list }
    ensures answer { Answers tokens.now.text tokens.now.list (many rules.selected) at result }
    ensures ahead { IfOk result (λ r. Stays tokens.now.list at r) }
{
    let mut list = Items::new(alloc);
    let mut end = at;
    'entries: while is_mark(tokens, end, b"[") {
        let (select, next) = select(alloc, tokens, end)?;
        push(&mut list, select)?;
        end = next;
    }
    Ok((list, end))
}

/// A name with its selects.
pub fn named(
    alloc: Global,
    tokens: &Tokens,
    at: usize,
) -> Result<((Path, Items<Select>), usize), SyntaxError>
    requires { at ≤ length tokens.now.list }
    ensures answer { Answers tokens.now.text tokens.now.list rules.named at result }
    ensures ahead { IfOk result (λ r. GoesOn tokens.now.list at r) }
{
    let (name, bracket) = ident(alloc, tokens, at)?;
    let (selects, end) = selects(alloc, tokens, bracket)?;
    let (name, place) = name.into_parts();
    let steps = Items::new(alloc);
    let path = Path { steps, name, place };
    Ok(((path, selects), end))
}
