//! Instances and their connections (IEEE 1364-2005, annex A.4.1).

ghost use Rattle.std.specs.Prelude.{◌≤◌, length, IfOk, refl};
ghost use Rattle.lv_grammar.specs.Rules as rules;
ghost use Rattle.lv_parser.specs.Answers.{Answers, GoesOn, Stays};

use crate::exprs::value;
use crate::lists::{Entries, list};
use crate::tokens::{ident, is_mark, mark, place};
use lv_ast::{Conn, Expr, Inst, Item, Tokens};
use lv_exprs::SyntaxError;
use lv_held::Held;
use sqlite_items::Items;
use std::alloc::Global;

/// Connections without names.
#[derive(Clone, Copy)]
struct OrderedConns;

impl Entries for OrderedConns {
    type Entry = Conn;

    ghost grammar = { λ x. rules.ordered_conn };

    ghost good = { λ x. refl };

    fn entry(
        &self,
        alloc: Global,
        tokens: &Tokens,
        at: usize,
    ) -> Result<(Conn, usize), SyntaxError> {
        ordered_conn(alloc, tokens, at)
    }
}

/// Connections with names.
#[derive(Clone, Copy)]
struct NamedConns;

impl Entries for NamedConns {
    type Entry = Conn;

    ghost grammar = { λ x. rules.named_conn };

    ghost good = { λ x. refl };

    fn entry(
        &self,
        alloc: Global,
        tokens: &Tokens,
        at: usize,
    ) -> Result<(Conn, usize), SyntaxError> {
        named_conn(alloc, tokens, at)
    }
}

/// Instances.
#[derive(Clone, Copy)]
struct Insts;

impl Entries for Insts {
    type Entry = Inst;

    ghost grammar = { λ x. rules.inst };

    ghost good = { λ x. refl };

    fn entry(
        &self,
        alloc: Global,
        tokens: &Tokens,
        at: usize,
    ) -> Result<(Inst, usize), SyntaxError> {
        inst(alloc, tokens, at)
    }
}

fn ordered_conn(alloc: Global, tokens: &Tokens, at: usize) -> Result<(Conn, usize), SyntaxError>
    requires { at ≤ length tokens.now.list }
    ensures answer { Answers tokens.now.text tokens.now.list rules.ordered_conn at result }
    ensures ahead { IfOk result (λ r. GoesOn tokens.now.list at r) }
{
    let (value, end) = value(alloc, tokens, at)?;
    let conn = Conn {
        name: None,
        value: Some(value),
        place: place(tokens, at),
    };
    Ok((conn, end))
}

/// What stands in the parentheses of a named connection, and the last of them.
fn conn_value(
    alloc: Global,
    tokens: &Tokens,
    at: usize,
) -> Result<(Option<Held<Expr>>, usize), SyntaxError>
    requires { at ≤ length tokens.now.list }
    ensures answer { Answers tokens.now.text tokens.now.list rules.conn_end at result }
    ensures ahead { IfOk result (λ r. GoesOn tokens.now.list at r) }
{
    if is_mark(tokens, at, b")") {
        Ok((None, at + 1))
    } else {
        let (value, close) = value(alloc, tokens, at)?;
        let end = mark(tokens, close, b")")?;
        Ok((Some(value), end))
    }
}

fn named_conn(alloc: Global, tokens: &Tokens, at: usize) -> Result<(Conn, usize), SyntaxError>
    requires { at ≤ length tokens.now.list }
    ensures answer { Answers tokens.now.text tokens.now.list rules.named_conn at result }
    ensures ahead { IfOk result (λ r. GoesOn tokens.now.list at r) }
{
    let dotted = mark(tokens, at, b".")?;
    let (name, open) = ident(alloc, tokens, dotted)?;
    let inner = mark(tokens, open, b"(")?;
    let (value, end) = conn_value(alloc, tokens, inner)?;
    let conn = Conn {
        name: Some(name),
        value,
        place: place(tokens, at),
    };
    Ok((conn, end))
}

/// Connections, all ordered or all named.
fn conns(alloc: Global, tokens: &Tokens, at: usize) -> Result<(Items<Conn>, usize), SyntaxError>
    requires { at ≤ length tokens.now.list }
    ensures answer { Answers tokens.now.text tokens.now.list rules.conns at result }
    ensures ahead { IfOk result (λ r. GoesOn tokens.now.list at r) }
{
    if is_mark(tokens, at, b".") {
        list(alloc, tokens, at, &NamedConns)
    } else {
        list(alloc, tokens, at, &OrderedConns)
    }
}

/// Connections, if any, up to the parenthesis that ends them.
fn conns_to_end(
    alloc: Global,
    tokens: &Tokens,
    at: usize,
) -> Result<(Items<Conn>, usize), SyntaxError>
    requires { at ≤ length tokens.now.list }
    ensures answer { Answers tokens.now.text tokens.now.list rules.conns_to_end at result }
    ensures ahead { IfOk result (λ r. GoesOn tokens.now.list at r) }
{
    if is_mark(tokens, at, b")") {
        Ok((Items::new(alloc), at + 1))
    } else {
        let (list, close) = conns(alloc, tokens, at)?;
        let end = mark(tokens, close, b")")?;
        Ok((list, end))
    }
}

fn inst(alloc: Global, tokens: &Tokens, at: usize) -> Result<(Inst, usize), SyntaxError>
    requires { at ≤ length tokens.now.list }
    ensures answer { Answers tokens.now.text tokens.now.list rules.inst at result }
    ensures ahead { IfOk result (λ r. GoesOn tokens.now.list at r) }
{
    let (name, open) = ident(alloc, tokens, at)?;
    let inner = mark(tokens, open, b"(")?;
    let (conns, end) = conns_to_end(alloc, tokens, inner)?;
    Ok((Inst { name, conns }, end))
}

fn settings(alloc: Global, tokens: &Tokens, at: usize) -> Result<(Items<Conn>, usize), SyntaxError>
    requires { at ≤ length tokens.now.list }
    ensures answer { Answers tokens.now.text tokens.now.list (rules.hash rules.conns) at result }
    ensures ahead { IfOk result (λ r. GoesOn tokens.now.list at r) }
{
    let open = mark(tokens, at, b"#")?;
    let inner = mark(tokens, open, b"(")?;
    let (list, close) = conns(alloc, tokens, inner)?;
    let end = mark(tokens, close, b")")?;
    Ok((list, end))
}

/// The values of an instance's parameters.
fn overrides(alloc: Global, tokens: &Tokens, at: usize) -> Result<(Items<Conn>, usize), SyntaxError>
    requires { at ≤ length tokens.now.list }
    ensures answer { Answers tokens.now.text tokens.now.list rules.overrides at result }
    ensures ahead { IfOk result (λ r. Stays tokens.now.list at r) }
{
    if is_mark(tokens, at, b"#") {
        settings(alloc, tokens, at)
    } else {
        Ok((Items::new(alloc), at))
    }
}

pub fn instance(alloc: Global, tokens: &Tokens, at: usize) -> Result<(Item, usize), SyntaxError>
    requires { at ≤ length tokens.now.list }
    ensures answer { Answers tokens.now.text tokens.now.list rules.instance at result }
    ensures ahead { IfOk result (λ r. GoesOn tokens.now.list at r) }
{
    let (module, hash) = ident(alloc, tokens, at)?;
    let (params, first) = overrides(alloc, tokens, hash)?;
    let (list, semicolon) = list(alloc, tokens, first, &Insts)?;
    let end = mark(tokens, semicolon, b";")?;
    Ok((Item::Instance(module, params, list), end))
}
