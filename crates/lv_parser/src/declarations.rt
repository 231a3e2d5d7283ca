//! Declarations (IEEE 1364-2005, annexes A.1.3 and A.2).

ghost use Rattle.std.specs.Prelude.{◌≡◌, ◌≤◌, length, IfOk, codes, ◌||◌, refl};
ghost use Rattle.lv_grammar.specs.Shapes.{stands};
ghost use Rattle.lv_grammar.specs.Shapes as shapes;
ghost use Rattle.lv_grammar.specs.Rules as rules;
ghost use Rattle.lv_parser.specs.Answers.{from, Answers, GoesOn, Stays};

use crate::exprs::{range, range_if, value};
use crate::lists::{Entries, list};
use crate::tokens::{ident, is_mark, is_word, mark, word};
use lv_ast::{Aport, Ident, Item, NetName, Params, PortWord, Range, RegName, Setting, Tokens};
use lv_exprs::SyntaxError;
use std::alloc::Global;

/// Names.
#[derive(Clone, Copy)]
pub struct Names;

impl Entries for Names {
    type Entry = Ident;

    ghost grammar = { λ x. rules.ident };

    ghost good = { λ x. refl };

    fn entry(
        &self,
        alloc: Global,
        tokens: &Tokens,
        at: usize,
    ) -> Result<(Ident, usize), SyntaxError> {
        ident(alloc, tokens, at)
    }
}

/// Parameters with their values.
#[derive(Clone, Copy)]
pub struct Settings;

impl Entries for Settings {
    type Entry = Setting;

    ghost grammar = { λ x. rules.setting };

    ghost good = { λ x. refl };

    fn entry(
        &self,
        alloc: Global,
        tokens: &Tokens,
        at: usize,
    ) -> Result<(Setting, usize), SyntaxError> {
        setting(alloc, tokens, at)
    }
}

/// Nets.
#[derive(Clone, Copy)]
pub struct NetNames;

impl Entries for NetNames {
    type Entry = NetName;

    ghost grammar = { λ x. rules.net_name };

    ghost good = { λ x. refl };

    fn entry(
        &self,
        alloc: Global,
        tokens: &Tokens,
        at: usize,
    ) -> Result<(NetName, usize), SyntaxError> {
        net_name(alloc, tokens, at)
    }
}

/// Variables.
#[derive(Clone, Copy)]
pub struct RegNames;

impl Entries for RegNames {
    type Entry = RegName;

    ghost grammar = { λ x. rules.reg_name };

    ghost good = { λ x. refl };

    fn entry(
        &self,
        alloc: Global,
        tokens: &Tokens,
        at: usize,
    ) -> Result<(RegName, usize), SyntaxError> {
        reg_name(alloc, tokens, at)
    }
}

/// Whether the keyword `signed` stands there.
fn signed(tokens: &Tokens, at: usize) -> Result<(bool, usize), SyntaxError>
    requires { at ≤ length tokens.now.list }
    ensures answer { Answers tokens.now.text tokens.now.list rules.signed at result }
    ensures ahead { IfOk result (λ r. Stays tokens.now.list at r) }
{
    if is_word(tokens, at, b"signed") {
        Ok((true, at + 1))
    } else {
        Ok((false, at))
    }
}

/// What stands before the names of a declaration.
pub fn header(
    alloc: Global,
    tokens: &Tokens,
    at: usize,
) -> Result<((bool, Option<Range>), usize), SyntaxError>
    requires { at ≤ length tokens.now.list }
    ensures answer { Answers tokens.now.text tokens.now.list rules.header at result }
    ensures ahead { IfOk result (λ r. Stays tokens.now.list at r) }
{
    let (signed, bracket) = signed(tokens, at)?;
    let (range, end) = range_if(alloc, tokens, bracket)?;
    Ok(((signed, range), end))
}

pub fn setting(alloc: Global, tokens: &Tokens, at: usize) -> Result<(Setting, usize), SyntaxError>
    requires { at ≤ length tokens.now.list }
    ensures answer { Answers tokens.now.text tokens.now.list rules.setting at result }
    ensures ahead { IfOk result (λ r. GoesOn tokens.now.list at r) }
{
    let (name, equals) = ident(alloc, tokens, at)?;
    let right = mark(tokens, equals, b"=")?;
    let (value, end) = value(alloc, tokens, right)?;
    Ok((Setting { name, value }, end))
}

fn params(alloc: Global, tokens: &Tokens, at: usize) -> Result<(Params, usize), SyntaxError>
    requires { at ≤ length tokens.now.list }
    ensures answer { Answers tokens.now.text tokens.now.list rules.params at result }
    ensures ahead { IfOk result (λ r. GoesOn tokens.now.list at r) }
{
    let ((signed, range), names) = header(alloc, tokens, at)?;
    let (list, end) = list(alloc, tokens, names, &Settings)?;
    Ok((
        Params {
            signed,
            range,
            list,
        },
        end,
    ))
}

fn input(tokens: &Tokens, at: usize) -> Result<((bool, PortWord), usize), SyntaxError>
    requires { at ≤ length tokens.now.list }
    ensures answer { Answers tokens.now.text tokens.now.list rules.input at result }
    ensures ahead { IfOk result (λ r. GoesOn tokens.now.list at r) }
{
    let wire = word(tokens, at, b"input")?;
    if is_word(tokens, wire, b"wire") {
        Ok(((false, PortWord::Wire), wire + 1))
    } else {
        Ok(((false, PortWord::Absent), wire))
    }
}

fn output(tokens: &Tokens, at: usize) -> Result<((bool, PortWord), usize), SyntaxError>
    requires { at ≤ length tokens.now.list }
    ensures answer { Answers tokens.now.text tokens.now.list rules.output at result }
    ensures ahead { IfOk result (λ r. GoesOn tokens.now.list at r) }
{
    let kind = word(tokens, at, b"output")?;
    if is_word(tokens, kind, b"wire") {
        Ok(((true, PortWord::Wire), kind + 1))
    } else if is_word(tokens, kind, b"reg") {
        Ok(((true, PortWord::Reg), kind + 1))
    } else {
        Ok(((true, PortWord::Absent), kind))
    }
}

fn direction(tokens: &Tokens, at: usize) -> Result<((bool, PortWord), usize), SyntaxError>
    requires { at ≤ length tokens.now.list }
    ensures answer { Answers tokens.now.text tokens.now.list rules.direction at result }
    ensures ahead { IfOk result (λ r. GoesOn tokens.now.list at r) }
{
    if is_word(tokens, at, b"input") {
        input(tokens, at)
    } else {
        output(tokens, at)
    }
}

/// Whether a direction stands there.
pub fn is_direction(tokens: &Tokens, at: usize) -> bool
    ensures { result ≡ (stands (shapes.word (codes "input")) (from tokens.now.text tokens.now.list at) || stands (shapes.word (codes "output")) (from tokens.now.text tokens.now.list at)) }
{
    is_word(tokens, at, b"input") || is_word(tokens, at, b"output")
}

/// Ports of one direction, as yet without names.
pub fn port_header(
    alloc: Global,
    tokens: &Tokens,
    at: usize,
) -> Result<(((bool, PortWord), (bool, Option<Range>)), usize), SyntaxError>
    requires { at ≤ length tokens.now.list }
    ensures answer { Answers tokens.now.text tokens.now.list rules.port_header at result }
    ensures ahead { IfOk result (λ r. GoesOn tokens.now.list at r) }
{
    let (direction, sign) = direction(tokens, at)?;
    let (header, end) = header(alloc, tokens, sign)?;
    Ok(((direction, header), end))
}

pub fn port(alloc: Global, tokens: &Tokens, at: usize) -> Result<(Item, usize), SyntaxError>
    requires { at ≤ length tokens.now.list }
    ensures answer { Answers tokens.now.text tokens.now.list rules.port at result }
    ensures ahead { IfOk result (λ r. GoesOn tokens.now.list at r) }
{
    let (((output, word), (signed, range)), first) = port_header(alloc, tokens, at)?;
    let (names, semicolon) = list(alloc, tokens, first, &Names)?;
    let end = mark(tokens, semicolon, b";")?;
    let port = Aport {
        output,
        word,
        signed,
        range,
        names,
    };
    Ok((Item::Port(port), end))
}

fn net_name(alloc: Global, tokens: &Tokens, at: usize) -> Result<(NetName, usize), SyntaxError>
    requires { at ≤ length tokens.now.list }
    ensures answer { Answers tokens.now.text tokens.now.list rules.net_name at result }
    ensures ahead { IfOk result (λ r. GoesOn tokens.now.list at r) }
{
    let (name, equals) = ident(alloc, tokens, at)?;
    if is_mark(tokens, equals, b"=") {
        let (value, end) = value(alloc, tokens, equals + 1)?;
        Ok((
            NetName {
                name,
                value: Some(value),
            },
            end,
        ))
    } else {
        Ok((NetName { name, value: None }, equals))
    }
}

pub fn wire(alloc: Global, tokens: &Tokens, at: usize) -> Result<(Item, usize), SyntaxError>
    requires { at ≤ length tokens.now.list }
    ensures answer { Answers tokens.now.text tokens.now.list rules.wire at result }
    ensures ahead { IfOk result (λ r. GoesOn tokens.now.list at r) }
{
    let sign = word(tokens, at, b"wire")?;
    let ((signed, range), first) = header(alloc, tokens, sign)?;
    let (names, semicolon) = list(alloc, tokens, first, &NetNames)?;
    let end = mark(tokens, semicolon, b";")?;
    Ok((Item::Wire(signed, range, names), end))
}

fn reg_name(alloc: Global, tokens: &Tokens, at: usize) -> Result<(RegName, usize), SyntaxError>
    requires { at ≤ length tokens.now.list }
    ensures answer { Answers tokens.now.text tokens.now.list rules.reg_name at result }
    ensures ahead { IfOk result (λ r. GoesOn tokens.now.list at r) }
{
    let (name, bracket) = ident(alloc, tokens, at)?;
    let (bounds, end) = range_if(alloc, tokens, bracket)?;
    Ok((RegName { name, bounds }, end))
}

pub fn reg(alloc: Global, tokens: &Tokens, at: usize) -> Result<(Item, usize), SyntaxError>
    requires { at ≤ length tokens.now.list }
    ensures answer { Answers tokens.now.text tokens.now.list rules.reg at result }
    ensures ahead { IfOk result (λ r. GoesOn tokens.now.list at r) }
{
    let sign = word(tokens, at, b"reg")?;
    let ((signed, range), first) = header(alloc, tokens, sign)?;
    let (names, semicolon) = list(alloc, tokens, first, &RegNames)?;
    let end = mark(tokens, semicolon, b";")?;
    Ok((Item::Reg(signed, range, names), end))
}

/// Integers, or genvars.
pub fn index(
    alloc: Global,
    tokens: &Tokens,
    at: usize,
    genvar: bool,
    bytes: &[u8],
) -> Result<(Item, usize), SyntaxError>
    requires { at ≤ length tokens.now.list }
    ensures answer { Answers tokens.now.text tokens.now.list (rules.index genvar bytes.now) at result }
    ensures ahead { IfOk result (λ r. GoesOn tokens.now.list at r) }
{
    let first = word(tokens, at, bytes)?;
    let (names, semicolon) = list(alloc, tokens, first, &Names)?;
    let end = mark(tokens, semicolon, b";")?;
    Ok((Item::Index(genvar, names), end))
}

/// Parameters, local or not.
pub fn parameter(
    alloc: Global,
    tokens: &Tokens,
    at: usize,
    local: bool,
    bytes: &[u8],
) -> Result<(Item, usize), SyntaxError>
    requires { at ≤ length tokens.now.list }
    ensures answer { Answers tokens.now.text tokens.now.list (rules.parameter local bytes.now) at result }
    ensures ahead { IfOk result (λ r. GoesOn tokens.now.list at r) }
{
    let sign = word(tokens, at, bytes)?;
    let (params, semicolon) = params(alloc, tokens, sign)?;
    let end = mark(tokens, semicolon, b";")?;
    Ok((Item::Params(local, params), end))
}
