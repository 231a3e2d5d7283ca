//! Modules, and the whole source (IEEE 1364-2005, annexes A.1.2 and A.1.3).

ghost use Rattle.std.specs.Prelude.{◌≤◌, length, IfOk, MatchResult};
ghost use Rattle.lv_grammar.specs.Rules as rules;
ghost use Rattle.lv_parser.specs.Answers.{Answers, AnswersItems, GoesOn, Stays, IsSource, RefusesSource};

use crate::declarations::{Names, is_direction};
use crate::groups::{declared_ports, group_list};
use crate::items::item;
use crate::lists::list;
use crate::tokens::{ident, is_mark, is_word, mark, push, word};
use lv_ast::{Item, Module, Params, Ports, Source, Tokens};
use lv_exprs::SyntaxError;
use sqlite_items::Items;
use std::alloc::Global;

fn params_in_parens(
    alloc: Global,
    tokens: &Tokens,
    at: usize,
) -> Result<(Items<Params>, usize), SyntaxError>
    requires { at ≤ length tokens.now.list }
    ensures answer { Answers tokens.now.text tokens.now.list (rules.hash rules.group_list) at result }
    ensures ahead { IfOk result (λ r. GoesOn tokens.now.list at r) }
{
    let open = mark(tokens, at, b"#")?;
    let inner = mark(tokens, open, b"(")?;
    let (list, close) = group_list(alloc, tokens, inner)?;
    let end = mark(tokens, close, b")")?;
    Ok((list, end))
}

/// The parameters of a module's header, if any.
fn module_params(
    alloc: Global,
    tokens: &Tokens,
    at: usize,
) -> Result<(Items<Params>, usize), SyntaxError>
    requires { at ≤ length tokens.now.list }
    ensures answer { Answers tokens.now.text tokens.now.list rules.module_params at result }
    ensures ahead { IfOk result (λ r. Stays tokens.now.list at r) }
{
    if is_mark(tokens, at, b"#") {
        params_in_parens(alloc, tokens, at)
    } else {
        Ok((Items::new(alloc), at))
    }
}

/// Names, or declarations.
fn port_list(alloc: Global, tokens: &Tokens, at: usize) -> Result<(Ports, usize), SyntaxError>
    requires { at ≤ length tokens.now.list }
    ensures answer { Answers tokens.now.text tokens.now.list rules.port_list at result }
    ensures ahead { IfOk result (λ r. GoesOn tokens.now.list at r) }
{
    if is_direction(tokens, at) {
        let (list, end) = declared_ports(alloc, tokens, at)?;
        Ok((Ports::Declared(list), end))
    } else {
        let (list, end) = list(alloc, tokens, at, &Names)?;
        Ok((Ports::Names(list), end))
    }
}

/// Ports, if any, up to the parenthesis that ends them.
fn ports_to_end(alloc: Global, tokens: &Tokens, at: usize) -> Result<(Ports, usize), SyntaxError>
    requires { at ≤ length tokens.now.list }
    ensures answer { Answers tokens.now.text tokens.now.list rules.ports_to_end at result }
    ensures ahead { IfOk result (λ r. GoesOn tokens.now.list at r) }
{
    if is_mark(tokens, at, b")") {
        Ok((Ports::Empty, at + 1))
    } else {
        let (ports, close) = port_list(alloc, tokens, at)?;
        let end = mark(tokens, close, b")")?;
        Ok((ports, end))
    }
}

fn module_ports(alloc: Global, tokens: &Tokens, at: usize) -> Result<(Ports, usize), SyntaxError>
    requires { at ≤ length tokens.now.list }
    ensures answer { Answers tokens.now.text tokens.now.list rules.module_ports at result }
    ensures ahead { IfOk result (λ r. Stays tokens.now.list at r) }
{
    if is_mark(tokens, at, b"(") {
        ports_to_end(alloc, tokens, at + 1)
    } else {
        Ok((Ports::Absent, at))
    }
}

/// Items up to the `endmodule` behind them.
fn items_to_end(
    alloc: Global,
    tokens: &Tokens,
    at: usize,
) -> Result<(Items<Item>, usize), SyntaxError>
    requires { at ≤ length tokens.now.list }
    ensures answer { AnswersItems 200 tokens.now.text tokens.now.list rules.items_to_end at result }
    ensures ahead { IfOk result (λ r. GoesOn tokens.now.list at r) }
{
    let mut list = Items::new(alloc);
    let mut end = at;
    'entries: while !is_word(tokens, end, b"endmodule") {
        let (more, next) = item(alloc, tokens, end)?;
        push(&mut list, more)?;
        end = next;
    }
    Ok((list, end + 1))
}

fn module(alloc: Global, tokens: &Tokens, at: usize) -> Result<(Module, usize), SyntaxError>
    requires { at ≤ length tokens.now.list }
    ensures answer { AnswersItems 200 tokens.now.text tokens.now.list rules.module_rule at result }
    ensures ahead { IfOk result (λ r. GoesOn tokens.now.list at r) }
{
    let first = word(tokens, at, b"module")?;
    let (name, hash) = ident(alloc, tokens, first)?;
    let (params, open) = module_params(alloc, tokens, hash)?;
    let (ports, semicolon) = module_ports(alloc, tokens, open)?;
    let inner = mark(tokens, semicolon, b";")?;
    let (items, end) = items_to_end(alloc, tokens, inner)?;
    let module = Module {
        name,
        params,
        ports,
        items,
    };
    Ok((module, end))
}

/// Reads the whole list of tokens.
///
/// `Syntax(k)`: some source's spelling begins with the tokens before the one with the number k, and none with those up to it,
/// or k is their count; none is spelled by the list. `Depth(k)`: some source's spelling begins with the tokens up to that one,
/// and in each such source more than 200 statements, targets or items nest, or an expression is higher than 200.
/// IEEE 1364-2005, annex A.
pub fn read_source(alloc: Global, tokens: &Tokens) -> Result<Source, SyntaxError>
    ensures { MatchResult result (λ s. IsSource tokens.now.text tokens.now.list s) (λ e. RefusesSource tokens.now.text tokens.now.list e) }
{
    let (first, mut end) = module(alloc, tokens, 0)?;
    let mut modules = Items::new(alloc);
    push(&mut modules, first)?;
    'entries: while end < tokens.list.len() {
        let (more, next) = module(alloc, tokens, end)?;
        push(&mut modules, more)?;
        end = next;
    }
    Ok(Source { modules })
}
