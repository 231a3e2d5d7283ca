//! What an assignment writes (IEEE 1364-2005, annex A.8.5).

ghost use Rattle.std.specs.Prelude.{◌≡◌, ◌≤◌, ◌<◌, length, IfOk, cond};
ghost use Rattle.lv_grammars.specs.Grammar.{call};
ghost use Rattle.lv_grammar.specs.Shapes as shapes;
ghost use Rattle.lv_grammar.specs.Rules as rules;
ghost use Rattle.lv_parser.specs.Answers.{from, leads, AnswersTargets, placed_result, GoesOn};

use crate::exprs::named;
use crate::tokens::{is_mark, is_name, mark, push};
use lv_ast::{Target, Tokens};
use lv_exprs::SyntaxError;
use sqlite_items::Items;
use std::alloc::Global;

/// So many may nest.
pub const LIMIT: u32 = 200;

/// What is told where no more may nest: a limit is passed where one begins.
pub fn refused(begins: bool, at: usize) -> SyntaxError
    ensures { result ≡ cond begins (SyntaxError.Depth at) (SyntaxError.Syntax at) }
{
    if begins {
        SyntaxError::Depth(at)
    } else {
        SyntaxError::Syntax(at)
    }
}

pub fn begins_target(tokens: &Tokens, at: usize) -> bool
    ensures { result ≡ leads shapes.target (from tokens.now.text tokens.now.list at) }
{
    is_name(tokens, at) || is_mark(tokens, at, b"{")
}

/// Targets with commas between them.
#[cycle(targets)]
fn targets(
    alloc: Global,
    tokens: &Tokens,
    at: usize,
    left: u32,
) -> Result<(Items<Target>, usize), SyntaxError>
    requires place { at ≤ length tokens.now.list }
    requires room { 0 < left }
    ensures answer { AnswersTargets left tokens.now.text tokens.now.list rules.targets at result }
    ensures ahead { IfOk result (λ r. GoesOn tokens.now.list at r) }
{
    let (first, mut end) = target(alloc, tokens, at, left)?;
    let mut list = Items::new(alloc);
    push(&mut list, first)?;
    'entries: while is_mark(tokens, end, b",") {
        let (more, next) = target(alloc, tokens, end + 1, left)?;
        push(&mut list, more)?;
        end = next;
    }
    Ok((list, end))
}

#[cycle(targets)]
fn joined(
    alloc: Global,
    tokens: &Tokens,
    at: usize,
    left: u32,
) -> Result<(Target, usize), SyntaxError>
    requires place { at ≤ length tokens.now.list }
    requires room { 0 < left }
    ensures answer { AnswersTargets left tokens.now.text tokens.now.list rules.joined at (placed_result tokens.now.text tokens.now.list at result) }
    ensures ahead { IfOk result (λ r. GoesOn tokens.now.list at r) }
{
    let first = mark(tokens, at, b"{")?;
    let (list, brace) = targets(alloc, tokens, first, left)?;
    let end = mark(tokens, brace, b"}")?;
    Ok((Target::Cat(list), end))
}

/// A target in which so many may nest, itself one of them.
#[cycle(targets)]
pub fn target(
    alloc: Global,
    tokens: &Tokens,
    at: usize,
    left: u32,
) -> Result<(Target, usize), SyntaxError>
    requires place { at ≤ length tokens.now.list }
    requires room { 0 < left }
    ensures answer { AnswersTargets left tokens.now.text tokens.now.list (call shapes.target) at (placed_result tokens.now.text tokens.now.list at result) }
    ensures ahead { IfOk result (λ r. GoesOn tokens.now.list at r) }
{
    if is_mark(tokens, at, b"{") {
        if left == 1 {
            return Err(SyntaxError::Depth(at));
        }
        return joined(alloc, tokens, at, left - 1);
    }
    let ((path, selects), end) = named(alloc, tokens, at)?;
    Ok((Target::Name(path, selects), end))
}
