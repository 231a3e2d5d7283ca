ghost use Rattle.std.specs.Prelude.{◌≡◌, ◌≤◌, ◌<◌, ◌⊎◌, length, drop, cond, MatchResult};
ghost use Rattle.lv_exprs.specs.Symbols.{symbols};
ghost use Rattle.lv_exprs.specs.Answers.{ReadsLow, Refuses, IsRead, IsRefused};
ghost use Rattle.lv_exprs.specs.Steps as step;

use crate::build::into_tree;
use crate::classify::symbol;
use crate::error::SyntaxError;
use crate::operand::{Operand, Standing, Step};
use crate::stack::Stack;
use crate::steps::{finish, is_high, take};
use lv_ast::{Expr, Token, Tokens};
use std::alloc::Global;

/// Expressions are no higher.
const LIMIT: u32 = 200;

/// An operand that is an expression, where it is no higher than the limit.
fn done(alloc: Global, x: Operand, at: usize) -> Result<(Expr, usize), SyntaxError>
    ensures { MatchResult result (λ r. (r ≡ (step.tree_of x.content, at)) × (x.reach ≤ 200))
        (λ e. (e ≡ SyntaxError.NoMemory) ⊎ ((e ≡ SyntaxError.Depth at) × (200 < x.reach))) }
{
    let Operand { content, reach } = x;
    if LIMIT < reach {
        drop(content);
        return Err(SyntaxError::Depth(at));
    }
    let tree = into_tree(alloc, content)?;
    Ok((tree.into_inner(), at))
}

/// The limit while reading: with paths a dot may still take one away.
fn limit_of(paths: bool) -> u32
    ensures { result ≡ cond paths 201 200 }
{
    if paths { LIMIT + 1 } else { LIMIT }
}

/// Reads from the first of the tokens.
pub fn read(
    alloc: Global,
    text: &[u8],
    tokens: &[Token],
    paths: bool,
) -> Result<(Expr, usize), SyntaxError>
    ensures { MatchResult result (λ r. ReadsLow text.now paths (symbols text.now tokens.now) r.1 r.0) (λ e. Refuses text.now paths (symbols text.now tokens.now) e) }
{
    let limit = limit_of(paths);
    let mut stack = Stack::new(alloc);
    let mut standing = Standing::Want;
    let mut at = 0;
    while at < tokens.len() {
        match take(
            alloc,
            text,
            paths,
            &mut stack,
            standing,
            symbol(text, tokens[at]),
        )? {
            Step::Next(other) => standing = other,
            Step::Whole(literal) => return Ok((Expr::Lit(literal), at + 1)),
            Step::Done(x) => return done(alloc, x, at),
            Step::Bad => return Err(SyntaxError::Syntax(at)),
        }
        if is_high(&stack, &standing, limit) {
            drop(standing);
            return Err(SyntaxError::Depth(at));
        }
        at += 1;
    }
    match finish(alloc, stack, standing)? {
        None => Err(SyntaxError::Syntax(at)),
        Some(x) => done(alloc, x, at),
    }
}

/// The tokens from one on.
fn tokens_from(tokens: &[Token], from: usize) -> &[Token]
    requires { from ≤ length tokens.now }
    ensures { result.now ≡ drop from tokens.now }
{
    &tokens[from..]
}

/// Reads as many tokens from the token with the number `from` on as begin the spelling of an expression, and gives its tree
/// and the number of the token behind it. `paths` says whether names may have the steps of a path before them.
///
/// `Syntax` and `Depth` say why nothing is read, with the number of a token. IEEE 1364-2005, section 5 and annex A.8.
pub fn read_expr(
    alloc: Global,
    tokens: &Tokens,
    from: usize,
    paths: bool,
) -> Result<(Expr, usize), SyntaxError>
    requires { from ≤ length tokens.now.list }
    ensures { MatchResult result (λ r. IsRead tokens.now.text tokens.now.list paths from r.0 r.1) (λ e. IsRefused tokens.now.text tokens.now.list paths from e) }
{
    let rest = tokens_from(tokens.list.as_slice(), from);
    match read(alloc, tokens.text.bytes(), rest, paths) {
        Ok((tree, end)) => Ok((tree, from + end)),
        Err(SyntaxError::Syntax(at)) => Err(SyntaxError::Syntax(from + at)),
        Err(SyntaxError::Depth(at)) => Err(SyntaxError::Depth(from + at)),
        Err(SyntaxError::NoMemory) => Err(SyntaxError::NoMemory),
    }
}
