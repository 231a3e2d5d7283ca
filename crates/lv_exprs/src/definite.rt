ghost use Rattle.std.specs.Prelude.{◌≡◌, ◌≤◌, ◌<◌, ◌+◌, length, take, drop, slice_range, MatchResult};
ghost use Rattle.lv_exprs.specs.Symbols.{symbols};
ghost use Rattle.lv_exprs.specs.Answers.{ReadsLow, Refuses};
ghost use Rattle.lv_exprs.specs.Definite.{IsDefiniteRead, IsDefiniteRefused, is_free_literal};

use crate::error::SyntaxError;
use crate::read::{read, read_expr};
use lv_ast::{Expr, Token, Tokens};
use std::alloc::Global;

/// One of the tokens.
fn token_at(tokens: &[Token], at: usize) -> &[Token]
    requires { at < length tokens.now }
    ensures { result.now ≡ take 1 (drop at tokens.now) }
{
    &tokens[at..at + 1]
}

/// Reads an expression that has a value, as `read_expr` does without paths: a literal with free bits is none, so of one with a
/// size the size alone is read.
///
/// IEEE 1364-2005, sections 3.5.1, 5 and 9.5.1.
pub fn read_definite(
    alloc: Global,
    tokens: &Tokens,
    from: usize,
) -> Result<(Expr, usize), SyntaxError>
    requires { from ≤ length tokens.now.list }
    ensures { MatchResult result (λ r. IsDefiniteRead tokens.now.text tokens.now.list from r.0 r.1) (λ e. IsDefiniteRefused tokens.now.text tokens.now.list from e) }
{
    let (tree, end) = match read_expr(alloc, tokens, from, false) {
        Ok(read) => read,
        Err(error) => return Err(error),
    };
    if !has_free_bits(&tree) {
        return Ok((tree, end));
    }
    drop(tree);
    if end - from == 1 {
        return Err(SyntaxError::Syntax(from));
    }
    let size = token_at(tokens.list.as_slice(), from);
    match read(alloc, tokens.text.bytes(), size, false) {
        Ok((tree, count)) => Ok((tree, from + count)),
        Err(error) => Err(error),
    }
}

/// Whether it is a literal with free bits.
fn has_free_bits(expr: &Expr) -> bool
    ensures { result ≡ is_free_literal expr.now }
{
    match expr {
        Expr::Lit(literal) => literal.wild != 0,
        _ => false,
    }
}
