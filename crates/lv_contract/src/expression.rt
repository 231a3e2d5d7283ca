//! Expressions in the strings of a contract file.

ghost use Rattle.std.specs.Prelude.{◌≡◌, MatchResult};
ghost use Rattle.lv_contract.specs.Expressions.{AreTokens, IsExpression, IsUnreadAt};
ghost use Rattle.lv_contract.specs.Expressions as spec;

use lv_ast::{Expr, Tokens};
use lv_exprs::{SyntaxError, read_expr};
use lv_held::Held;
use lv_lexer::{LexError, lex};
use std::alloc::Global;

/// Why a text is not read: want of memory, or the byte at which it is no expression.
#[derive(Clone, Copy, Debug, PartialEq, Eq)]
pub(crate) enum Unread {
    NoMemory,
    At(u64),
}

fn unlexed(error: LexError) -> Unread
    ensures { result ≡ spec.unlexed error }
{
    match error {
        LexError::BadByte(place) => Unread::At(place),
        LexError::BadLiteral(place) => Unread::At(place),
        LexError::Unclosed(place) => Unread::At(place),
        LexError::TooMany(number) => Unread::At(number),
        LexError::NoMemory => Unread::NoMemory,
    }
}

/// The place of a token, or the text's length behind the last.
fn place_of(tokens: &Tokens, number: usize) -> u64
    ensures { result ≡ spec.place_of tokens.now.text tokens.now.list number }
{
    match tokens.list.get(number) {
        Some(token) => token.start,
        None => tokens.text.bytes().len() as u64,
    }
}

/// The place of a literal with free bits.
fn free_place(expr: &Expr) -> Option<u64>
    ensures { result ≡ spec.free_place expr.now }
{
    match expr {
        Expr::Lit(literal) if literal.wild != 0 => Some(literal.place),
        _ => None,
    }
}

/// The expression that all tokens spell.
fn whole(alloc: Global, tokens: &Tokens) -> Result<Held<Expr>, Unread>
    requires { AreTokens tokens.now.text tokens.now.list }
    ensures { MatchResult result (IsExpression tokens.now.text) (IsUnreadAt tokens.now.text) }
{
    match read_expr(alloc, tokens, 0, true) {
        Ok((expr, end)) => {
            if end < tokens.list.len() {
                drop(expr);
                return Err(Unread::At(place_of(tokens, end)));
            }
            match free_place(&expr) {
                Some(place) => {
                    drop(expr);
                    Err(Unread::At(place))
                }
                None => Ok(Held::new(expr)),
            }
        }
        Err(SyntaxError::Syntax(number)) => Err(Unread::At(place_of(tokens, number))),
        Err(SyntaxError::Depth(number)) => Err(Unread::At(place_of(tokens, number))),
        Err(SyntaxError::NoMemory) => Err(Unread::NoMemory),
    }
}

/// The expression that a text spells.
pub(crate) fn read_expression(alloc: Global, text: &[u8]) -> Result<Held<Expr>, Unread>
    ensures { MatchResult result (IsExpression text.now) (IsUnreadAt text.now) }
{
    match lex(alloc, text) {
        Ok(tokens) => whole(alloc, &tokens),
        Err(error) => Err(unlexed(error)),
    }
}
