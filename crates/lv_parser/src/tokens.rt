//! Tokens by their number, and names.

ghost use Rattle.std.specs.Prelude.{◌≡◌, ◌+◌, ◌^◌, ◌<◌, ◌≤◌, ◌++◌, ◌∷◌, [], length, slice_range, slice_get, IfOk, IfSome, IsTrue};
ghost use Rattle.lv_ast.specs.Tokens.{token_bytes};
ghost use Rattle.lv_grammar.specs.Lexemes.{lexeme, place_of, name_by};
ghost use Rattle.lv_grammar.specs.Shapes.{fits, stands};
ghost use Rattle.lv_grammar.specs.Shapes as shapes;
ghost use Rattle.lv_grammar.specs.Rules as rules;
ghost use Rattle.lv_parser.specs.Answers.{from, Answers, token_result, GoesOn};

use lv_ast::{Ident, Kind, Token, Tokens};
use lv_bits::{NoMemory, Text};
use lv_exprs::SyntaxError;
use lv_held::Held;
use sqlite_items::{Boxed, Items};
use std::alloc::Global;

/// The bytes of a token.
fn bytes_of(text: &[u8], token: Token) -> &[u8]
    ensures { result.now ≡ slice_range text.now token.start token.end }
{
    let end = (token.end as usize).min(text.len());
    let start = (token.start as usize).min(end);
    &text[start..end]
}

/// The token with this number.
fn token_at(tokens: &Tokens, at: usize) -> Option<Token>
    ensures value { result ≡ slice_get tokens.now.list at }
    ensures within { IfSome result (λ _. (at < length tokens.now.list) × (length tokens.now.list < 2 ^ 64)) }
{
    let list = tokens.list.as_slice();
    if at < list.len() {
        Some(list[at])
    } else {
        None
    }
}

fn fits_mark(tokens: &Tokens, token: Token, bytes: &[u8]) -> bool
    ensures { result ≡ fits (shapes.mark bytes.now) (lexeme tokens.now.text token) }
{
    match token.kind {
        Kind::Mark => bytes == bytes_of(tokens.text.bytes(), token),
        _ => false,
    }
}

fn fits_word(tokens: &Tokens, token: Token, bytes: &[u8]) -> bool
    ensures { result ≡ fits (shapes.word bytes.now) (lexeme tokens.now.text token) }
{
    match token.kind {
        Kind::Word => bytes == bytes_of(tokens.text.bytes(), token),
        _ => false,
    }
}

fn fits_name(tokens: &Tokens, token: Token) -> bool
    ensures { result ≡ fits shapes.name (lexeme tokens.now.text token) }
{
    match token.kind {
        Kind::Name | Kind::Escaped => true,
        _ => false,
    }
}

/// Whether the token with this number is this mark.
pub fn is_mark(tokens: &Tokens, at: usize, bytes: &[u8]) -> bool
    ensures answer { result ≡ stands (shapes.mark bytes.now) (from tokens.now.text tokens.now.list at) }
    ensures within { IsTrue result → (at < length tokens.now.list) × (length tokens.now.list < 2 ^ 64) }
{
    match token_at(tokens, at) {
        Some(token) => fits_mark(tokens, token, bytes),
        None => false,
    }
}

/// Whether the token with this number is this keyword.
pub fn is_word(tokens: &Tokens, at: usize, bytes: &[u8]) -> bool
    ensures answer { result ≡ stands (shapes.word bytes.now) (from tokens.now.text tokens.now.list at) }
    ensures within { IsTrue result → (at < length tokens.now.list) × (length tokens.now.list < 2 ^ 64) }
{
    match token_at(tokens, at) {
        Some(token) => fits_word(tokens, token, bytes),
        None => false,
    }
}

/// Whether the token with this number is a name.
pub fn is_name(tokens: &Tokens, at: usize) -> bool
    ensures { result ≡ stands shapes.name (from tokens.now.text tokens.now.list at) }
{
    match token_at(tokens, at) {
        Some(token) => fits_name(tokens, token),
        None => false,
    }
}

pub fn mark(tokens: &Tokens, at: usize, bytes: &[u8]) -> Result<usize, SyntaxError>
    requires { at ≤ length tokens.now.list }
    ensures answer { Answers tokens.now.text tokens.now.list (rules.mark bytes.now) at (token_result tokens.now.text tokens.now.list at result) }
    ensures ahead { IfOk result (λ end. (end ≡ at + 1) × (end ≤ length tokens.now.list)) }
{
    if is_mark(tokens, at, bytes) {
        Ok(at + 1)
    } else {
        Err(SyntaxError::Syntax(at))
    }
}

pub fn word(tokens: &Tokens, at: usize, bytes: &[u8]) -> Result<usize, SyntaxError>
    requires { at ≤ length tokens.now.list }
    ensures answer { Answers tokens.now.text tokens.now.list (rules.word bytes.now) at (token_result tokens.now.text tokens.now.list at result) }
    ensures ahead { IfOk result (λ end. (end ≡ at + 1) × (end ≤ length tokens.now.list)) }
{
    if is_word(tokens, at, bytes) {
        Ok(at + 1)
    } else {
        Err(SyntaxError::Syntax(at))
    }
}

/// The place of the token with this number; 0 where there is none.
pub fn place(tokens: &Tokens, at: usize) -> u64
    ensures { result ≡ place_of (from tokens.now.text tokens.now.list at) }
{
    match token_at(tokens, at) {
        Some(token) => token.start,
        None => 0,
    }
}

/// An escaped name is without its backslash.
fn name_of(tokens: &Tokens, token: Token) -> &[u8]
    ensures { result.now ≡ name_by token.kind (token_bytes tokens.now.text token) }
{
    let bytes = bytes_of(tokens.text.bytes(), token);
    match (token.kind, bytes) {
        (Kind::Escaped, [_, name @ ..]) => name,
        _ => bytes,
    }
}

pub fn ident(alloc: Global, tokens: &Tokens, at: usize) -> Result<(Ident, usize), SyntaxError>
    requires { at ≤ length tokens.now.list }
    ensures answer { Answers tokens.now.text tokens.now.list rules.ident at result }
    ensures ahead { IfOk result (λ r. GoesOn tokens.now.list at r) }
{
    let Some(token) = token_at(tokens, at) else {
        return Err(SyntaxError::Syntax(at));
    };
    if !fits_name(tokens, token) {
        return Err(SyntaxError::Syntax(at));
    }
    let name = Text::new(alloc, name_of(tokens, token))?;
    let place = token.start;
    Ok((Ident { name, place }, at + 1))
}

pub fn push<T: Drop>(list: &mut Items<T>, item: T) -> Result<(), NoMemory>
    ensures { IfOk result (λ _. list.new ≡ list.old ++ item ∷ []) }
{
    list.push(item)?;
    Ok(())
}

pub fn boxed<T: Drop>(alloc: Global, item: T) -> Result<Boxed<T>, NoMemory>
    ensures { IfOk result (λ b. b ≡ item) }
{
    Ok(Boxed::new(alloc, item)?)
}

/// What is read, held.
pub fn held<T>(read: Result<(T, usize), SyntaxError>) -> Result<(Held<T>, usize), SyntaxError>
    ensures { result ≡ read }
{
    match read {
        Ok((tree, end)) => Ok((Held::new(tree), end)),
        Err(error) => Err(error),
    }
}

/// What is read, as it is.
pub fn unheld<T>(read: Result<(Held<T>, usize), SyntaxError>) -> Result<(T, usize), SyntaxError>
    ensures { result ≡ read }
{
    match read {
        Ok((tree, end)) => Ok((tree.into_inner(), end)),
        Err(error) => Err(error),
    }
}
