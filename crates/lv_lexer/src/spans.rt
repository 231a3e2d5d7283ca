ghost use Rattle.std.specs.Prelude.{◌≡◌, [], ◌∷◌, ◌++◌, IfOk, IfErr, OnOk, if◌then◌else◌};
ghost use Rattle.std.specs.Option.{option_map};
ghost use Rattle.lv_ast.specs.Tokens as tokens;
ghost use Rattle.lv_ast.specs.Folds as folds;
ghost use Rattle.lv_lexer.specs.Shown.{first_of};

use crate::bytes::split;
use crate::error::DirectiveError;
use lv_ast::{Kind, Token};
use sqlite_items::Items;
use std::alloc::Global;

/// The bytes of a token.
pub fn token_bytes(text: &[u8], token: Token) -> &[u8]
    ensures { result.now ≡ tokens.token_bytes text.now token }
{
    let start = (token.start as usize).min(text.len());
    let end = (token.end as usize).min(text.len()).max(start);
    &text[start..end]
}

fn after_first(bytes: &[u8]) -> &[u8]
    ensures { result.now ≡ tokens.tail bytes.now }
{
    match split(bytes) {
        Some((_, rest)) => rest,
        None => bytes,
    }
}

/// The bytes of a tick behind its accent.
pub fn word(text: &[u8], token: Token) -> &[u8]
    ensures { result.now ≡ folds.word_of text.now token }
{
    after_first(token_bytes(text, token))
}

pub fn is_line(kind: Kind) -> bool
    ensures { result ≡ folds.is_line kind }
{
    matches!(kind, Kind::Line)
}

pub fn is_join(kind: Kind) -> bool
    ensures { result ≡ folds.is_join kind }
{
    matches!(kind, Kind::Join)
}

pub fn is_tick(kind: Kind) -> bool
    ensures { result ≡ folds.is_tick kind }
{
    matches!(kind, Kind::Tick)
}

fn is_plain_name(kind: Kind) -> bool
    ensures { result ≡ folds.is_plain_name kind }
{
    matches!(kind, Kind::Name | Kind::Word)
}

/// How many tokens stand before the next `Line`.
pub fn line_count(after: &[Token]) -> usize
    ensures { result ≡ folds.line_count after.now }
{
    for (i, token) in after.iter().enumerate() {
        if is_line(token.kind) {
            return i;
        }
    }
    after.len()
}

/// How many tokens a name takes, with the `Join` tokens before it.
pub fn name_count(after: &[Token]) -> usize
    ensures { result ≡ folds.name_count after.now }
{
    for (i, token) in after.iter().enumerate() {
        if !is_join(token.kind) {
            return i + 1;
        }
    }
    after.len()
}

// Adds a token that is no `Join`.
fn add(line: &mut Items<Token>, token: Token) -> Result<(), DirectiveError>
    ensures ok { OnOk result (line.new ≡ line.old ++ (if folds.is_join token.kind then [] else token ∷ [])) }
    ensures err { IfErr result (λ e. e ≡ DirectiveError.NoMemory) }
{
    if is_join(token.kind) {
        return Ok(());
    }
    match line.push(token) {
        Ok(()) => Ok(()),
        Err(_) => Err(DirectiveError::NoMemory),
    }
}

/// The tokens before the next `Line`, without `Join`.
pub fn line(alloc: Global, after: &[Token]) -> Result<Items<Token>, DirectiveError>
    ensures ok { IfOk result (λ line. line ≡ folds.line_of after.now) }
    ensures err { IfErr result (λ e. e ≡ DirectiveError.NoMemory) }
{
    let mut line = Items::new(alloc);
    for token in after {
        if is_line(token.kind) {
            return Ok(line);
        }
        add(&mut line, *token)?;
    }
    Ok(line)
}

// The first token of a line, past `Join` tokens.
fn first_of_line(after: &[Token]) -> Option<Token>
    ensures { result ≡ first_of (folds.line_of after.now) }
{
    for token in after {
        if is_line(token.kind) {
            return None;
        }
        if !is_join(token.kind) {
            return Some(*token);
        }
    }
    None
}

/// The name that a directive has on its line.
pub fn line_name<'a>(text: &'a [u8], after: &[Token]) -> Option<&'a [u8]>
    ensures { option_map (λ name. name.now) result ≡ folds.head_name text.now (folds.line_of after.now) }
{
    let token = first_of_line(after)?;
    if is_plain_name(token.kind) {
        Some(token_bytes(text, token))
    } else {
        None
    }
}
