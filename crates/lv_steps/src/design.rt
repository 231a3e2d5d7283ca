//! The source that the text of a design spells.

ghost use Rattle.std.specs.Prelude.{◌≡◌, IfOk, IfErr};
ghost use Rattle.lv_steps.specs.Texts as spec;
ghost use Rattle.lv_steps.specs.Chain.{reads_source};

use crate::ended::Ended;
use lv_ast::{Source, Tokens};
use lv_exprs::SyntaxError;
use lv_lexer::{directives, lex};
use lv_parser::read_source;
use std::alloc::Global;

/// Where a token begins; behind the last one, the text's length.
fn place_at(tokens: &Tokens, number: usize) -> u64
    ensures { result ≡ spec.place_at tokens.now.text tokens.now.list number }
{
    match tokens.list.get(number) {
        Some(token) => token.start,
        None => tokens.text.bytes().len() as u64,
    }
}

/// The place of the token that a refusal tells.
fn place_of(tokens: &Tokens, error: &SyntaxError) -> u64
    ensures { result ≡ spec.place_of tokens.now.text tokens.now.list error.now }
{
    match error {
        SyntaxError::Syntax(number) | SyntaxError::Depth(number) => place_at(tokens, *number),
        SyntaxError::NoMemory => 0,
    }
}

/// The source that all tokens spell (IEEE 1364-2005, annex A).
fn spelled(alloc: Global, tokens: &Tokens) -> Result<Source, Ended>
    ensures source { IfOk result (spec.IsSpelled tokens.now.text tokens.now.list) }
    ensures refused { IfErr result (spec.IsUnspelled tokens.now.text tokens.now.list) }
{
    match read_source(alloc, tokens) {
        Ok(source) => Ok(source),
        Err(error) => {
            let place = place_of(tokens, &error);
            Err(Ended::Syntax(error, place))
        }
    }
}

/// The source that a text spells: its tokens, as its directives leave them, and their grammar (IEEE 1364-2005, sections 3 and
/// 19, annex A).
pub(crate) fn source_of(alloc: Global, text: &[u8]) -> Result<Source, Ended>
    ensures source { IfOk result (reads_source.Passes text.now) }
    ensures refused { IfErr result (reads_source.Refuses text.now) }
{
    let tokens = match lex(alloc, text) {
        Ok(tokens) => tokens,
        Err(error) => return Err(Ended::Tokens(error)),
    };
    let folded = match directives(alloc, tokens) {
        Ok(folded) => folded,
        Err(error) => return Err(Ended::Directives(error)),
    };
    spelled(alloc, &folded)
}
