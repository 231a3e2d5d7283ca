//! The status and the text of each answer.

ghost use Rattle.std.specs.Prelude.{◌≡◌, ◌++◌, length, flat_map, decimal, codes, IfOk, OnOk};
ghost use Rattle.lv_run.specs.Texts as spec;
ghost use Rattle.lv_run.specs.Texts.{IsTold, line, keep_line, accepted_text, placed};

use crate::answer::Answer;
use lv_bits::{NoMemory, Text};
use lv_contract::ContractError;
use lv_exprs::SyntaxError;
use lv_first::Verdict;
use lv_lexer::{DirectiveError, LexError};
use lv_steps::{Ended, Unread};
use std::alloc::Global;

/// An exit status and a text.
#[derive(Drop)]
pub(crate) struct Message {
    pub(crate) code: u8,
    pub(crate) text: Vec<u8>,
}

fn push_line(text: &mut Vec<u8>, start: &[u8], rest: &[u8]) -> Result<(), NoMemory>
    ensures { OnOk result (text.new.items ≡ text.old.items ++ line (start.now ++ rest.now)) }
{
    text.extend_from_slice(start)?;
    text.extend_from_slice(rest)?;
    text.extend_from_slice(b"\n")?;
    Ok(())
}

fn says(alloc: Global, code: u8, start: &[u8], rest: &[u8]) -> Result<Message, NoMemory>
    ensures { IfOk result (IsTold (spec.says code (start.now ++ rest.now))) }
{
    let mut text = Vec::new(alloc);
    push_line(&mut text, start, rest)?;
    Ok(Message { code, text })
}

fn push_kept(text: &mut Vec<u8>, registers: &[Text]) -> Result<(), NoMemory>
    ensures { OnOk result (text.new.items ≡ text.old.items ++ flat_map keep_line registers.now) }
{
    for register in registers {
        push_line(text, b"keep eq ", register.bytes())?;
    }
    Ok(())
}

/// The number in decimal.
fn decimal_of(alloc: Global, number: u64) -> Result<Vec<u8>, NoMemory>
    ensures { IfOk result (λ text. text.items ≡ decimal number) }
{
    let text = format!(in alloc; "{number}")?;
    Ok(text.into_bytes())
}

fn numbered(alloc: Global, start: &[u8], number: u64) -> Result<Message, NoMemory>
    ensures { IfOk result (IsTold (spec.says 3 (start.now ++ decimal number))) }
{
    let number = decimal_of(alloc, number)?;
    says(alloc, 3, start, &number)
}

/// Two numbers with a space between.
fn numbers_of(alloc: Global, number: u64, place: u64) -> Result<Vec<u8>, NoMemory>
    ensures { IfOk result (λ text. text.items ≡ placed number place) }
{
    let mut text = decimal_of(alloc, number)?;
    let place = decimal_of(alloc, place)?;
    text.extend_from_slice(b" ")?;
    text.extend_from_slice(&place)?;
    Ok(text)
}

/// The number of a token, and its place.
fn located(alloc: Global, start: &[u8], number: u64, place: u64) -> Result<Message, NoMemory>
    ensures { IfOk result (IsTold (spec.says 3 (start.now ++ placed number place))) }
{
    let numbers = numbers_of(alloc, number, place)?;
    says(alloc, 3, start, &numbers)
}

/// The key, the entry and the byte of a text that spells no expression.
fn unread_entry(alloc: Global, key: &Text, entry: u64, byte: u64) -> Result<Message, NoMemory>
    ensures { IfOk result (IsTold (spec.says 3 (codes "refused expr " ++ (key.now ++ codes " " ++ placed entry byte)))) }
{
    let numbers = numbers_of(alloc, entry, byte)?;
    let mut rest = Vec::new(alloc);
    rest.extend_from_slice(key.bytes())?;
    rest.extend_from_slice(b" ")?;
    rest.extend_from_slice(&numbers)?;
    says(alloc, 3, b"refused expr ", &rest)
}

fn accepted(alloc: Global, lookahead: u32, registers: &[Text]) -> Result<Message, NoMemory>
    ensures { IfOk result (IsTold (record { code = 0; text = accepted_text lookahead registers.now })) }
{
    let lookahead = decimal_of(alloc, lookahead as u64)?;
    let count = decimal_of(alloc, registers.len() as u64 + 1)?;
    let mut text = Vec::new(alloc);
    push_line(&mut text, b"accepted", b"")?;
    push_line(&mut text, b"lookahead ", &lookahead)?;
    push_line(&mut text, b"kept ", &count)?;
    push_kept(&mut text, registers)?;
    push_line(&mut text, b"keep aligned", b"")?;
    Ok(Message { code: 0, text })
}

fn told_of_file(alloc: Global, unread: &Unread) -> Result<Message, NoMemory>
    ensures { IfOk result (IsTold (spec.told_of_file unread.now)) }
{
    match unread {
        Unread::Missing(name) => says(alloc, 3, b"refused missing ", name.bytes()),
        Unread::TooLong(name) => says(alloc, 3, b"refused long ", name.bytes()),
        Unread::Failed(name) => says(alloc, 6, b"fault read ", name.bytes()),
        Unread::NoMemory => Err(NoMemory),
    }
}

fn told_of_contract(alloc: Global, error: &ContractError) -> Result<Message, NoMemory>
    ensures { IfOk result (IsTold (spec.told_of_contract error.now)) }
{
    match error {
        ContractError::Toml => says(alloc, 3, b"refused toml", b""),
        ContractError::Key(key) => says(alloc, 3, b"refused key ", key.bytes()),
        ContractError::Value(key) => says(alloc, 3, b"refused value ", key.bytes()),
        ContractError::Expr(key, entry, byte) => unread_entry(alloc, key, *entry, *byte),
        ContractError::NoMemory => Err(NoMemory),
    }
}

fn told_of_tokens(alloc: Global, error: &LexError) -> Result<Message, NoMemory>
    ensures { IfOk result (IsTold (spec.told_of_tokens error.now)) }
{
    match error {
        LexError::BadByte(place) => numbered(alloc, b"refused byte ", *place),
        LexError::BadLiteral(place) => numbered(alloc, b"refused literal ", *place),
        LexError::Unclosed(place) => numbered(alloc, b"refused unclosed ", *place),
        LexError::TooMany(count) => numbered(alloc, b"refused tokens ", *count),
        LexError::NoMemory => Err(NoMemory),
    }
}

fn told_of_directives(alloc: Global, error: &DirectiveError) -> Result<Message, NoMemory>
    ensures { IfOk result (IsTold (spec.told_of_directives error.now)) }
{
    match error {
        DirectiveError::UnknownMacro(place) => numbered(alloc, b"refused macro ", *place),
        DirectiveError::Unbalanced(place) => numbered(alloc, b"refused unbalanced ", *place),
        DirectiveError::Malformed(place) => numbered(alloc, b"refused malformed ", *place),
        DirectiveError::Depth(place) => numbered(alloc, b"refused macro-depth ", *place),
        DirectiveError::TooMany(count) => numbered(alloc, b"refused tokens ", *count),
        DirectiveError::NoMemory => Err(NoMemory),
    }
}

fn told_of_syntax(alloc: Global, error: &SyntaxError, place: u64) -> Result<Message, NoMemory>
    ensures { IfOk result (IsTold (spec.told_of_syntax error.now place)) }
{
    match error {
        SyntaxError::Syntax(number) => located(alloc, b"refused syntax ", *number as u64, place),
        SyntaxError::Depth(number) => located(alloc, b"refused depth ", *number as u64, place),
        SyntaxError::NoMemory => Err(NoMemory),
    }
}

fn told_of_end(alloc: Global, ended: &Ended) -> Result<Message, NoMemory>
    ensures { IfOk result (IsTold (spec.told_of_end ended.now)) }
{
    match ended {
        Ended::File(unread) => told_of_file(alloc, unread),
        Ended::Contract(error) => told_of_contract(alloc, error),
        Ended::Source(count) => numbered(alloc, b"refused limit source ", *count),
        Ended::Tokens(error) => told_of_tokens(alloc, error),
        Ended::Directives(error) => told_of_directives(alloc, error),
        Ended::Syntax(error, place) => told_of_syntax(alloc, error, *place),
        Ended::NoMemory => Err(NoMemory),
    }
}

fn told_of_verdict(alloc: Global, verdict: &Verdict) -> Result<Message, NoMemory>
    ensures { IfOk result (IsTold (spec.told_of_verdict verdict.now)) }
{
    match verdict {
        Verdict::Proved(lookahead, registers) => accepted(alloc, *lookahead, registers.as_slice()),
        Verdict::Unproved => says(alloc, 1, b"unproved", b""),
        Verdict::Other => says(alloc, 3, b"refused unbuilt", b""),
    }
}

fn printed(alloc: Global, text: &Text) -> Result<Message, NoMemory>
    ensures { IfOk result (IsTold (record { code = 0; text = text.now })) }
{
    let text = Vec::from_slice(alloc, text.bytes())?;
    Ok(Message { code: 0, text })
}

/// The status and the text of an answer.
pub(crate) fn told(alloc: Global, answer: &Answer) -> Result<Message, NoMemory>
    ensures { IfOk result (IsTold (spec.told_of answer.now)) }
{
    match answer {
        Answer::Judged(verdict) => told_of_verdict(alloc, verdict),
        Answer::Printed(text) => printed(alloc, text),
        Answer::Ended(ended) => told_of_end(alloc, ended),
        Answer::Usage => says(alloc, 2, b"usage: leave MODE FILE [--out NAME]", b""),
        Answer::NoMemory => Err(NoMemory),
    }
}
