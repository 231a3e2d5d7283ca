//! The lists of a module's header: entries with commas between them, of which each may begin a new group
//! (IEEE 1364-2005, annex A.1.3).

ghost use Rattle.std.specs.Prelude.{◌≡◌, ◌≤◌, ◌++◌, ◌∷◌, [], length, IfOk};
ghost use Rattle.lv_grammars.specs.Grammar.{perhaps, both};
ghost use Rattle.lv_grammar.specs.Rules as rules;
ghost use Rattle.lv_parser.specs.Answers.{Answers, GoesOn};
ghost use Rattle.lv_parser.specs.Steps.{closed, grown, params_parts, port_parts};

use crate::declarations::{header, is_direction, port_header, setting};
use crate::tokens::{ident, is_mark, is_word, push, word};
use lv_ast::{Aport, Ident, Params, PortWord, Range, Setting, Tokens};
use lv_bits::NoMemory;
use lv_exprs::SyntaxError;
use sqlite_items::Items;
use std::alloc::Global;

fn params_header(
    alloc: Global,
    tokens: &Tokens,
    at: usize,
) -> Result<((bool, Option<Range>), usize), SyntaxError>
    requires { at ≤ length tokens.now.list }
    ensures answer { Answers tokens.now.text tokens.now.list rules.params_header at result }
    ensures ahead { IfOk result (λ r. GoesOn tokens.now.list at r) }
{
    let sign = word(tokens, at, b"parameter")?;
    header(alloc, tokens, sign)
}

fn params_entry(
    alloc: Global,
    tokens: &Tokens,
    at: usize,
) -> Result<((Option<(bool, Option<Range>)>, Setting), usize), SyntaxError>
    requires { at ≤ length tokens.now.list }
    ensures answer { Answers tokens.now.text tokens.now.list (both (perhaps rules.params_header) rules.setting) at result }
    ensures ahead { IfOk result (λ r. GoesOn tokens.now.list at r) }
{
    if is_word(tokens, at, b"parameter") {
        let (header, name) = params_header(alloc, tokens, at)?;
        let (setting, end) = setting(alloc, tokens, name)?;
        Ok(((Some(header), setting), end))
    } else {
        let (alone, end) = setting(alloc, tokens, at)?;
        Ok(((None, alone), end))
    }
}

fn new_params(
    alloc: Global,
    header: (bool, Option<Range>),
    first: Setting,
) -> Result<Params, NoMemory>
    ensures { IfOk result (λ p. p ≡ rules.params_of header (first ∷ [])) }
{
    let (signed, range) = header;
    let mut list = Items::new(alloc);
    push(&mut list, first)?;
    Ok(Params {
        signed,
        range,
        list,
    })
}

/// One more entry: a new group where it has a header, else the last group goes on.
fn add_setting(
    alloc: Global,
    done: &mut Items<Params>,
    last: Params,
    entry: (Option<(bool, Option<Range>)>, Setting),
) -> Result<Params, NoMemory>
    ensures { IfOk result (λ p. (done.new ≡ done.old ++ closed last entry.0) × (p ≡ grown rules.params_of params_parts last entry)) }
{
    let (header, setting) = entry;
    match header {
        Some(header) => {
            push(done, last)?;
            new_params(alloc, header, setting)
        }
        None => {
            let (signed, range, mut list) = last.into_parts();
            push(&mut list, setting)?;
            Ok(Params {
                signed,
                range,
                list,
            })
        }
    }
}

/// Groups of parameters.
pub fn group_list(
    alloc: Global,
    tokens: &Tokens,
    at: usize,
) -> Result<(Items<Params>, usize), SyntaxError>
    requires { at ≤ length tokens.now.list }
    ensures answer { Answers tokens.now.text tokens.now.list rules.group_list at result }
    ensures ahead { IfOk result (λ r. GoesOn tokens.now.list at r) }
{
    let (header, name) = params_header(alloc, tokens, at)?;
    let (first, mut end) = setting(alloc, tokens, name)?;
    let mut last = new_params(alloc, header, first)?;
    let mut done = Items::new(alloc);
    'entries: while is_mark(tokens, end, b",") {
        let (entry, next) = params_entry(alloc, tokens, end + 1)?;
        last = add_setting(alloc, &mut done, last, entry)?;
        end = next;
    }
    push(&mut done, last)?;
    Ok((done, end))
}

fn port_entry(
    alloc: Global,
    tokens: &Tokens,
    at: usize,
) -> Result<
    (
        (Option<((bool, PortWord), (bool, Option<Range>))>, Ident),
        usize,
    ),
    SyntaxError,
>
    requires { at ≤ length tokens.now.list }
    ensures answer { Answers tokens.now.text tokens.now.list (both (perhaps rules.port_header) rules.ident) at result }
    ensures ahead { IfOk result (λ r. GoesOn tokens.now.list at r) }
{
    if is_direction(tokens, at) {
        let (header, name) = port_header(alloc, tokens, at)?;
        let (ident, end) = ident(alloc, tokens, name)?;
        Ok(((Some(header), ident), end))
    } else {
        let (alone, end) = ident(alloc, tokens, at)?;
        Ok(((None, alone), end))
    }
}

fn new_port(
    alloc: Global,
    header: ((bool, PortWord), (bool, Option<Range>)),
    first: Ident,
) -> Result<Aport, NoMemory>
    ensures { IfOk result (λ p. p ≡ rules.aport_of header (first ∷ [])) }
{
    let ((output, word), (signed, range)) = header;
    let mut names = Items::new(alloc);
    push(&mut names, first)?;
    Ok(Aport {
        output,
        word,
        signed,
        range,
        names,
    })
}

/// One more entry: a new group where it has a header, else the last group goes on.
fn add_port(
    alloc: Global,
    done: &mut Items<Aport>,
    last: Aport,
    entry: (Option<((bool, PortWord), (bool, Option<Range>))>, Ident),
) -> Result<Aport, NoMemory>
    ensures { IfOk result (λ p. (done.new ≡ done.old ++ closed last entry.0) × (p ≡ grown rules.aport_of port_parts last entry)) }
{
    let (header, name) = entry;
    match header {
        Some(header) => {
            push(done, last)?;
            new_port(alloc, header, name)
        }
        None => {
            let (((output, word), (signed, range)), mut names) = last.into_parts();
            push(&mut names, name)?;
            Ok(Aport {
                output,
                word,
                signed,
                range,
                names,
            })
        }
    }
}

/// Ports that are declared in the list.
pub fn declared_ports(
    alloc: Global,
    tokens: &Tokens,
    at: usize,
) -> Result<(Items<Aport>, usize), SyntaxError>
    requires { at ≤ length tokens.now.list }
    ensures answer { Answers tokens.now.text tokens.now.list rules.declared_ports at result }
    ensures ahead { IfOk result (λ r. GoesOn tokens.now.list at r) }
{
    let (header, name) = port_header(alloc, tokens, at)?;
    let (first, mut end) = ident(alloc, tokens, name)?;
    let mut last = new_port(alloc, header, first)?;
    let mut done = Items::new(alloc);
    'entries: while is_mark(tokens, end, b",") {
        let (entry, next) = port_entry(alloc, tokens, end + 1)?;
        last = add_port(alloc, &mut done, last, entry)?;
        end = next;
    }
    push(&mut done, last)?;
    Ok((done, end))
}
