//! Items of modules and of generate blocks (IEEE 1364-2005, annexes A.1.4 and A.4.2).

ghost use Rattle.std.specs.Prelude.{◌≡◌, ◌≤◌, ◌<◌, ◌^◌, ◌||◌, codes, length, IfOk, IsTrue};
ghost use Rattle.lv_grammars.specs.Grammar.{call};
ghost use Rattle.lv_grammar.specs.Shapes.{stands};
ghost use Rattle.lv_grammar.specs.Shapes as shapes;
ghost use Rattle.lv_grammar.specs.Rules as rules;
ghost use Rattle.lv_parser.specs.Answers.{from, leads, Answers, AnswersTargets, AnswersStmts, AnswersItems, GoesOn};

use crate::conns::instance;
use crate::declarations::{index, is_direction, parameter, port, reg, wire};
use crate::exprs::value;
use crate::statements::{loop_head, stmt};
use crate::targets::{LIMIT, refused, target};
use crate::tokens::{ident, is_mark, is_name, is_word, mark, place, push, word};
use lv_ast::{Continuous, Ident, Item, Tokens, Watch};
use lv_exprs::SyntaxError;
use lv_grammar::Head;
use sqlite_items::Items;
use std::alloc::Global;

fn continuous(alloc: Global, tokens: &Tokens, at: usize) -> Result<(Continuous, usize), SyntaxError>
    requires { at ≤ length tokens.now.list }
    ensures answer { AnswersTargets 200 tokens.now.text tokens.now.list rules.continuous at result }
    ensures ahead { IfOk result (λ r. GoesOn tokens.now.list at r) }
{
    let (target, equals) = target(alloc, tokens, at, LIMIT)?;
    let right = mark(tokens, equals, b"=")?;
    let (value, end) = value(alloc, tokens, right)?;
    let assigned = Continuous {
        target,
        value,
        place: place(tokens, at),
    };
    Ok((assigned, end))
}

fn continuous_list(
    alloc: Global,
    tokens: &Tokens,
    at: usize,
) -> Result<(Items<Continuous>, usize), SyntaxError>
    requires { at ≤ length tokens.now.list }
    ensures answer { AnswersTargets 200 tokens.now.text tokens.now.list (rules.list rules.continuous) at result }
    ensures ahead { IfOk result (λ r. GoesOn tokens.now.list at r) }
{
    let (first, mut end) = continuous(alloc, tokens, at)?;
    let mut list = Items::new(alloc);
    push(&mut list, first)?;
    'entries: while is_mark(tokens, end, b",") {
        let (more, next) = continuous(alloc, tokens, end + 1)?;
        push(&mut list, more)?;
        end = next;
    }
    Ok((list, end))
}

fn assign(alloc: Global, tokens: &Tokens, at: usize) -> Result<(Item, usize), SyntaxError>
    requires { at ≤ length tokens.now.list }
    ensures answer { AnswersTargets 200 tokens.now.text tokens.now.list rules.assign at result }
    ensures ahead { IfOk result (λ r. GoesOn tokens.now.list at r) }
{
    let first = word(tokens, at, b"assign")?;
    let (list, semicolon) = continuous_list(alloc, tokens, first)?;
    let end = mark(tokens, semicolon, b";")?;
    Ok((Item::Assign(list), end))
}

fn star(tokens: &Tokens, at: usize) -> Result<(Watch, usize), SyntaxError>
    requires { at ≤ length tokens.now.list }
    ensures answer { Answers tokens.now.text tokens.now.list rules.closed_star at result }
    ensures ahead { IfOk result (λ r. GoesOn tokens.now.list at r) }
{
    let close = mark(tokens, at, b"*")?;
    let end = mark(tokens, close, b")")?;
    Ok((Watch::Closed, end))
}

fn edge(alloc: Global, tokens: &Tokens, at: usize) -> Result<(Watch, usize), SyntaxError>
    requires { at ≤ length tokens.now.list }
    ensures answer { Answers tokens.now.text tokens.now.list rules.edge at result }
    ensures ahead { IfOk result (λ r. GoesOn tokens.now.list at r) }
{
    let clock = word(tokens, at, b"posedge")?;
    let (name, close) = ident(alloc, tokens, clock)?;
    let end = mark(tokens, close, b")")?;
    Ok((Watch::Posedge(name), end))
}

fn event_inside(alloc: Global, tokens: &Tokens, at: usize) -> Result<(Watch, usize), SyntaxError>
    requires { at ≤ length tokens.now.list }
    ensures answer { Answers tokens.now.text tokens.now.list rules.event_inside at result }
    ensures ahead { IfOk result (λ r. GoesOn tokens.now.list at r) }
{
    if is_mark(tokens, at, b"*") {
        star(tokens, at)
    } else {
        edge(alloc, tokens, at)
    }
}

fn event(alloc: Global, tokens: &Tokens, at: usize) -> Result<(Watch, usize), SyntaxError>
    requires { at ≤ length tokens.now.list }
    ensures answer { Answers tokens.now.text tokens.now.list rules.event at result }
    ensures ahead { IfOk result (λ r. GoesOn tokens.now.list at r) }
{
    if is_mark(tokens, at, b"*") {
        return Ok((Watch::Star, at + 1));
    }
    let inner = mark(tokens, at, b"(")?;
    event_inside(alloc, tokens, inner)
}

fn always(alloc: Global, tokens: &Tokens, at: usize) -> Result<(Item, usize), SyntaxError>
    requires { at ≤ length tokens.now.list }
    ensures answer { AnswersStmts 200 tokens.now.text tokens.now.list rules.always at result }
    ensures ahead { IfOk result (λ r. GoesOn tokens.now.list at r) }
{
    let sign = word(tokens, at, b"always")?;
    let watched = mark(tokens, sign, b"@")?;
    let (watch, first) = event(alloc, tokens, watched)?;
    let (body, end) = stmt(alloc, tokens, first, LIMIT)?;
    Ok((Item::Always(watch, body, place(tokens, at)), end))
}

/// Whether the keyword stands there that ends a generate block, of a loop or of a region.
fn is_block_end(tokens: &Tokens, at: usize, looped: bool) -> bool
    ensures answer { result ≡ stands (shapes.word (rules.block_end looped)) (from tokens.now.text tokens.now.list at) }
    ensures within { IsTrue result → (at < length tokens.now.list) × (length tokens.now.list < 2 ^ 64) }
{
    if looped {
        is_word(tokens, at, b"end")
    } else {
        is_word(tokens, at, b"endgenerate")
    }
}

/// The keyword that ends a generate block, of a loop or of a region, in which no item may nest.
fn no_items(
    alloc: Global,
    tokens: &Tokens,
    at: usize,
    looped: bool,
) -> Result<(Items<Item>, usize), SyntaxError>
    requires { at ≤ length tokens.now.list }
    ensures answer { AnswersItems 0 tokens.now.text tokens.now.list (rules.block_items (rules.block_end looped)) at result }
    ensures ahead { IfOk result (λ r. GoesOn tokens.now.list at r) }
{
    if is_block_end(tokens, at, looped) {
        Ok((Items::new(alloc), at + 1))
    } else {
        Err(refused(begins_block_item(tokens, at), at))
    }
}

/// Items of a generate block, of a loop or of a region, up to the keyword that ends it.
#[cycle(items)]
fn block_items(
    alloc: Global,
    tokens: &Tokens,
    at: usize,
    left: u32,
    looped: bool,
) -> Result<(Items<Item>, usize), SyntaxError>
    requires { at ≤ length tokens.now.list }
    ensures answer { AnswersItems left tokens.now.text tokens.now.list (rules.block_items (rules.block_end looped)) at result }
    ensures ahead { IfOk result (λ r. GoesOn tokens.now.list at r) }
{
    if left == 0 {
        return no_items(alloc, tokens, at, looped);
    }
    let mut list = Items::new(alloc);
    let mut end = at;
    'entries: while !is_block_end(tokens, end, looped) {
        let (more, next) = block_item(alloc, tokens, end, left)?;
        push(&mut list, more)?;
        end = next;
    }
    Ok((list, end + 1))
}

fn generate(
    alloc: Global,
    tokens: &Tokens,
    at: usize,
    left: u32,
) -> Result<(Item, usize), SyntaxError>
    requires { at ≤ length tokens.now.list }
    ensures answer { AnswersItems left tokens.now.text tokens.now.list rules.generate at result }
    ensures ahead { IfOk result (λ r. GoesOn tokens.now.list at r) }
{
    let first = word(tokens, at, b"generate")?;
    let (list, end) = block_items(alloc, tokens, first, left, false)?;
    Ok((Item::Generate(list), end))
}

/// The items of a loop, with their name.
#[cycle(items)]
fn named_block(
    alloc: Global,
    tokens: &Tokens,
    at: usize,
    left: u32,
) -> Result<((Ident, Items<Item>), usize), SyntaxError>
    requires { at ≤ length tokens.now.list }
    ensures answer { AnswersItems left tokens.now.text tokens.now.list rules.named_block at result }
    ensures ahead { IfOk result (λ r. GoesOn tokens.now.list at r) }
{
    let colon = word(tokens, at, b"begin")?;
    let name = mark(tokens, colon, b":")?;
    let (label, first) = ident(alloc, tokens, name)?;
    let (list, end) = block_items(alloc, tokens, first, left, true)?;
    Ok(((label, list), end))
}

fn loop_of(head: Head, label: Ident, list: Items<Item>) -> Item
    ensures { result ≡ rules.loop_item (head, (label, list)) }
{
    let Head {
        index,
        start,
        test,
        again,
        next,
    } = head;
    Item::Loop(index, start, test, again, next, label, list)
}

#[cycle(items)]
fn generate_loop(
    alloc: Global,
    tokens: &Tokens,
    at: usize,
    left: u32,
) -> Result<(Item, usize), SyntaxError>
    requires { at ≤ length tokens.now.list }
    ensures answer { AnswersItems left tokens.now.text tokens.now.list rules.generate_loop at result }
    ensures ahead { IfOk result (λ r. GoesOn tokens.now.list at r) }
{
    let (head, begin) = loop_head(alloc, tokens, at)?;
    let ((label, list), end) = named_block(alloc, tokens, begin, left)?;
    Ok((loop_of(head, label, list), end))
}

/// An item in which so many may nest.
#[cycle(items)]
fn block_item_body(
    alloc: Global,
    tokens: &Tokens,
    at: usize,
    left: u32,
) -> Result<(Item, usize), SyntaxError>
    requires { at ≤ length tokens.now.list }
    ensures answer { AnswersItems left tokens.now.text tokens.now.list rules.block_item_rule at result }
    ensures ahead { IfOk result (λ r. GoesOn tokens.now.list at r) }
{
    if is_word(tokens, at, b"wire") {
        wire(alloc, tokens, at)
    } else if is_word(tokens, at, b"reg") {
        reg(alloc, tokens, at)
    } else if is_word(tokens, at, b"integer") {
        index(alloc, tokens, at, false, b"integer")
    } else if is_word(tokens, at, b"genvar") {
        index(alloc, tokens, at, true, b"genvar")
    } else if is_word(tokens, at, b"localparam") {
        parameter(alloc, tokens, at, true, b"localparam")
    } else if is_word(tokens, at, b"assign") {
        assign(alloc, tokens, at)
    } else if is_word(tokens, at, b"always") {
        always(alloc, tokens, at)
    } else if is_word(tokens, at, b"for") {
        generate_loop(alloc, tokens, at, left)
    } else {
        instance(alloc, tokens, at)
    }
}

/// Whether a net or a variable is declared there.
fn begins_variable(tokens: &Tokens, at: usize) -> bool
    ensures { result ≡ (stands (shapes.word (codes "wire")) (from tokens.now.text tokens.now.list at) || stands (shapes.word (codes "reg")) (from tokens.now.text tokens.now.list at) || stands (shapes.word (codes "integer")) (from tokens.now.text tokens.now.list at)) }
{
    is_word(tokens, at, b"wire") || is_word(tokens, at, b"reg") || is_word(tokens, at, b"integer")
}

fn begins_declaration(tokens: &Tokens, at: usize) -> bool
    ensures { result ≡ (stands (shapes.word (codes "wire")) (from tokens.now.text tokens.now.list at) || stands (shapes.word (codes "reg")) (from tokens.now.text tokens.now.list at) || stands (shapes.word (codes "integer")) (from tokens.now.text tokens.now.list at) || stands (shapes.word (codes "genvar")) (from tokens.now.text tokens.now.list at) || stands (shapes.word (codes "localparam")) (from tokens.now.text tokens.now.list at)) }
{
    begins_variable(tokens, at)
        || is_word(tokens, at, b"genvar")
        || is_word(tokens, at, b"localparam")
}

/// Whether an assignment, a process or a loop begins there.
fn begins_process(tokens: &Tokens, at: usize) -> bool
    ensures { result ≡ (stands (shapes.word (codes "assign")) (from tokens.now.text tokens.now.list at) || stands (shapes.word (codes "always")) (from tokens.now.text tokens.now.list at) || stands (shapes.word (codes "for")) (from tokens.now.text tokens.now.list at)) }
{
    is_word(tokens, at, b"assign") || is_word(tokens, at, b"always") || is_word(tokens, at, b"for")
}

fn begins_block_item(tokens: &Tokens, at: usize) -> bool
    ensures { result ≡ leads shapes.block_item (from tokens.now.text tokens.now.list at) }
{
    begins_declaration(tokens, at) || begins_process(tokens, at) || is_name(tokens, at)
}

/// An item of a generate block, where so many may nest with itself.
#[cycle(items)]
fn block_item(
    alloc: Global,
    tokens: &Tokens,
    at: usize,
    left: u32,
) -> Result<(Item, usize), SyntaxError>
    requires place { at ≤ length tokens.now.list }
    requires room { 0 < left }
    ensures answer { AnswersItems left tokens.now.text tokens.now.list (call shapes.block_item) at result }
    ensures ahead { IfOk result (λ r. GoesOn tokens.now.list at r) }
{
    block_item_body(alloc, tokens, at, left - 1)
}

/// An item of a module.
pub fn item(alloc: Global, tokens: &Tokens, at: usize) -> Result<(Item, usize), SyntaxError>
    requires { at ≤ length tokens.now.list }
    ensures answer { AnswersItems 200 tokens.now.text tokens.now.list (call shapes.item) at result }
    ensures ahead { IfOk result (λ r. GoesOn tokens.now.list at r) }
{
    if is_direction(tokens, at) {
        port(alloc, tokens, at)
    } else if is_word(tokens, at, b"parameter") {
        parameter(alloc, tokens, at, false, b"parameter")
    } else if is_word(tokens, at, b"generate") {
        generate(alloc, tokens, at, LIMIT - 1)
    } else {
        block_item_body(alloc, tokens, at, LIMIT - 1)
    }
}
