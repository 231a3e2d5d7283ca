//! Statements (IEEE 1364-2005, annex A.6).

ghost use Rattle.std.specs.Prelude.{◌≡◌, ◌+◌, ◌<◌, ◌≤◌, ◌||◌, codes, length, IfOk, true, false, refl};
ghost use Rattle.lv_grammars.specs.Grammar.{call};
ghost use Rattle.lv_grammar.specs.Shapes.{stands};
ghost use Rattle.lv_grammar.specs.Shapes as shapes;
ghost use Rattle.lv_grammar.specs.Rules as rules;
ghost use Rattle.lv_parser.specs.Answers.{from, leads, nests, Answers, AnswersTargets, AnswersStmts, AnswersSome, token_result, GoesOn, Stays};

use crate::exprs::{label, value};
use crate::lists::{Entries, list};
use crate::targets::{LIMIT, begins_target, refused, target};
use crate::tokens::{boxed, ident, is_mark, is_word, mark, place, push, word};
use lv_ast::{Arm, Expr, Ident, Stmt, Tokens};
use lv_exprs::SyntaxError;
use lv_grammar::Head;
use lv_held::Held;
use sqlite_items::{Boxed, Items};
use std::alloc::Global;

fn begins_loop(
    alloc: Global,
    tokens: &Tokens,
    at: usize,
) -> Result<((Ident, Held<Expr>, Held<Expr>), usize), SyntaxError>
    requires { at ≤ length tokens.now.list }
    ensures answer { Answers tokens.now.text tokens.now.list rules.loop_start at result }
    ensures ahead { IfOk result (λ r. GoesOn tokens.now.list at r) }
{
    let open = word(tokens, at, b"for")?;
    let name = mark(tokens, open, b"(")?;
    let (index, equals) = ident(alloc, tokens, name)?;
    let first = mark(tokens, equals, b"=")?;
    let (start, semicolon) = value(alloc, tokens, first)?;
    let second = mark(tokens, semicolon, b";")?;
    let (test, last) = value(alloc, tokens, second)?;
    let end = mark(tokens, last, b";")?;
    Ok(((index, start, test), end))
}

pub fn loop_head(alloc: Global, tokens: &Tokens, at: usize) -> Result<(Head, usize), SyntaxError>
    requires { at ≤ length tokens.now.list }
    ensures answer { Answers tokens.now.text tokens.now.list rules.loop_head at result }
    ensures ahead { IfOk result (λ r. GoesOn tokens.now.list at r) }
{
    let ((index, start, test), name) = begins_loop(alloc, tokens, at)?;
    let (again, equals) = ident(alloc, tokens, name)?;
    let right = mark(tokens, equals, b"=")?;
    let (next, close) = value(alloc, tokens, right)?;
    let end = mark(tokens, close, b")")?;
    let head = Head {
        index,
        start,
        test,
        again,
        next,
    };
    Ok((head, end))
}

/// A statement inside of another.
#[cycle(statements)]
fn inner_stmt(
    alloc: Global,
    tokens: &Tokens,
    at: usize,
    left: u32,
) -> Result<(Boxed<Stmt>, usize), SyntaxError>
    requires place { at ≤ length tokens.now.list }
    requires room { 0 < left }
    ensures answer { AnswersStmts left tokens.now.text tokens.now.list (call shapes.stmt) at result }
    ensures ahead { IfOk result (λ r. GoesOn tokens.now.list at r) }
{
    let (body, end) = stmt(alloc, tokens, at, left)?;
    let inner = boxed(alloc, body)?;
    Ok((inner, end))
}

#[cycle(statements)]
fn turns(alloc: Global, tokens: &Tokens, at: usize, left: u32) -> Result<(Stmt, usize), SyntaxError>
    requires place { at ≤ length tokens.now.list }
    requires room { 0 < left }
    ensures answer { AnswersStmts left tokens.now.text tokens.now.list rules.loop at result }
    ensures ahead { IfOk result (λ r. GoesOn tokens.now.list at r) }
{
    let (head, first) = loop_head(alloc, tokens, at)?;
    let (body, end) = inner_stmt(alloc, tokens, first, left)?;
    let Head {
        index,
        start,
        test,
        again,
        next,
    } = head;
    Ok((Stmt::Loop(index, start, test, again, next, body), end))
}

fn block_name(
    alloc: Global,
    tokens: &Tokens,
    at: usize,
) -> Result<(Option<Ident>, usize), SyntaxError>
    requires { at ≤ length tokens.now.list }
    ensures answer { Answers tokens.now.text tokens.now.list rules.block_name at result }
    ensures ahead { IfOk result (λ r. Stays tokens.now.list at r) }
{
    if is_mark(tokens, at, b":") {
        let (name, end) = ident(alloc, tokens, at + 1)?;
        Ok((Some(name), end))
    } else {
        Ok((None, at))
    }
}

/// The `end` of statements of which none may nest.
fn no_stmts(alloc: Global, tokens: &Tokens, at: usize) -> Result<(Items<Stmt>, usize), SyntaxError>
    requires { at ≤ length tokens.now.list }
    ensures answer { AnswersStmts 0 tokens.now.text tokens.now.list rules.stmts_to_end at result }
    ensures ahead { IfOk result (λ r. GoesOn tokens.now.list at r) }
{
    if is_word(tokens, at, b"end") {
        Ok((Items::new(alloc), at + 1))
    } else {
        Err(refused(begins_stmt(tokens, at), at))
    }
}

/// Statements up to the `end` behind them.
#[cycle(statements)]
fn stmts_to_end(
    alloc: Global,
    tokens: &Tokens,
    at: usize,
    left: u32,
) -> Result<(Items<Stmt>, usize), SyntaxError>
    requires { at ≤ length tokens.now.list }
    ensures answer { AnswersStmts left tokens.now.text tokens.now.list rules.stmts_to_end at result }
    ensures ahead { IfOk result (λ r. GoesOn tokens.now.list at r) }
{
    if left == 0 {
        return no_stmts(alloc, tokens, at);
    }
    let mut list = Items::new(alloc);
    let mut end = at;
    'entries: while !is_word(tokens, end, b"end") {
        let (more, next) = stmt(alloc, tokens, end, left)?;
        push(&mut list, more)?;
        end = next;
    }
    Ok((list, end + 1))
}

#[cycle(statements)]
fn block(alloc: Global, tokens: &Tokens, at: usize, left: u32) -> Result<(Stmt, usize), SyntaxError>
    requires { at ≤ length tokens.now.list }
    ensures answer { AnswersStmts left tokens.now.text tokens.now.list rules.block at result }
    ensures ahead { IfOk result (λ r. GoesOn tokens.now.list at r) }
{
    let colon = word(tokens, at, b"begin")?;
    let (name, first) = block_name(alloc, tokens, colon)?;
    let (list, end) = stmts_to_end(alloc, tokens, first, left)?;
    Ok((Stmt::Block(name, list), end))
}

/// What is done where a test holds, and what where it doesn't: an `else` belongs to the nearest `if`.
#[cycle(statements)]
fn branches(
    alloc: Global,
    tokens: &Tokens,
    at: usize,
    left: u32,
) -> Result<((Boxed<Stmt>, Option<Boxed<Stmt>>), usize), SyntaxError>
    requires place { at ≤ length tokens.now.list }
    requires room { 0 < left }
    ensures answer { AnswersStmts left tokens.now.text tokens.now.list rules.branches at result }
    ensures ahead { IfOk result (λ r. GoesOn tokens.now.list at r) }
{
    let (then, end) = inner_stmt(alloc, tokens, at, left)?;
    if is_word(tokens, end, b"else") {
        let (other, last) = inner_stmt(alloc, tokens, end + 1, left)?;
        Ok(((then, Some(other)), last))
    } else {
        Ok(((then, None), end))
    }
}

#[cycle(statements)]
fn choice(
    alloc: Global,
    tokens: &Tokens,
    at: usize,
    left: u32,
) -> Result<(Stmt, usize), SyntaxError>
    requires place { at ≤ length tokens.now.list }
    requires room { 0 < left }
    ensures answer { AnswersStmts left tokens.now.text tokens.now.list rules.choice at result }
    ensures ahead { IfOk result (λ r. GoesOn tokens.now.list at r) }
{
    let open = word(tokens, at, b"if")?;
    let inner = mark(tokens, open, b"(")?;
    let (test, close) = value(alloc, tokens, inner)?;
    let first = mark(tokens, close, b")")?;
    let ((then, other), end) = branches(alloc, tokens, first, left)?;
    Ok((Stmt::If(test, then, other), end))
}

/// Labels of a `casez`, where it is one, or of a `case`.
#[derive(Clone, Copy)]
struct Labels {
    wild: bool,
}

impl Entries for Labels {
    type Entry = Expr;

    ghost grammar = { λ x. rules.label x.wild };

    ghost good = { λ x. refl };

    fn entry(
        &self,
        alloc: Global,
        tokens: &Tokens,
        at: usize,
    ) -> Result<(Expr, usize), SyntaxError> {
        label(alloc, tokens, at, self.wild)
    }
}

fn behind_default(tokens: &Tokens, at: usize) -> Result<usize, SyntaxError>
    requires { at ≤ length tokens.now.list }
    ensures answer { AnswersSome tokens.now.text tokens.now.list rules.default_words at result }
    ensures ahead { IfOk result (λ end. (at < end) × (end ≤ length tokens.now.list)) }
{
    let colon = word(tokens, at, b"default")?;
    if is_mark(tokens, colon, b":") {
        Ok(colon + 1)
    } else {
        Ok(colon)
    }
}

#[cycle(statements)]
fn default_arm(
    alloc: Global,
    tokens: &Tokens,
    at: usize,
    left: u32,
) -> Result<(Arm, usize), SyntaxError>
    requires place { at ≤ length tokens.now.list }
    requires room { 0 < left }
    ensures answer { AnswersStmts left tokens.now.text tokens.now.list rules.default_arm at result }
    ensures ahead { IfOk result (λ r. GoesOn tokens.now.list at r) }
{
    let first = behind_default(tokens, at)?;
    let (body, end) = stmt(alloc, tokens, first, left)?;
    let labels = Items::new(alloc);
    Ok((Arm { labels, body }, end))
}

#[cycle(statements)]
fn labelled_arm(
    alloc: Global,
    tokens: &Tokens,
    at: usize,
    left: u32,
    wild: bool,
) -> Result<(Arm, usize), SyntaxError>
    requires place { at ≤ length tokens.now.list }
    requires room { 0 < left }
    ensures answer { AnswersStmts left tokens.now.text tokens.now.list (rules.labelled_arm wild) at result }
    ensures ahead { IfOk result (λ r. GoesOn tokens.now.list at r) }
{
    let (labels, colon) = list(alloc, tokens, at, &Labels { wild })?;
    let first = mark(tokens, colon, b":")?;
    let (body, end) = stmt(alloc, tokens, first, left)?;
    Ok((Arm { labels, body }, end))
}

#[cycle(statements)]
fn arm(
    alloc: Global,
    tokens: &Tokens,
    at: usize,
    left: u32,
    wild: bool,
) -> Result<(Arm, usize), SyntaxError>
    requires place { at ≤ length tokens.now.list }
    requires room { 0 < left }
    ensures answer { AnswersStmts left tokens.now.text tokens.now.list (rules.arm wild) at result }
    ensures ahead { IfOk result (λ r. GoesOn tokens.now.list at r) }
{
    if is_word(tokens, at, b"default") {
        default_arm(alloc, tokens, at, left)
    } else {
        labelled_arm(alloc, tokens, at, left, wild)
    }
}

/// One or more arms, up to the `endcase` behind them.
#[cycle(statements)]
fn arms(
    alloc: Global,
    tokens: &Tokens,
    at: usize,
    left: u32,
    wild: bool,
) -> Result<(Items<Arm>, usize), SyntaxError>
    requires place { at ≤ length tokens.now.list }
    requires room { 0 < left }
    ensures answer { AnswersStmts left tokens.now.text tokens.now.list (rules.arms wild) at result }
    ensures ahead { IfOk result (λ r. GoesOn tokens.now.list at r) }
{
    let (first, mut end) = arm(alloc, tokens, at, left, wild)?;
    let mut list = Items::new(alloc);
    push(&mut list, first)?;
    'entries: while !is_word(tokens, end, b"endcase") {
        let (more, next) = arm(alloc, tokens, end, left, wild)?;
        push(&mut list, more)?;
        end = next;
    }
    Ok((list, end + 1))
}

fn case_word(tokens: &Tokens, at: usize, wild: bool) -> Result<usize, SyntaxError>
    requires { at ≤ length tokens.now.list }
    ensures answer { Answers tokens.now.text tokens.now.list (rules.word (rules.case_word wild)) at (token_result tokens.now.text tokens.now.list at result) }
    ensures ahead { IfOk result (λ end. (end ≡ at + 1) × (end ≤ length tokens.now.list)) }
{
    if wild {
        word(tokens, at, b"casez")
    } else {
        word(tokens, at, b"case")
    }
}

#[cycle(statements)]
fn cases(
    alloc: Global,
    tokens: &Tokens,
    at: usize,
    left: u32,
    wild: bool,
) -> Result<(Stmt, usize), SyntaxError>
    requires place { at ≤ length tokens.now.list }
    requires room { 0 < left }
    ensures answer { AnswersStmts left tokens.now.text tokens.now.list (rules.cases wild) at result }
    ensures ahead { IfOk result (λ r. GoesOn tokens.now.list at r) }
{
    let open = case_word(tokens, at, wild)?;
    let inner = mark(tokens, open, b"(")?;
    let (selector, close) = value(alloc, tokens, inner)?;
    let first = mark(tokens, close, b")")?;
    let (list, end) = arms(alloc, tokens, first, left, wild)?;
    Ok((Stmt::Case(wild, selector, list), end))
}

/// Whether an assignment is a nonblocking one.
fn arrow(tokens: &Tokens, at: usize) -> Result<(bool, usize), SyntaxError>
    requires { at ≤ length tokens.now.list }
    ensures answer { Answers tokens.now.text tokens.now.list rules.arrow at result }
    ensures ahead { IfOk result (λ r. GoesOn tokens.now.list at r) }
{
    if is_mark(tokens, at, b"=") {
        Ok((false, at + 1))
    } else {
        let end = mark(tokens, at, b"<=")?;
        Ok((true, end))
    }
}

fn assignment(alloc: Global, tokens: &Tokens, at: usize) -> Result<(Stmt, usize), SyntaxError>
    requires { at ≤ length tokens.now.list }
    ensures answer { AnswersTargets 200 tokens.now.text tokens.now.list rules.assignment at result }
    ensures ahead { IfOk result (λ r. GoesOn tokens.now.list at r) }
{
    let (target, mark_at) = target(alloc, tokens, at, LIMIT)?;
    let (later, right) = arrow(tokens, mark_at)?;
    let (value, semicolon) = value(alloc, tokens, right)?;
    let end = mark(tokens, semicolon, b";")?;
    let place = place(tokens, at);
    if later {
        Ok((Stmt::Later(target, value, place), end))
    } else {
        Ok((Stmt::Now(target, value, place), end))
    }
}

/// A statement in which so many may nest.
#[cycle(statements)]
fn stmt_body(
    alloc: Global,
    tokens: &Tokens,
    at: usize,
    left: u32,
) -> Result<(Stmt, usize), SyntaxError>
    requires place { at ≤ length tokens.now.list }
    requires room { nests (from tokens.now.text tokens.now.list at) ≡ true → 0 < left }
    ensures answer { AnswersStmts left tokens.now.text tokens.now.list rules.stmt_rule at result }
    ensures ahead { IfOk result (λ r. GoesOn tokens.now.list at r) }
{
    if is_mark(tokens, at, b";") {
        Ok((Stmt::Null, at + 1))
    } else if is_word(tokens, at, b"begin") {
        block(alloc, tokens, at, left)
    } else if is_word(tokens, at, b"if") {
        choice(alloc, tokens, at, left)
    } else if is_word(tokens, at, b"case") {
        cases(alloc, tokens, at, left, false)
    } else if is_word(tokens, at, b"casez") {
        cases(alloc, tokens, at, left, true)
    } else if is_word(tokens, at, b"for") {
        turns(alloc, tokens, at, left)
    } else {
        assignment(alloc, tokens, at)
    }
}

/// Whether a block or an `if` begins there.
fn begins_group(tokens: &Tokens, at: usize) -> bool
    ensures { result ≡ (stands (shapes.word (codes "begin")) (from tokens.now.text tokens.now.list at) || stands (shapes.word (codes "if")) (from tokens.now.text tokens.now.list at)) }
{
    is_word(tokens, at, b"begin") || is_word(tokens, at, b"if")
}

fn begins_cases(tokens: &Tokens, at: usize) -> bool
    ensures { result ≡ (stands (shapes.word (codes "case")) (from tokens.now.text tokens.now.list at) || stands (shapes.word (codes "casez")) (from tokens.now.text tokens.now.list at)) }
{
    is_word(tokens, at, b"case") || is_word(tokens, at, b"casez")
}

fn begins_simple(tokens: &Tokens, at: usize) -> bool
    ensures { result ≡ (stands (shapes.word (codes "for")) (from tokens.now.text tokens.now.list at) || leads shapes.target (from tokens.now.text tokens.now.list at)) }
{
    is_word(tokens, at, b"for") || begins_target(tokens, at)
}

fn begins_stmt(tokens: &Tokens, at: usize) -> bool
    ensures { result ≡ leads shapes.stmt (from tokens.now.text tokens.now.list at) }
{
    is_mark(tokens, at, b";")
        || begins_group(tokens, at)
        || begins_cases(tokens, at)
        || begins_simple(tokens, at)
}

fn begins_branch(tokens: &Tokens, at: usize) -> bool
    ensures { result ≡ (stands (shapes.word (codes "if")) (from tokens.now.text tokens.now.list at) || stands (shapes.word (codes "for")) (from tokens.now.text tokens.now.list at)) }
{
    is_word(tokens, at, b"if") || is_word(tokens, at, b"for")
}

/// Whether a statement begins there in which another one stands.
fn begins_nest(tokens: &Tokens, at: usize) -> bool
    ensures { result ≡ nests (from tokens.now.text tokens.now.list at) }
{
    begins_cases(tokens, at) || begins_branch(tokens, at)
}

/// Whether no other may stand in it, though one has to.
fn is_last(tokens: &Tokens, at: usize, left: u32) -> bool
    requires { 0 < left }
    ensures last { result ≡ true → (left ≡ 1) × (nests (from tokens.now.text tokens.now.list at) ≡ true) }
    ensures more { result ≡ false → nests (from tokens.now.text tokens.now.list at) ≡ true → 1 < left }
{
    left == 1 && begins_nest(tokens, at)
}

/// A statement, where so many may nest with itself.
#[cycle(statements)]
pub fn stmt(
    alloc: Global,
    tokens: &Tokens,
    at: usize,
    left: u32,
) -> Result<(Stmt, usize), SyntaxError>
    requires place { at ≤ length tokens.now.list }
    requires room { 0 < left }
    ensures answer { AnswersStmts left tokens.now.text tokens.now.list (call shapes.stmt) at result }
    ensures ahead { IfOk result (λ r. GoesOn tokens.now.list at r) }
{
    if is_last(tokens, at, left) {
        Err(SyntaxError::Depth(at))
    } else {
        stmt_body(alloc, tokens, at, left - 1)
    }
}
