ghost use Rattle.std.specs.Prelude.{◌≡◌, ◌<◌, ◌≤◌, [], ◌∷◌, ◌++◌, List, IfOk, OnOk, IfErr, IsErrAnd, MatchOption, is_some, not, ◌||◌, drop, if◌then◌else◌};
ghost use Rattle.std.specs.List.{list_any};
ghost use Rattle.std.specs.Str.{bytes_eq};
ghost use Rattle.lv_ast.specs.Folds as spec;
ghost use Rattle.lv_ast.specs.Folds.{Macro};
ghost use Rattle.lv_lexer.specs.Readings.{Reads, IsFoldAnswer, IsFoldRefusal, IsFoldRefusalOfMany, done};
ghost use Rattle.lv_lexer.specs.Shown.{branch_shown, directive_shown};
ghost use Rattle.lv_lexer.specs.Tables.{Keeps};

use crate::error::DirectiveError;
use crate::macros::Macros;
use crate::output::Output;
use crate::spans::{
    is_join, is_line, is_tick, line, line_count, line_name, name_count, token_bytes, word,
};
use lv_ast::{Kind, Token, Tokens};
use sqlite_items::Items;
use std::alloc::Global;

/// Uses of macros are nested at most so deep.
const DEEPEST: u32 = 64;

/// A directive by its word (IEEE 1364-2005, section 19).
#[derive(Clone, Copy, Debug, PartialEq, Eq)]
pub enum Directive {
    Define,
    Undef,
    Ifdef,
    Ifndef,
    Elsif,
    Else,
    Endif,
    /// Dropped with its line.
    Dropped,
    Use,
}

/// An open conditional: whether a branch was kept, whether this one is, and whether this is the one of its `else`.
#[derive(Clone, Copy)]
pub struct Branch {
    pub taken: bool,
    pub kept: bool,
    pub last: bool,
}

fn is(word: &[u8], name: &[u8]) -> bool
    ensures { result ≡ bytes_eq word.now name.now }
{
    word == name
}

#[tactic(auto, unfolding(lv_ast::specs::Folds::directive_of))]
fn directive_of(word: &[u8]) -> Directive
    ensures { directive_shown result ≡ spec.directive_of word.now }
{
    if is(word, b"define") {
        Directive::Define
    } else if is(word, b"undef") {
        Directive::Undef
    } else if is(word, b"ifdef") {
        Directive::Ifdef
    } else if is(word, b"ifndef") {
        Directive::Ifndef
    } else if is(word, b"elsif") {
        Directive::Elsif
    } else if is(word, b"else") {
        Directive::Else
    } else if is(word, b"endif") {
        Directive::Endif
    } else if is(word, b"timescale") {
        Directive::Dropped
    } else if is(word, b"default_nettype") {
        Directive::Dropped
    } else if is(word, b"resetall") {
        Directive::Dropped
    } else {
        Directive::Use
    }
}

fn is_use(directive: Directive) -> bool
    ensures { result ≡ spec.is_use (directive_shown directive) }
{
    directive == Directive::Use
}

// A token where uses may still be nested so deep.
#[cycle(expansion)]
fn expand(
    text: &[u8],
    macros: &Macros,
    nested: u32,
    token: Token,
    out: &mut Output,
) -> Result<(), DirectiveError>
    ensures { (ms : List Macro) → Keeps macros.now ms → Reads out.old (spec.expansion text.now ms nested token) result out.new }
{
    if !is_tick(token.kind) {
        return out.give(token);
    }
    if nested == 0 {
        return Err(DirectiveError::Depth(token.start));
    }
    match macros.get(word(text, token)) {
        None => Err(DirectiveError::UnknownMacro(token.start)),
        Some(body) => {
            out.count_use()?;
            expand_body(text, macros, nested - 1, body.as_slice(), out)
        }
    }
}

#[cycle(expansion)]
fn expand_body(
    text: &[u8],
    macros: &Macros,
    nested: u32,
    body: &[Token],
    out: &mut Output,
) -> Result<(), DirectiveError>
    ensures { (ms : List Macro) → Keeps macros.now ms → Reads out.old (spec.in_order (spec.expansion text.now ms nested) body.now) result out.new }
{
    for token in body {
        expand(text, macros, nested, *token, out)?;
    }
    Ok(())
}

fn is_directive(text: &[u8], token: Token) -> bool
    ensures { result ≡ spec.is_directive text.now token }
{
    is_tick(token.kind) && !is_use(directive_of(word(text, token)))
}

// Whether a `(` stands directly behind the name.
fn opens(text: &[u8], line: &[Token]) -> bool
    ensures { result ≡ spec.opens text.now line.now }
{
    match line {
        [name, next, ..] => next.start == name.end && is(token_bytes(text, *next), b"("),
        _ => false,
    }
}

fn rest_of(line: &[Token]) -> &[Token]
    ensures { result.now ≡ spec.rest line.now }
{
    if line.is_empty() { line } else { &line[1..] }
}

// Whether a token behind the name is a directive.
fn has_directive(text: &[u8], line: &[Token]) -> bool
    ensures { result ≡ list_any (spec.is_directive text.now) (spec.rest line.now) }
{
    let body = rest_of(line);
    body.iter().any(|token| is_directive(text, *token))
}

#[tactic(auto, unfolding(lv_ast::specs::Folds::can_define))]
fn can_define(text: &[u8], name: &[u8], line: &[Token]) -> bool
    ensures { result ≡ spec.can_define text.now name.now line.now }
{
    is_use(directive_of(name)) && !opens(text, line) && !has_directive(text, line)
}

fn without_first(line: Items<Token>) -> Items<Token>
    ensures { result ≡ spec.rest line }
{
    let mut body = line;
    if !body.is_empty() {
        let _name = body.remove(0);
    }
    body
}

fn holds(wanted: bool, known: bool) -> bool
    ensures { result ≡ (if wanted then known else not known) }
{
    if wanted { known } else { !known }
}

fn opened_branch(reads: bool, holds: bool) -> Branch
    ensures { branch_shown result ≡ spec.opened reads holds }
{
    if reads {
        Branch {
            taken: holds,
            kept: holds,
            last: false,
        }
    } else {
        Branch {
            taken: true,
            kept: false,
            last: false,
        }
    }
}

fn elsif_branch(holds: bool, branch: Branch) -> Branch
    ensures { branch_shown result ≡ spec.elsif_branch holds (branch_shown branch) }
{
    if branch.taken {
        Branch {
            taken: true,
            kept: false,
            last: false,
        }
    } else {
        Branch {
            taken: holds,
            kept: holds,
            last: false,
        }
    }
}

fn else_branch(branch: Branch) -> Branch
    ensures { branch_shown result ≡ spec.else_branch (branch_shown branch) }
{
    Branch {
        taken: true,
        kept: !branch.taken,
        last: true,
    }
}

/// What has been read: the macros and the open conditionals that then stand, and what was given.
pub struct Fold {
    pub macros: Macros,
    /// The innermost is the last.
    pub branches: Items<Branch>,
    pub out: Output,
}

impl Drop for Fold {
    fn drop(self) {
        let Fold {
            macros,
            branches,
            out,
        } = self;
        drop(macros);
        drop(branches);
        drop(out);
    }
}

impl Fold {
    ghost use Rattle.lv_lexer.specs.Shown.{top_first};
    ghost use Rattle.lv_lexer.specs.Steps.{Steps, by_name, named_step, read_step, if_read};

    /// What was given.
    fn into_output(self) -> Output
        ensures { result ≡ self.out }
    {
        let Fold {
            macros,
            branches,
            out,
        } = self;
        drop(macros);
        drop(branches);
        out
    }

    fn is_read(&self) -> bool
        ensures { result ≡ spec.is_read (top_first self.now.branches) }
    {
        let count = self.branches.len();
        if count == 0 {
            return true;
        }
        match self.branches.get(count - 1) {
            Some(branch) => branch.kept,
            None => true,
        }
    }

    fn open(&mut self, branch: Branch) -> Result<(), DirectiveError>
        ensures ok { OnOk result (self.new ≡ record self.old { branches = self.old.branches ++ branch ∷ [] }) }
        ensures err { IfErr result (λ e. e ≡ DirectiveError.NoMemory) }
    {
        match self.branches.push(branch) {
            Ok(()) => Ok(()),
            Err(_) => Err(DirectiveError::NoMemory),
        }
    }

    fn define_as(
        &mut self,
        alloc: Global,
        text: &[u8],
        name: &[u8],
        token: Token,
        after: &[Token],
    ) -> Result<usize, DirectiveError>
        ensures { (ms : List Macro) → Keeps self.old.macros ms → Steps self.old (spec.defined text.now ms (top_first self.old.branches) token after.now name.now) result self.new }
    {
        let Ok(line) = line(alloc, after) else {
            return Err(DirectiveError::NoMemory);
        };
        if !can_define(text, name, line.as_slice()) {
            return Err(DirectiveError::Malformed(token.start));
        }
        let body = without_first(line);
        match self.macros.set(alloc, name, Some(body)) {
            Ok(()) => Ok(line_count(after)),
            Err(_) => Err(DirectiveError::NoMemory),
        }
    }

    fn undefine_as(
        &mut self,
        alloc: Global,
        text: &[u8],
        name: &[u8],
        token: Token,
        after: &[Token],
    ) -> Result<usize, DirectiveError>
        ensures { (ms : List Macro) → Keeps self.old.macros ms → Steps self.old (spec.undefined text.now ms (top_first self.old.branches) token after.now name.now) result self.new }
    {
        match self.macros.set(alloc, name, None) {
            Ok(()) => Ok(name_count(after)),
            Err(_) => Err(DirectiveError::NoMemory),
        }
    }

    // Whether the macro is defined.
    fn knows(&self, name: &[u8]) -> bool
        ensures { (ms : List Macro) → Keeps self.now.macros ms → result ≡ is_some (spec.body_of ms name.now) }
    {
        self.macros.get(name).is_some()
    }

    fn begin_as(
        &mut self,
        text: &[u8],
        name: &[u8],
        wanted: bool,
        token: Token,
        after: &[Token],
    ) -> Result<usize, DirectiveError>
        ensures { (ms : List Macro) → Keeps self.old.macros ms → Steps self.old (spec.begun text.now ms (top_first self.old.branches) token after.now wanted name.now) result self.new }
    {
        let known = self.knows(name);
        let reads = self.is_read();
        let branch = opened_branch(reads, holds(wanted, known));
        match self.open(branch) {
            Ok(()) => Ok(name_count(after)),
            Err(_) => Err(DirectiveError::NoMemory),
        }
    }

    fn elsif_as(
        &mut self,
        text: &[u8],
        name: &[u8],
        token: Token,
        after: &[Token],
    ) -> Result<usize, DirectiveError>
        ensures { (ms : List Macro) → Keeps self.old.macros ms → Steps self.old (spec.elsif_step text.now ms (top_first self.old.branches) token after.now (top_first self.old.branches) name.now) result self.new }
    {
        let known = self.knows(name);
        match self.branches.pop() {
            None => Err(DirectiveError::Unbalanced(token.start)),
            Some(branch) => {
                if branch.last {
                    return Err(DirectiveError::Unbalanced(token.start));
                }
                match self.open(elsif_branch(known, branch)) {
                    Ok(()) => Ok(name_count(after)),
                    Err(_) => Err(DirectiveError::NoMemory),
                }
            }
        }
    }

    fn otherwise(
        &mut self,
        text: &[u8],
        token: Token,
        after: &[Token],
    ) -> Result<usize, DirectiveError>
        ensures { (ms : List Macro) → Keeps self.old.macros ms → Steps self.old (spec.else_step text.now ms (top_first self.old.branches) token after.now (top_first self.old.branches)) result self.new }
    {
        match self.branches.pop() {
            None => Err(DirectiveError::Unbalanced(token.start)),
            Some(branch) => {
                if branch.last {
                    return Err(DirectiveError::Unbalanced(token.start));
                }
                match self.open(else_branch(branch)) {
                    Ok(()) => Ok(0),
                    Err(_) => Err(DirectiveError::NoMemory),
                }
            }
        }
    }

    fn end(&mut self, text: &[u8], token: Token, after: &[Token]) -> Result<usize, DirectiveError>
        ensures { (ms : List Macro) → Keeps self.old.macros ms → Steps self.old (spec.endif_step text.now ms (top_first self.old.branches) token after.now (top_first self.old.branches)) result self.new }
    {
        match self.branches.pop() {
            Some(_) => Ok(0),
            None => Err(DirectiveError::Unbalanced(token.start)),
        }
    }

    fn spend(&mut self, text: &[u8], token: Token, after: &[Token]) -> Result<usize, DirectiveError>
        ensures { (ms : List Macro) → Keeps self.old.macros ms → Steps self.old (spec.gives text.now ms (top_first self.old.branches) token after.now (spec.expansion text.now ms 64 token)) result self.new }
    {
        match expand(text, &self.macros, DEEPEST, token, &mut self.out) {
            Ok(()) => Ok(0),
            Err(error) => Err(error),
        }
    }

    fn with_name(
        &mut self,
        alloc: Global,
        text: &[u8],
        directive: Directive,
        name: &[u8],
        token: Token,
        after: &[Token],
    ) -> Result<usize, DirectiveError>
        ensures { (ms : List Macro) → Keeps self.old.macros ms → Steps self.old (by_name directive text.now ms (top_first self.old.branches) token after.now name.now) result self.new }
    {
        match directive {
            Directive::Define => self.define_as(alloc, text, name, token, after),
            Directive::Undef => self.undefine_as(alloc, text, name, token, after),
            Directive::Ifdef => self.begin_as(text, name, true, token, after),
            Directive::Ifndef => self.begin_as(text, name, false, token, after),
            Directive::Elsif
            | Directive::Else
            | Directive::Endif
            | Directive::Dropped
            | Directive::Use => self.elsif_as(text, name, token, after),
        }
    }

    // A directive with its name.
    fn named(
        &mut self,
        alloc: Global,
        text: &[u8],
        directive: Directive,
        token: Token,
        after: &[Token],
    ) -> Result<usize, DirectiveError>
        ensures { (ms : List Macro) → Keeps self.old.macros ms → Steps self.old (named_step text.now ms (top_first self.old.branches) token after.now (by_name directive text.now ms (top_first self.old.branches) token after.now)) result self.new }
    {
        match line_name(text, after) {
            Some(name) => self.with_name(alloc, text, directive, name, token, after),
            None => Err(DirectiveError::Malformed(token.start)),
        }
    }

    // A directive or a use, where tokens are read.
    fn read_tick(
        &mut self,
        alloc: Global,
        text: &[u8],
        directive: Directive,
        token: Token,
        after: &[Token],
    ) -> Result<usize, DirectiveError>
        ensures { (ms : List Macro) → Keeps self.old.macros ms → Steps self.old (read_step directive text.now ms (top_first self.old.branches) token after.now) result self.new }
    {
        match directive {
            Directive::Use => self.spend(text, token, after),
            Directive::Dropped => Ok(line_count(after)),
            Directive::Define
            | Directive::Undef
            | Directive::Ifdef
            | Directive::Ifndef
            | Directive::Elsif
            | Directive::Else
            | Directive::Endif => self.named(alloc, text, directive, token, after),
        }
    }

    fn if_read(
        &mut self,
        alloc: Global,
        text: &[u8],
        directive: Directive,
        token: Token,
        after: &[Token],
    ) -> Result<usize, DirectiveError>
        ensures { (ms : List Macro) → Keeps self.old.macros ms → Steps self.old (if_read directive text.now ms (top_first self.old.branches) token after.now) result self.new }
    {
        if self.is_read() {
            self.read_tick(alloc, text, directive, token, after)
        } else {
            Ok(0)
        }
    }

    fn tick_as(
        &mut self,
        alloc: Global,
        text: &[u8],
        directive: Directive,
        token: Token,
        after: &[Token],
    ) -> Result<usize, DirectiveError>
        ensures { (ms : List Macro) → Keeps self.old.macros ms → Steps self.old (spec.tick_step text.now ms (top_first self.old.branches) token after.now (directive_shown directive)) result self.new }
    {
        match directive {
            Directive::Ifdef => self.named(alloc, text, Directive::Ifdef, token, after),
            Directive::Ifndef => self.named(alloc, text, Directive::Ifndef, token, after),
            Directive::Elsif => self.named(alloc, text, Directive::Elsif, token, after),
            Directive::Else => self.otherwise(text, token, after),
            Directive::Endif => self.end(text, token, after),
            Directive::Define => self.if_read(alloc, text, Directive::Define, token, after),
            Directive::Undef => self.if_read(alloc, text, Directive::Undef, token, after),
            Directive::Dropped => self.if_read(alloc, text, Directive::Dropped, token, after),
            Directive::Use => self.if_read(alloc, text, Directive::Use, token, after),
        }
    }

    fn tick(
        &mut self,
        alloc: Global,
        text: &[u8],
        token: Token,
        after: &[Token],
    ) -> Result<usize, DirectiveError>
        ensures { (ms : List Macro) → Keeps self.old.macros ms → Steps self.old (spec.tick_step text.now ms (top_first self.old.branches) token after.now (spec.directive_of (spec.word_of text.now token))) result self.new }
    {
        let directive = directive_of(word(text, token));
        self.tick_as(alloc, text, directive, token, after)
    }

    // Whether a token that is no tick gives nothing.
    fn passes(&self, kind: Kind) -> bool
        ensures { result ≡ (spec.is_line kind || spec.is_join kind || not (spec.is_read (top_first self.now.branches))) }
    {
        is_line(kind) || is_join(kind) || !self.is_read()
    }

    // Reads one token, and answers how many tokens after it a directive has taken.
    fn read(
        &mut self,
        alloc: Global,
        text: &[u8],
        token: Token,
        after: &[Token],
    ) -> Result<usize, DirectiveError>
        ensures { (ms : List Macro) → Keeps self.old.macros ms → Steps self.old (spec.step_of text.now ms (top_first self.old.branches) token after.now) result self.new }
    {
        if is_tick(token.kind) {
            return self.tick(alloc, text, token, after);
        }
        if self.passes(token.kind) {
            return Ok(0);
        }
        match self.out.give(token) {
            Ok(()) => Ok(0),
            Err(error) => Err(error),
        }
    }
}

fn split(rest: &[Token]) -> Option<(Token, &[Token])>
    ensures { MatchOption result (rest.now ≡ []) (λ parts. rest.now ≡ parts.0 ∷ parts.1.now) }
{
    let (token, after) = rest.split_first()?;
    Some((*token, after))
}

fn skip(list: &[Token], n: usize) -> &[Token]
    ensures { result.now ≡ drop n list.now }
{
    if n < list.len() {
        &list[n..]
    } else {
        &list[list.len()..]
    }
}

fn fold_list(alloc: Global, text: &[u8], list: &[Token]) -> Result<Output, DirectiveError>
    ensures ok { IfOk result (λ out. spec.reading_of text.now list.now ≡ done out) }
    ensures err { IfErr result (IsFoldAnswer (spec.reading_of text.now list.now)) }
{
    let mut fold = Fold {
        macros: Macros::new(alloc),
        branches: Items::new(alloc),
        out: Output::new(alloc),
    };
    let mut rest = list;
    while let Some((token, after)) = split(rest) {
        let taken = fold.read(alloc, text, token, after)?;
        rest = skip(after, taken);
    }
    if !fold.branches.is_empty() {
        return Err(DirectiveError::Unbalanced(text.len() as u64));
    }
    Ok(fold.into_output())
}

/// What the directives make of a token list (IEEE 1364-2005, section 19): the tokens that are kept, with the uses of
/// macros expanded. A refusal speaks of what is read, with the definitions that then stand, at the place of the tick of
/// its directive or use, or at the text's length for a conditional that is still open; `TooMany` carries the first
/// number above the limit of tokens given and uses made, and comes wherever that limit is passed before another
/// refusal.
pub fn directives(alloc: Global, tokens: Tokens) -> Result<Tokens, DirectiveError>
    ensures text { IfOk result (λ folded. folded.text ≡ tokens.text) }
    ensures list { IfOk result (λ folded. folded.list ≡ (spec.reading_of tokens.text tokens.list).tokens) }
    ensures unstopped { OnOk result ((spec.reading_of tokens.text tokens.list).stop ≡ None) }
    ensures few { OnOk result (spec.counted (spec.reading_of tokens.text tokens.list) ≤ 500000) }
    ensures refused { IfErr result (IsFoldRefusal (spec.reading_of tokens.text tokens.list)) }
    ensures unrefused { OnOk result ((e : DirectiveError) → IsFoldRefusal (spec.reading_of tokens.text tokens.list) e → e ≡ DirectiveError.NoMemory) }
    ensures many { 500000 < spec.counted (spec.reading_of tokens.text tokens.list) → IsErrAnd result IsFoldRefusalOfMany }
{
    let out = fold_list(alloc, tokens.text.bytes(), tokens.list.as_slice())?;
    let list = out.into_list();
    let text = tokens.into_text();
    Ok(Tokens { list, text })
}
