ghost use Rattle.std.specs.Prelude.{◌≡◌, ◌++◌, [], ◌∷◌, map, OnOk, codes, Option, Bool};
ghost use Rattle.lv_print.specs.Paper.{with_tokens, put};
ghost use Rattle.lv_print.specs.Written as written;
ghost use Rattle.lv_print.specs.Expressions as tokens;
ghost use Rattle.lv_print.specs.Sources as sources;

use crate::expr::{expr, exprs, path, selects};
use crate::paper::Paper;
use lv_ast::{Arm, Expr, Ident, Stmt, Target};
use lv_bits::NoMemory;
use lv_held::Held;
use sqlite_items::Boxed;
use std::alloc::Global;

#[cycle(targets)]
#[tactic(auto, using(crate::proofs::SourceRules::source_rules))]
fn targets(paper: &mut Paper, alloc: Global, list: &[Target]) -> Result<(), NoMemory>
    ensures { OnOk result (paper.new ≡ with_tokens paper.old (written.commas (map sources.target_tokens list.now))) }
{
    let mut first = true;
    for part in list {
        paper.comma(first)?;
        first = false;
        target(paper, alloc, part)?;
    }
    Ok(())
}

/// Writes what an assignment writes.
#[cycle(targets)]
#[tactic(auto, using(crate::proofs::SourceRules::source_rules))]
pub fn target(paper: &mut Paper, alloc: Global, x: &Target) -> Result<(), NoMemory>
    ensures { OnOk result (paper.new ≡ with_tokens paper.old (sources.target_tokens x.now)) }
{
    match x {
        Target::Name(name, list) => {
            path(paper, alloc, name)?;
            selects(paper, alloc, list.as_slice())
        }
        Target::Cat(parts) => {
            paper.mark(b"{")?;
            targets(paper, alloc, parts.as_slice())?;
            paper.mark(b"}")
        }
    }
}

#[tactic(auto, using(crate::proofs::SourceRules::source_rules))]
fn label_if(paper: &mut Paper, label: &Option<Ident>) -> Result<(), NoMemory>
    ensures { OnOk result (paper.new ≡ with_tokens paper.old (sources.perhaps sources.label_tokens label.now)) }
{
    match label {
        None => Ok(()),
        Some(label) => {
            paper.mark(b":")?;
            paper.name(&label.name)
        }
    }
}

/// Writes the head of a loop up to its test.
#[tactic(auto, using(crate::proofs::SourceRules::source_rules))]
pub fn loop_start(
    paper: &mut Paper,
    alloc: Global,
    index: &Ident,
    start: &Expr,
    test: &Expr,
) -> Result<(), NoMemory>
    ensures { OnOk result (paper.new ≡ with_tokens paper.old (sources.loop_start index.now start.now test.now)) }
{
    paper.word(b"for")?;
    paper.mark(b"(")?;
    paper.name(&index.name)?;
    paper.mark(b"=")?;
    expr(paper, alloc, start)?;
    paper.mark(b";")?;
    expr(paper, alloc, test)?;
    paper.mark(b";")
}

/// Writes the end of a loop's head.
#[tactic(auto, using(crate::proofs::SourceRules::source_rules))]
pub fn loop_next(
    paper: &mut Paper,
    alloc: Global,
    again: &Ident,
    next: &Expr,
) -> Result<(), NoMemory>
    ensures { OnOk result (paper.new ≡ with_tokens paper.old (sources.loop_next again.now next.now)) }
{
    paper.name(&again.name)?;
    paper.mark(b"=")?;
    expr(paper, alloc, next)?;
    paper.mark(b")")
}

fn case_word(paper: &mut Paper, wild: bool) -> Result<(), NoMemory>
    ensures { OnOk result (paper.new ≡ put paper.old (sources.case_word wild)) }
{
    if wild {
        paper.word(b"casez")
    } else {
        paper.word(b"case")
    }
}

#[tactic(auto, using(crate::proofs::SourceRules::source_rules))]
fn assigned(
    paper: &mut Paper,
    alloc: Global,
    arrow: &[u8],
    x: &Target,
    y: &Expr,
) -> Result<(), NoMemory>
    ensures { OnOk result (paper.new ≡ with_tokens paper.old (sources.assigned_tokens arrow.now x.now y.now)) }
{
    target(paper, alloc, x)?;
    paper.mark(arrow)?;
    expr(paper, alloc, y)?;
    paper.mark(b";")
}

#[tactic(auto, using(crate::proofs::SourceRules::source_rules))]
fn labels(paper: &mut Paper, alloc: Global, list: &[Expr]) -> Result<(), NoMemory>
    ensures { OnOk result (paper.new ≡ with_tokens paper.old (sources.labels_tokens list.now)) }
{
    if list.len() == 0 {
        paper.word(b"default")
    } else {
        exprs(paper, alloc, list)
    }
}

/// Writes an expression in parentheses.
#[tactic(auto, using(crate::proofs::SourceRules::source_rules))]
fn condition(paper: &mut Paper, alloc: Global, e: &Held<Expr>) -> Result<(), NoMemory>
    ensures { OnOk result (paper.new ≡ with_tokens paper.old (tokens.parens (tokens.expr_tokens e.now))) }
{
    paper.mark(b"(")?;
    expr(paper, alloc, e.get())?;
    paper.mark(b")")
}

#[cycle(statements)]
#[tactic(auto, using(crate::proofs::SourceRules::source_rules))]
fn stmts(paper: &mut Paper, alloc: Global, list: &[Stmt]) -> Result<(), NoMemory>
    ensures { OnOk result (paper.new ≡ with_tokens paper.old (written.joined (map sources.stmt_tokens list.now))) }
{
    for s in list {
        stmt(paper, alloc, s)?;
    }
    Ok(())
}

#[cycle(statements)]
#[tactic(auto, using(crate::proofs::SourceRules::source_rules))]
fn arm(paper: &mut Paper, alloc: Global, a: &Arm) -> Result<(), NoMemory>
    ensures { OnOk result (paper.new ≡ with_tokens paper.old (sources.arm_tokens a.now)) }
{
    labels(paper, alloc, a.labels.as_slice())?;
    paper.mark(b":")?;
    stmt(paper, alloc, &a.body)
}

#[cycle(statements)]
#[tactic(auto, using(crate::proofs::SourceRules::source_rules))]
fn arms(paper: &mut Paper, alloc: Global, list: &[Arm]) -> Result<(), NoMemory>
    ensures { OnOk result (paper.new ≡ with_tokens paper.old (written.joined (map sources.arm_tokens list.now))) }
{
    for a in list {
        arm(paper, alloc, a)?;
    }
    Ok(())
}

/// Writes the other branch of an `if`, where there is one.
#[cycle(statements)]
#[tactic(auto, using(crate::proofs::SourceRules::source_rules))]
fn else_if(paper: &mut Paper, alloc: Global, other: &Option<Boxed<Stmt>>) -> Result<(), NoMemory>
    ensures { OnOk result (paper.new ≡ with_tokens paper.old (sources.perhaps sources.else_stmt other.now)) }
{
    match other {
        None => Ok(()),
        Some(s) => {
            paper.word(b"else")?;
            stmt(paper, alloc, s.get())
        }
    }
}

/// Writes a statement.
#[cycle(statements)]
#[tactic(auto, using(crate::proofs::SourceRules::source_rules))]
pub fn stmt(paper: &mut Paper, alloc: Global, s: &Stmt) -> Result<(), NoMemory>
    ensures { OnOk result (paper.new ≡ with_tokens paper.old (sources.stmt_tokens s.now)) }
{
    match s {
        Stmt::Null => paper.mark(b";"),
        Stmt::Block(label, list) => {
            paper.word(b"begin")?;
            label_if(paper, label)?;
            stmts(paper, alloc, list.as_slice())?;
            paper.word(b"end")
        }
        Stmt::If(test, then, other) => {
            paper.word(b"if")?;
            condition(paper, alloc, test)?;
            stmt(paper, alloc, then.get())?;
            else_if(paper, alloc, other)
        }
        Stmt::Case(wild, x, list) => {
            case_word(paper, *wild)?;
            condition(paper, alloc, x)?;
            arms(paper, alloc, list.as_slice())?;
            paper.word(b"endcase")
        }
        Stmt::Loop(index, start, test, again, next, body) => {
            loop_start(paper, alloc, index, start.get(), test.get())?;
            loop_next(paper, alloc, again, next.get())?;
            stmt(paper, alloc, body.get())
        }
        Stmt::Now(x, y, _) => assigned(paper, alloc, b"=", x, y.get()),
        Stmt::Later(x, y, _) => assigned(paper, alloc, b"<=", x, y.get()),
    }
}
