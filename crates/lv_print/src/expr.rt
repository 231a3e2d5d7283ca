ghost use Rattle.std.specs.Prelude.{◌≡◌, ◌++◌, [], ◌∷◌, map, OnOk, codes, Option};
ghost use Rattle.lv_print.specs.Expressions as tokens;
ghost use Rattle.lv_print.specs.Paper.{with_tokens, put};
ghost use Rattle.lv_print.specs.Written as written;

use crate::paper::Paper;
use lv_ast::{Expr, Kind, Path, PathStep, Select};
use lv_bits::{NoMemory, Op};
use sqlite_items::Boxed;
use std::alloc::Global;

fn op_bytes(op: Op) -> &'static [u8]
    ensures { result.now ≡ tokens.op_bytes op }
{
    match op {
        Op::Neg => b"-",
        Op::Not => b"~",
        Op::LogNot => b"!",
        Op::RedAnd => b"&",
        Op::RedOr => b"|",
        Op::RedXor => b"^",
        Op::Add => b"+",
        Op::Sub => b"-",
        Op::Mul => b"*",
        Op::Shl => b"<<",
        Op::Shr => b">>",
        Op::Sar => b">>>",
        Op::Lt => b"<",
        Op::Le => b"<=",
        Op::Gt => b">",
        Op::Ge => b">=",
        Op::Eq => b"==",
        Op::Ne => b"!=",
        Op::And => b"&",
        Op::Or => b"|",
        Op::Xor => b"^",
        Op::Xnor => b"~^",
        Op::LogAnd => b"&&",
        Op::LogOr => b"||",
    }
}

#[tactic(auto, using(crate::proofs::Papers::writing))]
fn index(paper: &mut Paper, alloc: Global, index: Option<u128>) -> Result<(), NoMemory>
    ensures { OnOk result (paper.new ≡ with_tokens paper.old (tokens.index_tokens index)) }
{
    match index {
        None => Ok(()),
        Some(n) => {
            paper.mark(b"[")?;
            paper.number(alloc, n)?;
            paper.mark(b"]")
        }
    }
}

#[tactic(auto, using(crate::proofs::Papers::writing))]
fn step(paper: &mut Paper, alloc: Global, step: &PathStep) -> Result<(), NoMemory>
    ensures { OnOk result (paper.new ≡ with_tokens paper.old (tokens.step_tokens step.now)) }
{
    paper.name(&step.name)?;
    index(paper, alloc, step.index)?;
    paper.mark(b".")
}

fn steps(paper: &mut Paper, alloc: Global, steps: &[PathStep]) -> Result<(), NoMemory>
    ensures { OnOk result (paper.new ≡ with_tokens paper.old (written.joined (map tokens.step_tokens steps.now))) }
{
    for s in steps {
        step(paper, alloc, s)?;
    }
    Ok(())
}

/// Writes a path.
#[tactic(auto, using(crate::proofs::Papers::writing), unfolding(crate::specs::Expressions::path_tokens))]
pub fn path(paper: &mut Paper, alloc: Global, path: &Path) -> Result<(), NoMemory>
    ensures { OnOk result (paper.new ≡ with_tokens paper.old (tokens.path_tokens path.now)) }
{
    steps(paper, alloc, path.steps.as_slice())?;
    paper.name(&path.name)
}

/// Writes a mark and an expression behind it.
#[cycle(printing)]
#[tactic(auto, using(crate::proofs::Papers::expr_rules))]
fn behind(paper: &mut Paper, alloc: Global, mark: &[u8], e: &Boxed<Expr>) -> Result<(), NoMemory>
    ensures { OnOk result (paper.new ≡ with_tokens paper.old (written.mark mark.now ∷ tokens.expr_tokens e.now)) }
{
    paper.mark(mark)?;
    expr(paper, alloc, e.get())
}

/// Writes expressions with commas.
#[cycle(printing)]
#[tactic(auto, using(crate::proofs::Papers::expr_rules))]
pub fn exprs(paper: &mut Paper, alloc: Global, list: &[Expr]) -> Result<(), NoMemory>
    ensures { OnOk result (paper.new ≡ with_tokens paper.old (written.commas (map tokens.expr_tokens list.now))) }
{
    let mut first = true;
    for e in list {
        paper.comma(first)?;
        first = false;
        expr(paper, alloc, e)?;
    }
    Ok(())
}

#[cycle(printing)]
#[tactic(auto, using(crate::proofs::Papers::expr_rules))]
fn select(paper: &mut Paper, alloc: Global, select: &Select) -> Result<(), NoMemory>
    ensures { OnOk result (paper.new ≡ with_tokens paper.old (tokens.select_tokens select.now)) }
{
    match select {
        Select::Bit(a) => behind(paper, alloc, b"[", a)?,
        Select::Part(a, b) => {
            behind(paper, alloc, b"[", a)?;
            behind(paper, alloc, b":", b)?;
        }
        Select::Up(a, b) => {
            behind(paper, alloc, b"[", a)?;
            behind(paper, alloc, b"+:", b)?;
        }
        Select::Down(a, b) => {
            behind(paper, alloc, b"[", a)?;
            behind(paper, alloc, b"-:", b)?;
        }
    }
    paper.mark(b"]")
}

/// Writes the selects of a name.
#[cycle(printing)]
#[tactic(auto, using(crate::proofs::Papers::expr_rules))]
pub fn selects(paper: &mut Paper, alloc: Global, selects: &[Select]) -> Result<(), NoMemory>
    ensures { OnOk result (paper.new ≡ with_tokens paper.old (written.joined (map tokens.select_tokens selects.now))) }
{
    for s in selects {
        select(paper, alloc, s)?;
    }
    Ok(())
}

#[cycle(printing)]
#[tactic(auto, using(crate::proofs::Papers::expr_rules))]
fn braced(paper: &mut Paper, alloc: Global, parts: &[Expr]) -> Result<(), NoMemory>
    ensures { OnOk result (paper.new ≡ with_tokens paper.old (tokens.braces (written.commas (map tokens.expr_tokens parts.now)))) }
{
    paper.mark(b"{")?;
    exprs(paper, alloc, parts)?;
    paper.mark(b"}")
}

fn cast_word(paper: &mut Paper, signed: bool) -> Result<(), NoMemory>
    ensures { OnOk result (paper.new ≡ put paper.old (tokens.cast_word signed)) }
{
    if signed {
        paper.put(Kind::System, b"$signed")
    } else {
        paper.put(Kind::System, b"$unsigned")
    }
}

/// Writes an expression.
#[cycle(printing)]
#[tactic(auto, using(crate::proofs::Papers::expr_rules))]
pub fn expr(paper: &mut Paper, alloc: Global, e: &Expr) -> Result<(), NoMemory>
    ensures { OnOk result (paper.new ≡ with_tokens paper.old (tokens.expr_tokens e.now)) }
{
    match e {
        Expr::Lit(literal) => return paper.literal(alloc, literal),
        Expr::Name(name, list) => {
            path(paper, alloc, name)?;
            return selects(paper, alloc, list.as_slice());
        }
        Expr::Cat(parts) => return braced(paper, alloc, parts.as_slice()),
        Expr::Rep(count, parts) => {
            behind(paper, alloc, b"{", count)?;
            braced(paper, alloc, parts.as_slice())?;
            return paper.mark(b"}");
        }
        Expr::Un(op, a) => {
            paper.mark(b"(")?;
            behind(paper, alloc, op_bytes(*op), a)?;
        }
        Expr::Bin(op, a, b) => {
            behind(paper, alloc, b"(", a)?;
            behind(paper, alloc, op_bytes(*op), b)?;
        }
        Expr::Div(a, b) => {
            behind(paper, alloc, b"(", a)?;
            behind(paper, alloc, b"/", b)?;
        }
        Expr::Rem(a, b) => {
            behind(paper, alloc, b"(", a)?;
            behind(paper, alloc, b"%", b)?;
        }
        Expr::Cond(c, a, b) => {
            behind(paper, alloc, b"(", c)?;
            behind(paper, alloc, b"?", a)?;
            behind(paper, alloc, b":", b)?;
        }
        Expr::Cast(signed, a) => {
            cast_word(paper, *signed)?;
            behind(paper, alloc, b"(", a)?;
        }
    }
    paper.mark(b")")
}
