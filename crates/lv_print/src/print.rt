ghost use Rattle.std.specs.Prelude.{◌≡◌, IfOk, Bool};
ghost use Rattle.lv_print.specs.Written.{text_of};
ghost use Rattle.lv_print.specs.Expressions.{expr_tokens};
ghost use Rattle.lv_print.specs.Sources.{source_tokens};
ghost use Rattle.lv_print.specs.Reads.{IsSpelledExpr, ReadsBackExpr, IsSpelledSource, ReadsBackSource};

use crate::expr::expr;
use crate::items::modules;
use crate::paper::Paper;
use lv_ast::{Expr, Source};
use lv_bits::{NoMemory, Text};
use std::alloc::Global;

#[tactic(auto, using(crate::proofs::Finished::finished))]
/// The canonical text of an expression. Where some list of tokens spells the expression, the text's tokens spell it again, but for
/// places. The one refusal is want of memory.
pub fn print_expr(alloc: Global, tree: &Expr) -> Result<Text, NoMemory>
    ensures text { IfOk result (λ t. t ≡ text_of (expr_tokens tree.now)) }
    ensures reads_back { IfOk result (λ t. (p : Bool) → IsSpelledExpr p tree.now → ReadsBackExpr p tree.now t) }
{
    let mut paper = Paper::new(alloc);
    expr(&mut paper, alloc, tree)?;
    paper.text(alloc)
}

/// The canonical text of a source. Where some list of tokens spells the source, the text's tokens, as the directives leave them,
/// spell it again, but for places. The one refusal is want of memory.
#[tactic(auto, using(crate::proofs::Finished::finished))]
pub fn print_source(alloc: Global, source: &Source) -> Result<Text, NoMemory>
    ensures text { IfOk result (λ t. t ≡ text_of (source_tokens source.now)) }
    ensures reads_back { IfOk result (λ t. IsSpelledSource source.now → ReadsBackSource source.now t) }
{
    let mut paper = Paper::new(alloc);
    modules(&mut paper, alloc, source.modules.as_slice())?;
    paper.text(alloc)
}
