ghost use Rattle.std.specs.Prelude.{◌≡◌, List, map, OnOk};
ghost use Rattle.lv_print.specs.Paper.{with_tokens};
ghost use Rattle.lv_print.specs.Written as written;
ghost use Rattle.lv_print.specs.Sources as sources;
ghost use Rattle.lv_print.specs.Expressions as tokens;

use crate::paper::Paper;
use lv_bits::NoMemory;
use std::alloc::Global;

/// What has tokens.
pub trait Print {
    ghost tokens: { Self → List written.Written };

    fn print(&self, paper: &mut Paper, alloc: Global) -> Result<(), NoMemory>
        ensures { OnOk result (paper.new ≡ with_tokens paper.old (tokens self.now)) };
}

/// Writes a list with commas.
pub fn commas<T: Print>(paper: &mut Paper, alloc: Global, items: &[T]) -> Result<(), NoMemory>
    ensures { OnOk result (paper.new ≡ with_tokens paper.old (written.commas (map T.tokens items.now))) }
{
    let mut first = true;
    for item in items {
        paper.comma(first)?;
        first = false;
        item.print(paper, alloc)?;
    }
    Ok(())
}

/// Writes a list in parentheses behind `#`, unless it is empty.
#[tactic(auto, using(crate::proofs::Papers::writing))]
pub fn hash<T: Print>(paper: &mut Paper, alloc: Global, items: &[T]) -> Result<(), NoMemory>
    ensures { OnOk result (paper.new ≡ with_tokens paper.old (sources.hash (map T.tokens items.now))) }
{
    if items.len() == 0 {
        return Ok(());
    }
    paper.mark(b"#")?;
    in_parens(paper, alloc, items)
}

/// Writes a list in parentheses.
#[tactic(auto, using(crate::proofs::Papers::writing))]
pub fn in_parens<T: Print>(paper: &mut Paper, alloc: Global, items: &[T]) -> Result<(), NoMemory>
    ensures { OnOk result (paper.new ≡ with_tokens paper.old (tokens.parens (written.commas (map T.tokens items.now)))) }
{
    paper.mark(b"(")?;
    commas(paper, alloc, items)?;
    paper.mark(b")")
}
