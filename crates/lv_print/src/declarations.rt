ghost use Rattle.std.specs.Prelude.{◌≡◌, ◌++◌, [], ◌∷◌, map, OnOk, codes, Option, Bool};
ghost use Rattle.lv_print.specs.Paper.{with_tokens, put};
ghost use Rattle.lv_print.specs.Written as written;
ghost use Rattle.lv_print.specs.Expressions as tokens;
ghost use Rattle.lv_print.specs.Sources as sources;

use crate::expr::expr;
use crate::lists::{Print, commas};
use crate::paper::Paper;
use lv_ast::{Aport, Expr, Ident, NetName, Params, PortWord, Range, RegName, Setting};
use lv_bits::NoMemory;
use lv_held::Held;
use std::alloc::Global;

impl Print for Ident {
    ghost tokens = { sources.ident_tokens };

    #[tactic(auto, using(crate::proofs::Papers::writing))]
    fn print(&self, paper: &mut Paper, _: Global) -> Result<(), NoMemory> {
        paper.name(&self.name)
    }
}

#[tactic(auto, using(crate::proofs::Papers::writing))]
fn range(paper: &mut Paper, alloc: Global, range: &Range) -> Result<(), NoMemory>
    ensures { OnOk result (paper.new ≡ with_tokens paper.old (sources.range_tokens range.now)) }
{
    paper.mark(b"[")?;
    expr(paper, alloc, range.left.get())?;
    paper.mark(b":")?;
    expr(paper, alloc, range.right.get())?;
    paper.mark(b"]")
}

/// Writes a range where there is one.
#[tactic(auto, using(crate::proofs::Papers::writing))]
pub fn range_if(paper: &mut Paper, alloc: Global, bounds: &Option<Range>) -> Result<(), NoMemory>
    ensures { OnOk result (paper.new ≡ with_tokens paper.old (sources.perhaps sources.range_tokens bounds.now)) }
{
    match bounds {
        None => Ok(()),
        Some(bounds) => range(paper, alloc, bounds),
    }
}

/// Writes `signed` and a range where they are.
#[tactic(auto, using(crate::proofs::Papers::writing))]
pub fn header(
    paper: &mut Paper,
    alloc: Global,
    signed: bool,
    bounds: &Option<Range>,
) -> Result<(), NoMemory>
    ensures { OnOk result (paper.new ≡ with_tokens paper.old (sources.header_tokens signed bounds.now)) }
{
    if signed {
        paper.word(b"signed")?;
    }
    range_if(paper, alloc, bounds)
}

impl Print for Setting {
    ghost tokens = { sources.setting_tokens };

    #[tactic(auto, using(crate::proofs::Papers::writing))]
    fn print(&self, paper: &mut Paper, alloc: Global) -> Result<(), NoMemory> {
        paper.name(&self.name.name)?;
        paper.mark(b"=")?;
        expr(paper, alloc, self.value.get())
    }
}

/// Writes parameters without their keyword.
#[tactic(auto, using(crate::proofs::Papers::writing))]
pub fn params(paper: &mut Paper, alloc: Global, params: &Params) -> Result<(), NoMemory>
    ensures { OnOk result (paper.new ≡ with_tokens paper.old (sources.params_tokens params.now)) }
{
    header(paper, alloc, params.signed, &params.range)?;
    commas(paper, alloc, params.list.as_slice())
}

impl Print for Params {
    ghost tokens = { sources.group_tokens };

    #[tactic(auto, using(crate::proofs::Papers::writing))]
    fn print(&self, paper: &mut Paper, alloc: Global) -> Result<(), NoMemory> {
        paper.word(b"parameter")?;
        params(paper, alloc, self)
    }
}

fn direction(paper: &mut Paper, output: bool) -> Result<(), NoMemory>
    ensures { OnOk result (paper.new ≡ put paper.old (sources.direction output)) }
{
    if output {
        paper.word(b"output")
    } else {
        paper.word(b"input")
    }
}

#[tactic(auto, using(crate::proofs::Papers::writing))]
fn port_word(paper: &mut Paper, word: PortWord) -> Result<(), NoMemory>
    ensures { OnOk result (paper.new ≡ with_tokens paper.old (sources.port_word_tokens word)) }
{
    match word {
        PortWord::Absent => Ok(()),
        PortWord::Wire => paper.word(b"wire"),
        PortWord::Reg => paper.word(b"reg"),
    }
}

impl Print for Aport {
    ghost tokens = { sources.port_tokens };

    #[tactic(auto, using(crate::proofs::Papers::writing))]
    fn print(&self, paper: &mut Paper, alloc: Global) -> Result<(), NoMemory> {
        direction(paper, self.output)?;
        port_word(paper, self.word)?;
        header(paper, alloc, self.signed, &self.range)?;
        commas(paper, alloc, self.names.as_slice())
    }
}

/// Writes `=` and a value.
#[tactic(auto, using(crate::proofs::Papers::writing))]
pub fn value(paper: &mut Paper, alloc: Global, e: &Expr) -> Result<(), NoMemory>
    ensures { OnOk result (paper.new ≡ with_tokens paper.old (sources.value_tokens e.now)) }
{
    paper.mark(b"=")?;
    expr(paper, alloc, e)
}

#[tactic(auto, using(crate::proofs::Papers::writing))]
fn value_if(paper: &mut Paper, alloc: Global, e: &Option<Held<Expr>>) -> Result<(), NoMemory>
    ensures { OnOk result (paper.new ≡ with_tokens paper.old (sources.perhaps sources.value_tokens e.now)) }
{
    match e {
        None => Ok(()),
        Some(e) => value(paper, alloc, e.get()),
    }
}

impl Print for NetName {
    ghost tokens = { sources.net_tokens };

    #[tactic(auto, using(crate::proofs::Papers::writing))]
    fn print(&self, paper: &mut Paper, alloc: Global) -> Result<(), NoMemory> {
        paper.name(&self.name.name)?;
        value_if(paper, alloc, &self.value)
    }
}

impl Print for RegName {
    ghost tokens = { sources.reg_tokens };

    #[tactic(auto, using(crate::proofs::Papers::writing))]
    fn print(&self, paper: &mut Paper, alloc: Global) -> Result<(), NoMemory> {
        paper.name(&self.name.name)?;
        range_if(paper, alloc, &self.bounds)
    }
}
