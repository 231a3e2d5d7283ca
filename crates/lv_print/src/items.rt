ghost use Rattle.std.specs.Prelude.{◌≡◌, ◌++◌, [], ◌∷◌, map, OnOk, codes, Option, Bool};
ghost use Rattle.lv_print.specs.Paper.{with_tokens, put};
ghost use Rattle.lv_print.specs.Written as written;
ghost use Rattle.lv_print.specs.Expressions as tokens;
ghost use Rattle.lv_print.specs.Sources as sources;

use crate::declarations::{header, params, value};
use crate::expr::expr;
use crate::lists::{Print, commas, hash, in_parens};
use crate::paper::Paper;
use crate::statements::{loop_next, loop_start, stmt, target};
use lv_ast::{
    Conn, Continuous, Expr, Ident, Inst, Item, Module, NetName, Params, Ports, Range, RegName,
    Watch,
};
use lv_bits::NoMemory;
use lv_held::Held;
use std::alloc::Global;

impl Print for Continuous {
    ghost tokens = { sources.continuous_tokens };

    #[tactic(auto, using(crate::proofs::Papers::writing))]
    fn print(&self, paper: &mut Paper, alloc: Global) -> Result<(), NoMemory> {
        target(paper, alloc, &self.target)?;
        value(paper, alloc, self.value.get())
    }
}

#[tactic(auto, using(crate::proofs::Papers::writing))]
fn watch(paper: &mut Paper, event: &Watch) -> Result<(), NoMemory>
    ensures { OnOk result (paper.new ≡ with_tokens paper.old (sources.watch_tokens event.now)) }
{
    match event {
        Watch::Star => paper.mark(b"*"),
        Watch::Closed => {
            paper.mark(b"(")?;
            paper.mark(b"*")?;
            paper.mark(b")")
        }
        Watch::Posedge(clock) => {
            paper.mark(b"(")?;
            paper.word(b"posedge")?;
            paper.name(&clock.name)?;
            paper.mark(b")")
        }
    }
}

#[tactic(auto, using(crate::proofs::Papers::writing))]
fn expr_if(paper: &mut Paper, alloc: Global, e: &Option<Held<Expr>>) -> Result<(), NoMemory>
    ensures { OnOk result (paper.new ≡ with_tokens paper.old (sources.perhaps tokens.expr_tokens e.now)) }
{
    match e {
        None => Ok(()),
        Some(e) => expr(paper, alloc, e.get()),
    }
}

#[tactic(auto, using(crate::proofs::Papers::writing))]
fn named_conn(
    paper: &mut Paper,
    alloc: Global,
    name: &Ident,
    e: &Option<Held<Expr>>,
) -> Result<(), NoMemory>
    ensures { OnOk result (paper.new ≡ with_tokens paper.old (sources.conn_of (Option.Some name.now) (sources.perhaps tokens.expr_tokens e.now))) }
{
    paper.mark(b".")?;
    paper.name(&name.name)?;
    paper.mark(b"(")?;
    expr_if(paper, alloc, e)?;
    paper.mark(b")")
}

impl Print for Conn {
    ghost tokens = { sources.conn_tokens };

    #[tactic(auto, using(crate::proofs::Papers::writing))]
    fn print(&self, paper: &mut Paper, alloc: Global) -> Result<(), NoMemory> {
        match &self.name {
            None => expr_if(paper, alloc, &self.value),
            Some(name) => named_conn(paper, alloc, name, &self.value),
        }
    }
}

impl Print for Inst {
    ghost tokens = { sources.inst_tokens };

    #[tactic(auto, using(crate::proofs::Papers::writing))]
    fn print(&self, paper: &mut Paper, alloc: Global) -> Result<(), NoMemory> {
        paper.name(&self.name.name)?;
        in_parens(paper, alloc, self.conns.as_slice())
    }
}

#[tactic(auto, using(crate::proofs::Papers::writing))]
fn wires(
    paper: &mut Paper,
    alloc: Global,
    signed: bool,
    range: &Option<Range>,
    names: &[NetName],
) -> Result<(), NoMemory>
    ensures { OnOk result (paper.new ≡ with_tokens paper.old (sources.declared_tokens (written.word (codes "wire")) signed range.now (map sources.net_tokens names.now))) }
{
    paper.word(b"wire")?;
    header(paper, alloc, signed, range)?;
    commas(paper, alloc, names)?;
    paper.mark(b";")
}

#[tactic(auto, using(crate::proofs::Papers::writing))]
fn regs(
    paper: &mut Paper,
    alloc: Global,
    signed: bool,
    range: &Option<Range>,
    names: &[RegName],
) -> Result<(), NoMemory>
    ensures { OnOk result (paper.new ≡ with_tokens paper.old (sources.declared_tokens (written.word (codes "reg")) signed range.now (map sources.reg_tokens names.now))) }
{
    paper.word(b"reg")?;
    header(paper, alloc, signed, range)?;
    commas(paper, alloc, names)?;
    paper.mark(b";")
}

fn index_word(paper: &mut Paper, genvar: bool) -> Result<(), NoMemory>
    ensures { OnOk result (paper.new ≡ put paper.old (sources.index_word genvar)) }
{
    if genvar {
        paper.word(b"genvar")
    } else {
        paper.word(b"integer")
    }
}

fn params_word(paper: &mut Paper, is_local: bool) -> Result<(), NoMemory>
    ensures { OnOk result (paper.new ≡ put paper.old (sources.params_word is_local)) }
{
    if is_local {
        paper.word(b"localparam")
    } else {
        paper.word(b"parameter")
    }
}

#[tactic(auto, using(crate::proofs::Papers::writing))]
fn indices(paper: &mut Paper, alloc: Global, genvar: bool, names: &[Ident]) -> Result<(), NoMemory>
    ensures { OnOk result (paper.new ≡ with_tokens paper.old (sources.index_word genvar ∷ (written.commas (map sources.ident_tokens names.now) ++ sources.end))) }
{
    index_word(paper, genvar)?;
    commas(paper, alloc, names)?;
    paper.mark(b";")
}

#[tactic(auto, using(crate::proofs::Papers::writing))]
fn parameters(
    paper: &mut Paper,
    alloc: Global,
    is_local: bool,
    list: &Params,
) -> Result<(), NoMemory>
    ensures { OnOk result (paper.new ≡ with_tokens paper.old (sources.params_word is_local ∷ (sources.params_tokens list.now ++ sources.end))) }
{
    params_word(paper, is_local)?;
    params(paper, alloc, list)?;
    paper.mark(b";")
}

#[tactic(auto, using(crate::proofs::Papers::writing))]
fn assigns(paper: &mut Paper, alloc: Global, list: &[Continuous]) -> Result<(), NoMemory>
    ensures { OnOk result (paper.new ≡ with_tokens paper.old (written.word (codes "assign") ∷ (written.commas (map sources.continuous_tokens list.now) ++ sources.end))) }
{
    paper.word(b"assign")?;
    commas(paper, alloc, list)?;
    paper.mark(b";")
}

#[tactic(auto, using(crate::proofs::Papers::writing))]
fn instances(
    paper: &mut Paper,
    alloc: Global,
    name: &Ident,
    settings: &[Conn],
    list: &[Inst],
) -> Result<(), NoMemory>
    ensures { OnOk result (paper.new ≡ with_tokens paper.old (sources.instance_tokens name.now settings.now list.now)) }
{
    paper.name(&name.name)?;
    hash(paper, alloc, settings)?;
    commas(paper, alloc, list)?;
    paper.mark(b";")
}

#[cycle(items)]
#[tactic(auto, using(crate::proofs::SourceRules::source_rules))]
fn items(paper: &mut Paper, alloc: Global, list: &[Item]) -> Result<(), NoMemory>
    ensures { OnOk result (paper.new ≡ with_tokens paper.old (written.joined (map sources.item_tokens list.now))) }
{
    for x in list {
        item(paper, alloc, x)?;
    }
    Ok(())
}

#[cycle(items)]
#[tactic(auto, using(crate::proofs::SourceRules::source_rules))]
fn block(paper: &mut Paper, alloc: Global, label: &Ident, list: &[Item]) -> Result<(), NoMemory>
    ensures { OnOk result (paper.new ≡ with_tokens paper.old (sources.block_tokens label.now (written.joined (map sources.item_tokens list.now)))) }
{
    paper.word(b"begin")?;
    paper.mark(b":")?;
    paper.name(&label.name)?;
    items(paper, alloc, list)?;
    paper.word(b"end")
}

/// Writes an item.
#[cycle(items)]
#[tactic(auto, using(crate::proofs::SourceRules::source_rules))]
fn item(paper: &mut Paper, alloc: Global, x: &Item) -> Result<(), NoMemory>
    ensures { OnOk result (paper.new ≡ with_tokens paper.old (sources.item_tokens x.now)) }
{
    match x {
        Item::Port(port) => {
            port.print(paper, alloc)?;
            paper.mark(b";")
        }
        Item::Wire(signed, range, names) => wires(paper, alloc, *signed, range, names.as_slice()),
        Item::Reg(signed, range, names) => regs(paper, alloc, *signed, range, names.as_slice()),
        Item::Index(genvar, names) => indices(paper, alloc, *genvar, names.as_slice()),
        Item::Params(local, list) => parameters(paper, alloc, *local, list),
        Item::Assign(list) => assigns(paper, alloc, list.as_slice()),
        Item::Always(event, body, _) => {
            paper.word(b"always")?;
            paper.mark(b"@")?;
            watch(paper, event)?;
            stmt(paper, alloc, body)
        }
        Item::Instance(name, settings, list) => {
            instances(paper, alloc, name, settings.as_slice(), list.as_slice())
        }
        Item::Generate(list) => {
            paper.word(b"generate")?;
            items(paper, alloc, list.as_slice())?;
            paper.word(b"endgenerate")
        }
        Item::Loop(index, start, test, again, next, label, list) => {
            loop_start(paper, alloc, index, start.get(), test.get())?;
            loop_next(paper, alloc, again, next.get())?;
            block(paper, alloc, label, list.as_slice())
        }
    }
}

#[tactic(auto, using(crate::proofs::Papers::writing))]
fn ports(paper: &mut Paper, alloc: Global, list: &Ports) -> Result<(), NoMemory>
    ensures { OnOk result (paper.new ≡ with_tokens paper.old (sources.ports_tokens list.now)) }
{
    match list {
        Ports::Absent => Ok(()),
        Ports::Empty => {
            paper.mark(b"(")?;
            paper.mark(b")")
        }
        Ports::Names(names) => in_parens(paper, alloc, names.as_slice()),
        Ports::Declared(declared) => in_parens(paper, alloc, declared.as_slice()),
    }
}

/// Writes a module's head.
#[tactic(auto, using(crate::proofs::Papers::writing))]
fn module_head(paper: &mut Paper, alloc: Global, m: &Module) -> Result<(), NoMemory>
    ensures { OnOk result (paper.new ≡ with_tokens paper.old (sources.module_head m.now)) }
{
    paper.word(b"module")?;
    paper.name(&m.name.name)?;
    hash(paper, alloc, m.params.as_slice())?;
    ports(paper, alloc, &m.ports)?;
    paper.mark(b";")
}

#[tactic(auto, using(crate::proofs::SourceRules::module_rules))]
fn module(paper: &mut Paper, alloc: Global, m: &Module) -> Result<(), NoMemory>
    ensures { OnOk result (paper.new ≡ with_tokens paper.old (sources.module_tokens m.now)) }
{
    module_head(paper, alloc, m)?;
    items(paper, alloc, m.items.as_slice())?;
    paper.word(b"endmodule")
}

/// Writes modules.
pub fn modules(paper: &mut Paper, alloc: Global, list: &[Module]) -> Result<(), NoMemory>
    ensures { OnOk result (paper.new ≡ with_tokens paper.old (written.joined (map sources.module_tokens list.now))) }
{
    for m in list {
        module(paper, alloc, m)?;
    }
    Ok(())
}
