ghost use Rattle.std.specs.Prelude.{◌≡◌, IfOk};

use lv_bits::{NoMemory, Op, Text};
use sqlite_items::{Boxed, Items};
use std::alloc::Global;

/// A number (IEEE 1364-2005, section 3.5).
#[derive(Clone, Copy, PartialEq, Eq)]
pub struct Literal {
    /// Its width in bits, where it is written; else it has 32.
    pub size: Option<u128>,
    /// Whether it is a decimal number without a base.
    pub plain: bool,
    pub signed: bool,
    pub value: u128,
    /// The free bits, those of the digits `z` and `?`.
    pub wild: u128,
    /// The byte of its first token in the text.
    pub place: u64,
}

/// A scope in a path, with the number of a turn where it is one of a generate loop.
pub struct PathStep {
    pub name: Text,
    pub index: Option<u128>,
}

impl Drop for PathStep {
    fn drop(self) {
        let PathStep { name, index: _ } = self;
        drop(name);
    }
}

/// A name, in a contract file with the scopes that lead to it.
pub struct Path {
    pub steps: Items<PathStep>,
    pub name: Text,
    pub place: u64,
}

impl Drop for Path {
    fn drop(self) {
        let Path {
            steps,
            name,
            place: _,
        } = self;
        drop(steps);
        drop(name);
    }
}

/// A bit or part select (IEEE 1364-2005, section 5.2): `[e]`, `[l:r]`, `[e +: w]`, `[e -: w]`.
#[cycle(ast)]
#[derive(Drop)]
pub enum Select {
    Bit(Boxed<Expr>),
    Part(Boxed<Expr>, Boxed<Expr>),
    Up(Boxed<Expr>, Boxed<Expr>),
    Down(Boxed<Expr>, Boxed<Expr>),
}

/// An expression (IEEE 1364-2005, section 5). Parentheses and unary `+` leave no node.
#[cycle(ast)]
#[derive(Drop)]
pub enum Expr {
    Lit(Literal),
    Name(Path, Items<Select>),
    Un(Op, Boxed<Expr>),
    Bin(Op, Boxed<Expr>, Boxed<Expr>),
    Div(Boxed<Expr>, Boxed<Expr>),
    Rem(Boxed<Expr>, Boxed<Expr>),
    Cond(Boxed<Expr>, Boxed<Expr>, Boxed<Expr>),
    Cat(Items<Expr>),
    Rep(Boxed<Expr>, Items<Expr>),
    /// Whether it is `$signed`.
    Cast(bool, Boxed<Expr>),
}

impl PathStep {
    pub fn copy(&self, alloc: Global) -> Result<PathStep, NoMemory>
        ensures { IfOk result (λ s. s ≡ self.now) }
    {
        let name = self.name.copy(alloc)?;
        Ok(PathStep {
            name,
            index: self.index,
        })
    }
}

fn copy_steps(alloc: Global, steps: &[PathStep]) -> Result<Items<PathStep>, NoMemory>
    ensures { IfOk result (λ s. s ≡ steps.now) }
{
    let mut copies = Items::new(alloc);
    for step in steps {
        copies.push(step.copy(alloc)?)?;
    }
    Ok(copies)
}

impl Path {
    /// Its fields.
    pub fn into_parts(self) -> (Items<PathStep>, Text, u64)
        ensures { result ≡ (self.steps, self.name, self.place) }
    {
        let Path { steps, name, place } = self;
        (steps, name, place)
    }

    pub fn copy(&self, alloc: Global) -> Result<Path, NoMemory>
        ensures { IfOk result (λ p. p ≡ self.now) }
    {
        let steps = copy_steps(alloc, self.steps.as_slice())?;
        let name = self.name.copy(alloc)?;
        Ok(Path {
            steps,
            name,
            place: self.place,
        })
    }
}

#[cycle(copies)]
fn copy_boxed(alloc: Global, expr: &Boxed<Expr>) -> Result<Boxed<Expr>, NoMemory>
    ensures { IfOk result (λ e. e ≡ expr.now) }
{
    let copied = expr.get().copy(alloc)?;
    Ok(Boxed::new(alloc, copied)?)
}

#[cycle(copies)]
fn copy_all(alloc: Global, exprs: &[Expr]) -> Result<Items<Expr>, NoMemory>
    ensures { IfOk result (λ s. s ≡ exprs.now) }
{
    let mut copies = Items::new(alloc);
    for expr in exprs {
        copies.push(expr.copy(alloc)?)?;
    }
    Ok(copies)
}

#[cycle(copies)]
fn copy_selects(alloc: Global, selects: &[Select]) -> Result<Items<Select>, NoMemory>
    ensures { IfOk result (λ s. s ≡ selects.now) }
{
    let mut copies = Items::new(alloc);
    for select in selects {
        copies.push(select.copy(alloc)?)?;
    }
    Ok(copies)
}

impl Select {
    #[cycle(copies)]
    pub fn copy(&self, alloc: Global) -> Result<Select, NoMemory>
        ensures { IfOk result (λ s. s ≡ self.now) }
    {
        match self {
            Select::Bit(index) => Ok(Select::Bit(copy_boxed(alloc, index)?)),
            Select::Part(left, right) => {
                let left = copy_boxed(alloc, left)?;
                Ok(Select::Part(left, copy_boxed(alloc, right)?))
            }
            Select::Up(from, width) => {
                let from = copy_boxed(alloc, from)?;
                Ok(Select::Up(from, copy_boxed(alloc, width)?))
            }
            Select::Down(from, width) => {
                let from = copy_boxed(alloc, from)?;
                Ok(Select::Down(from, copy_boxed(alloc, width)?))
            }
        }
    }
}

impl Expr {
    /// An equal tree. The one refusal is want of memory.
    #[cycle(copies)]
    pub fn copy(&self, alloc: Global) -> Result<Expr, NoMemory>
        ensures { IfOk result (λ e. e ≡ self.now) }
    {
        match self {
            Expr::Lit(literal) => Ok(Expr::Lit(*literal)),
            Expr::Name(path, selects) => {
                let path = path.copy(alloc)?;
                Ok(Expr::Name(path, copy_selects(alloc, selects.as_slice())?))
            }
            Expr::Un(op, a) => Ok(Expr::Un(*op, copy_boxed(alloc, a)?)),
            Expr::Bin(op, a, b) => {
                let a = copy_boxed(alloc, a)?;
                Ok(Expr::Bin(*op, a, copy_boxed(alloc, b)?))
            }
            Expr::Div(a, b) => {
                let a = copy_boxed(alloc, a)?;
                Ok(Expr::Div(a, copy_boxed(alloc, b)?))
            }
            Expr::Rem(a, b) => {
                let a = copy_boxed(alloc, a)?;
                Ok(Expr::Rem(a, copy_boxed(alloc, b)?))
            }
            Expr::Cond(c, a, b) => {
                let c = copy_boxed(alloc, c)?;
                let a = copy_boxed(alloc, a)?;
                Ok(Expr::Cond(c, a, copy_boxed(alloc, b)?))
            }
            Expr::Cat(parts) => Ok(Expr::Cat(copy_all(alloc, parts.as_slice())?)),
            Expr::Rep(count, parts) => {
                let count = copy_boxed(alloc, count)?;
                Ok(Expr::Rep(count, copy_all(alloc, parts.as_slice())?))
            }
            Expr::Cast(signed, a) => Ok(Expr::Cast(*signed, copy_boxed(alloc, a)?)),
        }
    }
}
