ghost use Rattle.std.specs.Prelude.{◌≡◌, IfOk, [], ◌∷◌};
ghost use Rattle.lv_exprs.specs.Forms as forms;
ghost use Rattle.lv_exprs.specs.Trees as trees;
ghost use Rattle.lv_exprs.specs.Steps as step;

use crate::operand::Content;
use crate::symbol::{Based, Divider, Name, Number, Sign};
use lv_ast::{Expr, Literal, Path, PathStep, Select};
use lv_bits::{NoMemory, Op, Text};
use lv_held::Held;
use sqlite_items::{Boxed, Items};
use std::alloc::Global;

pub fn plain_literal(number: Number) -> Literal
    ensures { result ≡ trees.plain_literal number }
{
    Literal {
        size: None,
        plain: true,
        signed: true,
        value: number.value,
        wild: 0,
        place: number.place,
    }
}

pub fn based_literal(based: Based) -> Literal
    ensures { result ≡ trees.based_literal based }
{
    Literal {
        size: None,
        plain: false,
        signed: based.signed,
        value: based.value,
        wild: based.wild,
        place: based.place,
    }
}

/// The bits below `size`.
fn cut(size: u128, bits: u128) -> u128
    ensures { result ≡ forms.cut size bits }
{
    if size < 128 {
        bits & ((1u128 << (size as u32)) - 1)
    } else {
        bits
    }
}

pub fn sized_literal(number: Number, based: Based) -> Literal
    ensures { result ≡ trees.sized_literal number based }
{
    Literal {
        size: Some(number.value),
        plain: false,
        signed: based.signed,
        value: cut(number.value, based.value),
        wild: cut(number.value, based.wild),
        place: number.place,
    }
}

/// The bytes of a name.
fn bytes_of(text: &[u8], name: Name) -> &[u8]
    ensures { result.now ≡ trees.bytes_of text.now name }
{
    let end = (name.end as usize).min(text.len());
    let start = (name.start as usize).min(end);
    &text[start..end]
}

pub fn path_behind(
    alloc: Global,
    text: &[u8],
    steps: Items<PathStep>,
    name: Name,
    place: u64,
) -> Result<Path, NoMemory>
    ensures { IfOk result (λ p. p ≡ record { steps = steps; name = trees.bytes_of text.now name; place = place }) }
{
    let name = Text::new(alloc, bytes_of(text, name))?;
    Ok(Path { steps, name, place })
}

/// The steps of a path that goes on behind a dot, and its place.
pub fn steps_behind(path: Path, index: Option<u128>) -> Result<(Items<PathStep>, u64), NoMemory>
    ensures { IfOk result (λ r. r ≡ (trees.steps_behind path index, path.place)) }
{
    let (mut steps, name, place) = path.into_parts();
    steps.push(PathStep { name, index })?;
    Ok((steps, place))
}

pub fn select_one(alloc: Global, index: Held<Expr>) -> Result<Select, NoMemory>
    ensures { IfOk result (λ s. s ≡ Select.Bit index) }
{
    Ok(Select::Bit(Boxed::new(alloc, index.into_inner())?))
}

/// A name and its one select.
pub fn element_selects(alloc: Global, number: Number) -> Result<Items<Select>, NoMemory>
    ensures { IfOk result (λ ss. ss ≡ Select.Bit (Expr.Lit (trees.plain_literal number)) ∷ []) }
{
    let select = select_one(alloc, Held::new(Expr::Lit(plain_literal(number))))?;
    let mut selects = Items::new(alloc);
    selects.push(select)?;
    Ok(selects)
}

pub fn into_tree(alloc: Global, content: Content) -> Result<Held<Expr>, NoMemory>
    ensures { IfOk result (λ e. e ≡ step.tree_of content) }
{
    match content {
        Content::Number(number) => Ok(Held::new(Expr::Lit(plain_literal(number)))),
        Content::Name(path, selects) => Ok(Held::new(Expr::Name(path, selects))),
        Content::Element(path, number) => {
            let selects = element_selects(alloc, number)?;
            Ok(Held::new(Expr::Name(path, selects)))
        }
        Content::Tree(tree) => Ok(tree),
    }
}

fn one(alloc: Global, op: Op, x: Held<Expr>) -> Result<Held<Expr>, NoMemory>
    ensures { IfOk result (λ e. e ≡ Expr.Un op x) }
{
    Ok(Held::new(Expr::Un(op, Boxed::new(alloc, x.into_inner())?)))
}

fn turned(alloc: Global, op: Op, x: Held<Expr>) -> Result<Held<Expr>, NoMemory>
    ensures { IfOk result (λ e. e ≡ Expr.Un Op.LogNot (Expr.Un op x)) }
{
    let reduced = one(alloc, op, x)?;
    one(alloc, Op::LogNot, reduced)
}

/// The tree of an operand behind a sign.
pub fn unary(alloc: Global, sign: Sign, x: Held<Expr>) -> Result<Held<Expr>, NoMemory>
    ensures { IfOk result (λ e. e ≡ trees.unary sign x) }
{
    match sign {
        Sign::Minus => one(alloc, Op::Neg, x),
        Sign::Tilde => one(alloc, Op::Not, x),
        Sign::Bang => one(alloc, Op::LogNot, x),
        Sign::Amp => one(alloc, Op::RedAnd, x),
        Sign::Bar => one(alloc, Op::RedOr, x),
        Sign::Caret => one(alloc, Op::RedXor, x),
        Sign::TildeAmp => turned(alloc, Op::RedAnd, x),
        Sign::TildeBar => turned(alloc, Op::RedOr, x),
        Sign::TildeCaret => turned(alloc, Op::RedXor, x),
        Sign::CaretTilde => turned(alloc, Op::RedXor, x),
        _ => Ok(x),
    }
}

fn infix_op(sign: Sign) -> Op
    ensures { result ≡ trees.infix_op sign }
{
    match sign {
        Sign::BarBar => Op::LogOr,
        Sign::AmpAmp => Op::LogAnd,
        Sign::Bar => Op::Or,
        Sign::Caret => Op::Xor,
        Sign::TildeCaret | Sign::CaretTilde => Op::Xnor,
        Sign::Amp => Op::And,
        Sign::EqualEqual => Op::Eq,
        Sign::BangEqual => Op::Ne,
        Sign::Less => Op::Lt,
        Sign::LessEqual => Op::Le,
        Sign::Greater => Op::Gt,
        Sign::GreaterEqual => Op::Ge,
        Sign::LessLess | Sign::LessLessLess => Op::Shl,
        Sign::GreaterGreater => Op::Shr,
        Sign::GreaterGreaterGreater => Op::Sar,
        Sign::Minus => Op::Sub,
        Sign::Star => Op::Mul,
        _ => Op::Add,
    }
}

fn boxed<T: Drop>(alloc: Global, x: T) -> Result<Boxed<T>, NoMemory>
    ensures { IfOk result (λ b. b ≡ x) }
{
    Ok(Boxed::new(alloc, x)?)
}

/// Boxes both.
fn pair<A: Drop, B: Drop>(alloc: Global, x: A, y: B) -> Result<(Boxed<A>, Boxed<B>), NoMemory>
    ensures { IfOk result (λ r. r ≡ (x, y)) }
{
    let x = boxed(alloc, x)?;
    let y = boxed(alloc, y)?;
    Ok((x, y))
}

/// Boxes all three.
fn triple<A: Drop, B: Drop, C: Drop>(
    alloc: Global,
    x: A,
    y: B,
    z: C,
) -> Result<(Boxed<A>, Boxed<B>, Boxed<C>), NoMemory>
    ensures { IfOk result (λ r. r ≡ (x, y, z)) }
{
    let x = boxed(alloc, x)?;
    let (y, z) = pair(alloc, y, z)?;
    Ok((x, y, z))
}

/// The tree of two operands with a sign between them.
pub fn infix_tree(
    alloc: Global,
    sign: Sign,
    x: Held<Expr>,
    y: Held<Expr>,
) -> Result<Held<Expr>, NoMemory>
    ensures { IfOk result (λ e. e ≡ trees.infix_tree sign x y) }
{
    let (x, y) = pair(alloc, x.into_inner(), y.into_inner())?;
    match sign {
        Sign::Slash => Ok(Held::new(Expr::Div(x, y))),
        Sign::Percent => Ok(Held::new(Expr::Rem(x, y))),
        _ => Ok(Held::new(Expr::Bin(infix_op(sign), x, y))),
    }
}

pub fn choice(
    alloc: Global,
    c: Held<Expr>,
    x: Held<Expr>,
    y: Held<Expr>,
) -> Result<Held<Expr>, NoMemory>
    ensures { IfOk result (λ e. e ≡ Expr.Cond c x y) }
{
    let (c, x, y) = triple(alloc, c.into_inner(), x.into_inner(), y.into_inner())?;
    Ok(Held::new(Expr::Cond(c, x, y)))
}

pub fn cast(alloc: Global, signed: bool, x: Held<Expr>) -> Result<Held<Expr>, NoMemory>
    ensures { IfOk result (λ e. e ≡ Expr.Cast signed x) }
{
    Ok(Held::new(Expr::Cast(signed, Boxed::new(alloc, x.into_inner())?)))
}

pub fn repeat(alloc: Global, count: Held<Expr>, list: Items<Expr>) -> Result<Held<Expr>, NoMemory>
    ensures { IfOk result (λ e. e ≡ Expr.Rep count list) }
{
    Ok(Held::new(Expr::Rep(Boxed::new(alloc, count.into_inner())?, list)))
}

pub fn part_select(
    alloc: Global,
    divider: Divider,
    x: Held<Expr>,
    y: Held<Expr>,
) -> Result<Select, NoMemory>
    ensures { IfOk result (λ s. s ≡ trees.part_select divider x y) }
{
    let (x, y) = pair(alloc, x.into_inner(), y.into_inner())?;
    match divider {
        Divider::Colon => Ok(Select::Part(x, y)),
        Divider::Up => Ok(Select::Up(x, y)),
        Divider::Down => Ok(Select::Down(x, y)),
    }
}
