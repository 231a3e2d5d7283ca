ghost use Rattle.std.specs.Prelude.{◌≡◌, ◌≤◌, ◌<◌, ◌+◌, max, [], ◌∷◌, ◌++◌, IfOk, OnOk, true, false, Some, None};
ghost use Rattle.lv_exprs.specs.Steps as step;
ghost use Rattle.lv_exprs.specs.Trees as trees;

use crate::build::{
    based_literal, cast, choice, element_selects, infix_tree, into_tree, part_select, path_behind,
    plain_literal, repeat, select_one, sized_literal, steps_behind, unary,
};
use crate::operand::{Content, Frame, Operand, Standing, Step};
use crate::stack::Stack;
use crate::symbol::{Based, Divider, Name, Number, Sign, Symbol};
use lv_ast::{Expr, Literal, Path, PathStep, Select};
use lv_bits::NoMemory;
use lv_held::Held;
use sqlite_items::Items;
use std::alloc::Global;

fn whole_operand(tree: Held<Expr>, reach: u32) -> Operand
    ensures { result ≡ step.whole_operand tree reach }
{
    Operand {
        content: Content::Tree(tree),
        reach,
    }
}

fn close_prefix(alloc: Global, sign: Sign, x: Operand) -> Result<Operand, NoMemory>
    ensures { IfOk result (λ r. r ≡ step.close (Frame.Prefix sign) x) }
{
    let Operand { content, reach } = x;
    let tree = into_tree(alloc, content)?;
    Ok(whole_operand(unary(alloc, sign, tree)?, reach))
}

fn close_left(
    alloc: Global,
    sign: Sign,
    left: Held<Expr>,
    low: u32,
    x: Operand,
) -> Result<Operand, NoMemory>
    ensures { IfOk result (λ r. r ≡ step.close (Frame.Left sign left low) x) }
{
    let Operand { content, reach } = x;
    let tree = into_tree(alloc, content)?;
    let tree = infix_tree(alloc, sign, left, tree)?;
    Ok(whole_operand(tree, low.max(reach)))
}

fn close_colon(
    alloc: Global,
    c: Held<Expr>,
    y: Held<Expr>,
    low: u32,
    x: Operand,
) -> Result<Operand, NoMemory>
    ensures { IfOk result (λ r. r ≡ step.close (Frame.Colon c y low) x) }
{
    let Operand { content, reach } = x;
    let tree = into_tree(alloc, content)?;
    let tree = choice(alloc, c, y, tree)?;
    Ok(whole_operand(tree, low.max(reach)))
}

/// Lets the frame go.
fn unclosed<T: Drop>(_frame: T, x: Operand) -> Operand
    ensures { result ≡ x }
{
    x
}

/// Closes a frame over its last operand.
fn close(alloc: Global, frame: Frame, x: Operand) -> Result<Operand, NoMemory>
    ensures { IfOk result (λ r. r ≡ step.close frame x) }
{
    match frame {
        Frame::Prefix(sign) => close_prefix(alloc, sign, x),
        Frame::Left(sign, left, low) => close_left(alloc, sign, left, low, x),
        Frame::Colon(c, y, low) => close_colon(alloc, c, y, low, x),
        other => Ok(unclosed(other, x)),
    }
}

/// Closes what binds tighter than a token that pulls so strongly.
fn reduce(alloc: Global, stack: &mut Stack, x: Operand, pull: u8) -> Result<Operand, NoMemory>
    ensures { IfOk result (λ r. step.lower pull stack.old.frames.items x ≡ (stack.new.frames.items, r)) }
{
    let mut x = x;
    while let Some(frame) = stack.take_loose(pull) {
        x = close(alloc, frame, x)?;
    }
    Ok(x)
}

fn lowered(alloc: Global, stack: &mut Stack, x: Operand, pull: u8) -> Result<Operand, NoMemory>
    requires { step.reached stack.old.frames.items (Standing.Have x) ≤ 1000 }
    ensures value { IfOk result (λ r. step.lower pull stack.old.frames.items x ≡ (stack.new.frames.items, r)) }
    ensures within { IfOk result (λ r. r.reach ≤ 1000) }
    ensures depth { OnOk result (stack.new.depth ≤ stack.old.depth) }
{
    let y = reduce(alloc, stack, x, pull)?;
    Ok(y)
}

/// Lets the parts go.
fn bad<T: Drop, U: Drop>(_frame: T, _x: U) -> Step
    ensures { result ≡ Step.Bad }
{
    Step::Bad
}

fn is_none<T>(items: &Items<T>) -> bool
    ensures { result ≡ step.is_none items.now }
{
    match items.as_slice() {
        [] => true,
        _ => false,
    }
}

fn end_question(
    alloc: Global,
    stack: &mut Stack,
    c: Held<Expr>,
    low: u32,
    x: Operand,
    symbol: Symbol,
) -> Result<Step, NoMemory>
    requires { stack.old.depth ≤ 1000 }
    ensures { IfOk result (λ r. step.seen_step r stack.new.frames.items ≡ step.close_question symbol stack.old.frames.items c low x) }
{
    match symbol {
        Symbol::Divider(Divider::Colon) => {
            let Operand { content, reach } = x;
            let tree = into_tree(alloc, content)?;
            stack.push(Frame::Colon(c, tree, low.max(reach)))?;
            Ok(Step::Next(Standing::Want))
        }
        _ => Ok(bad(Frame::Question(c, low), x)),
    }
}

fn end_paren(alloc: Global, stack: &Stack, x: Operand, symbol: Symbol) -> Result<Step, NoMemory>
    ensures { IfOk result (λ r. step.seen_step r stack.now.frames.items ≡ step.close_paren symbol stack.now.frames.items x) }
{
    match symbol {
        Symbol::RightParen => {
            let Operand { content, reach } = x;
            let tree = into_tree(alloc, content)?;
            Ok(Step::Next(Standing::Have(whole_operand(tree, reach))))
        }
        _ => Ok(bad(Frame::Paren, x)),
    }
}

fn end_cast(
    alloc: Global,
    stack: &Stack,
    signed: bool,
    x: Operand,
    symbol: Symbol,
) -> Result<Step, NoMemory>
    ensures { IfOk result (λ r. step.seen_step r stack.now.frames.items ≡ step.close_cast symbol stack.now.frames.items signed x) }
{
    match symbol {
        Symbol::RightParen => {
            let Operand { content, reach } = x;
            let tree = into_tree(alloc, content)?;
            let tree = cast(alloc, signed, tree)?;
            Ok(Step::Next(Standing::Have(whole_operand(tree, reach))))
        }
        _ => Ok(bad(Frame::Cast(signed), x)),
    }
}

/// One more expression in a list.
fn listed(alloc: Global, mut list: Items<Expr>, content: Content) -> Result<Items<Expr>, NoMemory>
    ensures { IfOk result (λ r. r ≡ list ++ (step.tree_of content ∷ [])) }
{
    let tree = into_tree(alloc, content)?;
    list.push(tree.into_inner())?;
    Ok(list)
}

/// The first expression in braces is a count.
fn begin_repeat(
    alloc: Global,
    stack: &mut Stack,
    list: Items<Expr>,
    low: u32,
    x: Operand,
) -> Result<Step, NoMemory>
    requires { stack.old.depth ≤ 1000 }
    ensures { IfOk result (λ r. step.seen_step r stack.new.frames.items ≡ step.close_brace Symbol.LeftBrace stack.old.frames.items list low x) }
{
    if is_none(&list) {
        let Operand { content, reach } = x;
        let tree = into_tree(alloc, content)?;
        stack.push(Frame::Repeat(tree, list, reach))?;
        Ok(Step::Next(Standing::Want))
    } else {
        Ok(bad(Frame::Brace(list, low), x))
    }
}

fn end_brace(
    alloc: Global,
    stack: &mut Stack,
    list: Items<Expr>,
    low: u32,
    x: Operand,
    symbol: Symbol,
) -> Result<Step, NoMemory>
    requires { stack.old.depth ≤ 1000 }
    ensures { IfOk result (λ r. step.seen_step r stack.new.frames.items ≡ step.close_brace symbol stack.old.frames.items list low x) }
{
    match symbol {
        Symbol::Comma => {
            let Operand { content, reach } = x;
            let list = listed(alloc, list, content)?;
            stack.push(Frame::Brace(list, low.max(reach)))?;
            Ok(Step::Next(Standing::Want))
        }
        Symbol::RightBrace => {
            let Operand { content, reach } = x;
            let list = listed(alloc, list, content)?;
            Ok(Step::Next(Standing::Have(whole_operand(
                Held::new(Expr::Cat(list)),
                low.max(reach),
            ))))
        }
        Symbol::LeftBrace => begin_repeat(alloc, stack, list, low, x),
        _ => Ok(bad(Frame::Brace(list, low), x)),
    }
}

fn end_repeat(
    alloc: Global,
    stack: &mut Stack,
    count: Held<Expr>,
    list: Items<Expr>,
    low: u32,
    x: Operand,
    symbol: Symbol,
) -> Result<Step, NoMemory>
    requires { stack.old.depth ≤ 1000 }
    ensures { IfOk result (λ r. step.seen_step r stack.new.frames.items ≡ step.close_repeat symbol stack.old.frames.items count list low x) }
{
    match symbol {
        Symbol::Comma => {
            let Operand { content, reach } = x;
            let list = listed(alloc, list, content)?;
            stack.push(Frame::Repeat(count, list, low.max(reach)))?;
            Ok(Step::Next(Standing::Want))
        }
        Symbol::RightBrace => {
            let Operand { content, reach } = x;
            let list = listed(alloc, list, content)?;
            Ok(Step::Next(Standing::Shut(count, list, low.max(reach))))
        }
        _ => Ok(bad(Frame::Repeat(count, list, low), x)),
    }
}

/// A name with one more select.
fn named_select(path: Path, mut selects: Items<Select>, select: Select) -> Result<Content, NoMemory>
    ensures { IfOk result (λ r. r ≡ Content.Name path (selects ++ (select ∷ []))) }
{
    selects.push(select)?;
    Ok(Content::Name(path, selects))
}

fn indexed_by_number(
    alloc: Global,
    path: Path,
    selects: Items<Select>,
    number: Number,
) -> Result<Content, NoMemory>
    ensures { IfOk result (λ r. r ≡ step.indexed path selects (Content.Number number)) }
{
    if is_none(&selects) {
        Ok(Content::Element(path, number))
    } else {
        let select = select_one(alloc, Held::new(Expr::Lit(plain_literal(number))))?;
        named_select(path, selects, select)
    }
}

/// What a bit select makes of a name.
fn indexed(
    alloc: Global,
    path: Path,
    selects: Items<Select>,
    content: Content,
) -> Result<Content, NoMemory>
    ensures { IfOk result (λ r. r ≡ step.indexed path selects content) }
{
    match content {
        Content::Number(number) => indexed_by_number(alloc, path, selects, number),
        other => {
            let tree = into_tree(alloc, other)?;
            let select = select_one(alloc, tree)?;
            named_select(path, selects, select)
        }
    }
}

fn end_index(
    alloc: Global,
    stack: &mut Stack,
    path: Path,
    selects: Items<Select>,
    low: u32,
    x: Operand,
    symbol: Symbol,
) -> Result<Step, NoMemory>
    requires { stack.old.depth ≤ 1000 }
    ensures { IfOk result (λ r. step.seen_step r stack.new.frames.items ≡ step.close_index symbol stack.old.frames.items path selects low x) }
{
    match symbol {
        Symbol::RightBracket => {
            let Operand { content, reach } = x;
            let content = indexed(alloc, path, selects, content)?;
            Ok(Step::Next(Standing::Have(Operand {
                content,
                reach: low.max(reach),
            })))
        }
        Symbol::Divider(divider) => {
            let Operand { content, reach } = x;
            let tree = into_tree(alloc, content)?;
            stack.push(Frame::Part(divider, path, selects, tree, low.max(reach)))?;
            Ok(Step::Next(Standing::Want))
        }
        _ => Ok(bad(Frame::Index(path, selects, low), x)),
    }
}

fn end_part(
    alloc: Global,
    stack: &Stack,
    part: (Divider, Path, Items<Select>, Held<Expr>, u32),
    x: Operand,
    symbol: Symbol,
) -> Result<Step, NoMemory>
    ensures { IfOk result (λ r. step.seen_step r stack.now.frames.items ≡ step.close_part symbol stack.now.frames.items part.0 part.1 part.2 part.3 part.4 x) }
{
    let (divider, path, selects, left, low) = part;
    match symbol {
        Symbol::RightBracket => {
            let Operand { content, reach } = x;
            let tree = into_tree(alloc, content)?;
            let select = part_select(alloc, divider, left, tree)?;
            let content = named_select(path, selects, select)?;
            Ok(Step::Next(Standing::Have(Operand {
                content,
                reach: low.max(reach),
            })))
        }
        _ => Ok(bad(Frame::Part(divider, path, selects, left, low), x)),
    }
}

/// A token that ends the last operand of a frame, or doesn't.
fn end_frame(
    alloc: Global,
    stack: &mut Stack,
    frame: Frame,
    x: Operand,
    symbol: Symbol,
) -> Result<Step, NoMemory>
    requires { stack.old.depth ≤ 1000 }
    ensures { IfOk result (λ r. step.seen_step r stack.new.frames.items ≡ step.closed_by symbol stack.old.frames.items frame x) }
{
    match frame {
        Frame::Question(c, low) => end_question(alloc, stack, c, low, x, symbol),
        Frame::Paren => end_paren(alloc, stack, x, symbol),
        Frame::Cast(signed) => end_cast(alloc, stack, signed, x, symbol),
        Frame::Brace(list, low) => end_brace(alloc, stack, list, low, x, symbol),
        Frame::Repeat(count, list, low) => end_repeat(alloc, stack, count, list, low, x, symbol),
        Frame::Index(path, selects, low) => end_index(alloc, stack, path, selects, low, x, symbol),
        Frame::Part(divider, path, selects, left, low) => {
            end_part(alloc, stack, (divider, path, selects, left, low), x, symbol)
        }
        other => Ok(bad(other, x)),
    }
}

fn closing(alloc: Global, stack: &mut Stack, x: Operand, symbol: Symbol) -> Result<Step, NoMemory>
    requires { stack.old.depth ≤ 1000 }
    ensures { IfOk result (λ r. step.seen_step r stack.new.frames.items ≡ step.closing symbol stack.old.frames.items x) }
{
    match stack.pop() {
        None => Ok(Step::Done(x)),
        Some(frame) => end_frame(alloc, stack, frame, x, symbol),
    }
}

/// A token that closes all it can, and is then taken or not.
fn closes(alloc: Global, stack: &mut Stack, x: Operand, symbol: Symbol) -> Result<Step, NoMemory>
    requires within { step.reached stack.old.frames.items (Standing.Have x) ≤ 1000 }
    requires depth { stack.old.depth ≤ 1000 }
    ensures { IfOk result (λ r. step.seen_step r stack.new.frames.items ≡ step.closes symbol stack.old.frames.items x) }
{
    let y = lowered(alloc, stack, x, 1)?;
    closing(alloc, stack, y, symbol)
}

fn infix(alloc: Global, stack: &mut Stack, x: Operand, sign: Sign) -> Result<Step, NoMemory>
    requires within { step.reached stack.old.frames.items (Standing.Have x) ≤ 1000 }
    requires depth { stack.old.depth ≤ 1000 }
    ensures { IfOk result (λ r. step.seen_step r stack.new.frames.items ≡ step.left_of (Symbol.Sign sign) stack.old.frames.items x) }
{
    let y = lowered(alloc, stack, x, sign.level())?;
    let Operand { content, reach } = y;
    let tree = into_tree(alloc, content)?;
    stack.push(Frame::Left(sign, tree, reach + 1))?;
    Ok(Step::Next(Standing::Want))
}

fn question(alloc: Global, stack: &mut Stack, x: Operand) -> Result<Step, NoMemory>
    requires within { step.reached stack.old.frames.items (Standing.Have x) ≤ 1000 }
    requires depth { stack.old.depth ≤ 1000 }
    ensures { IfOk result (λ r. step.seen_step r stack.new.frames.items ≡ step.question_of stack.old.frames.items x) }
{
    let y = lowered(alloc, stack, x, 2)?;
    let Operand { content, reach } = y;
    let tree = into_tree(alloc, content)?;
    stack.push(Frame::Question(tree, reach + 1))?;
    Ok(Step::Next(Standing::Want))
}

fn bracket(alloc: Global, stack: &mut Stack, x: Operand) -> Result<Step, NoMemory>
    requires within { step.reached stack.old.frames.items (Standing.Have x) ≤ 1000 }
    requires depth { stack.old.depth ≤ 1000 }
    ensures { IfOk result (λ r. step.seen_step r stack.new.frames.items ≡ step.indexes stack.old.frames.items x x.content) }
{
    let Operand { content, reach } = x;
    match content {
        Content::Name(path, selects) => {
            stack.push(Frame::Index(path, selects, reach))?;
            Ok(Step::Next(Standing::Want))
        }
        Content::Element(path, number) => {
            let selects = element_selects(alloc, number)?;
            stack.push(Frame::Index(path, selects, reach))?;
            Ok(Step::Next(Standing::Want))
        }
        other => {
            let x = Operand {
                content: other,
                reach,
            };
            closes(alloc, stack, x, Symbol::LeftBracket)
        }
    }
}

/// A dot behind a step of a path.
fn step_on(stack: &Stack, path: Path, index: Option<u128>) -> Result<Step, NoMemory>
    ensures { IfOk result (λ r. step.seen_step r stack.now.frames.items ≡ step.dotted_on stack.now.frames.items path index) }
{
    let (steps, place) = steps_behind(path, index)?;
    Ok(Step::Next(Standing::Dotted(steps, place)))
}

fn name_dot(
    alloc: Global,
    stack: &mut Stack,
    path: Path,
    selects: Items<Select>,
    reach: u32,
) -> Result<Step, NoMemory>
    requires within { step.reached stack.old.frames.items (Standing.Have (step.operand (Content.Name path selects) reach)) ≤ 1000 }
    requires depth { stack.old.depth ≤ 1000 }
    ensures { IfOk result (λ r. step.seen_step r stack.new.frames.items
        ≡ step.dots true stack.old.frames.items (step.operand (Content.Name path selects) reach) (Content.Name path selects)) }
{
    if is_none(&selects) {
        step_on(stack, path, None)
    } else {
        let x = Operand {
            content: Content::Name(path, selects),
            reach,
        };
        closes(alloc, stack, x, Symbol::Dot)
    }
}

fn dot(alloc: Global, stack: &mut Stack, x: Operand) -> Result<Step, NoMemory>
    requires within { step.reached stack.old.frames.items (Standing.Have x) ≤ 1000 }
    requires depth { stack.old.depth ≤ 1000 }
    ensures { IfOk result (λ r. step.seen_step r stack.new.frames.items ≡ step.dots true stack.old.frames.items x x.content) }
{
    let Operand { content, reach } = x;
    match content {
        Content::Name(path, selects) => name_dot(alloc, stack, path, selects, reach),
        Content::Element(path, number) => step_on(stack, path, Some(number.value)),
        other => {
            let x = Operand {
                content: other,
                reach,
            };
            closes(alloc, stack, x, Symbol::Dot)
        }
    }
}

/// Lets the number go.
fn whole<T: Drop>(_x: T, literal: Literal) -> Step
    ensures { result ≡ Step.Whole literal }
{
    Step::Whole(literal)
}

fn free_literal(
    alloc: Global,
    stack: &mut Stack,
    x: Operand,
    literal: Literal,
    based: Based,
) -> Result<Step, NoMemory>
    requires within { step.reached stack.old.frames.items (Standing.Have x) ≤ 1000 }
    requires depth { stack.old.depth ≤ 1000 }
    ensures { IfOk result (λ r. step.seen_step r stack.new.frames.items
        ≡ step.alone_or stack.old.frames.items literal (step.closes (Symbol.Based based) stack.old.frames.items x)) }
{
    if stack.is_empty() {
        Ok(whole(x, literal))
    } else {
        closes(alloc, stack, x, Symbol::Based(based))
    }
}

fn sized(
    alloc: Global,
    stack: &mut Stack,
    number: Number,
    reach: u32,
    based: Based,
) -> Result<Step, NoMemory>
    requires within { step.reached stack.old.frames.items (Standing.Have (step.operand (Content.Number number) reach)) ≤ 1000 }
    requires depth { stack.old.depth ≤ 1000 }
    ensures { IfOk result (λ r. step.seen_step r stack.new.frames.items
        ≡ step.based_on based stack.old.frames.items (step.operand (Content.Number number) reach) (Content.Number number)) }
{
    let literal = sized_literal(number, based);
    if 0 < literal.wild {
        let x = Operand {
            content: Content::Number(number),
            reach,
        };
        free_literal(alloc, stack, x, literal, based)
    } else {
        Ok(Step::Next(Standing::Have(whole_operand(Held::new(Expr::Lit(literal)), reach))))
    }
}

fn based_behind(
    alloc: Global,
    stack: &mut Stack,
    x: Operand,
    based: Based,
) -> Result<Step, NoMemory>
    requires within { step.reached stack.old.frames.items (Standing.Have x) ≤ 1000 }
    requires depth { stack.old.depth ≤ 1000 }
    ensures { IfOk result (λ r. step.seen_step r stack.new.frames.items ≡ step.based_on based stack.old.frames.items x x.content) }
{
    let Operand { content, reach } = x;
    match content {
        Content::Number(number) => sized(alloc, stack, number, reach, based),
        other => {
            let x = Operand {
                content: other,
                reach,
            };
            closes(alloc, stack, x, Symbol::Based(based))
        }
    }
}

/// A token behind an operand.
fn after(
    alloc: Global,
    stack: &mut Stack,
    paths: bool,
    x: Operand,
    symbol: Symbol,
) -> Result<Step, NoMemory>
    requires within { step.reached stack.old.frames.items (Standing.Have x) ≤ 1000 }
    requires depth { stack.old.depth ≤ 1000 }
    ensures { IfOk result (λ r. step.seen_step r stack.new.frames.items ≡ step.after paths symbol stack.old.frames.items x) }
{
    match symbol {
        Symbol::Sign(sign) if 2 <= sign.level() => infix(alloc, stack, x, sign),
        Symbol::Question => question(alloc, stack, x),
        Symbol::LeftBracket => bracket(alloc, stack, x),
        Symbol::Dot if paths => dot(alloc, stack, x),
        Symbol::Based(based) => based_behind(alloc, stack, x, based),
        _ => closes(alloc, stack, x, symbol),
    }
}

/// A name where an operand has to follow.
fn name_operand(
    alloc: Global,
    text: &[u8],
    stack: &Stack,
    steps: Items<PathStep>,
    place: u64,
    name: Name,
) -> Result<Step, NoMemory>
    requires { stack.now.depth ≤ 1000 }
    ensures { IfOk result (λ r. step.seen_step r stack.now.frames.items ≡ step.named text.now steps place (Symbol.Name name) stack.now.frames.items) }
{
    let path = path_behind(alloc, text, steps, name, place)?;
    Ok(Step::Next(Standing::Have(Operand {
        content: Content::Name(path, Items::new(alloc)),
        reach: stack.depth + 1,
    })))
}

fn based_operand(stack: &Stack, based: Based) -> Step
    requires { stack.now.depth ≤ 1000 }
    ensures { step.seen_step result stack.now.frames.items
        ≡ step.literal_or stack.now.frames.items (trees.based_literal based) (step.nodes stack.now.frames.items + 1) step.bad }
{
    let literal = based_literal(based);
    if 0 < literal.wild {
        if stack.is_empty() {
            Step::Whole(literal)
        } else {
            Step::Bad
        }
    } else {
        Step::Next(Standing::Have(whole_operand(Held::new(Expr::Lit(literal)), stack.depth + 1)))
    }
}

/// A token where an operand has to follow.
fn before(alloc: Global, text: &[u8], stack: &mut Stack, symbol: Symbol) -> Result<Step, NoMemory>
    requires { stack.old.depth ≤ 1000 }
    ensures { IfOk result (λ r. step.seen_step r stack.new.frames.items ≡ step.before text.now symbol stack.old.frames.items) }
{
    match symbol {
        Symbol::Name(name) => {
            return name_operand(alloc, text, stack, Items::new(alloc), name.place, name);
        }
        Symbol::Number(number) => {
            return Ok(Step::Next(Standing::Have(Operand {
                content: Content::Number(number),
                reach: stack.depth + 1,
            })));
        }
        Symbol::Based(based) => return Ok(based_operand(stack, based)),
        Symbol::Cast(signed) => return Ok(Step::Next(Standing::Cast(signed))),
        Symbol::Sign(sign) if sign.leads() => stack.push(Frame::Prefix(sign))?,
        Symbol::LeftParen => stack.push(Frame::Paren)?,
        Symbol::LeftBrace => stack.push(Frame::Brace(Items::new(alloc), 0))?,
        _ => return Ok(Step::Bad),
    }
    Ok(Step::Next(Standing::Want))
}

fn cast_open(stack: &mut Stack, signed: bool, symbol: Symbol) -> Result<Step, NoMemory>
    requires { stack.old.depth ≤ 1000 }
    ensures { IfOk result (λ r. step.seen_step r stack.new.frames.items ≡ step.casts symbol stack.old.frames.items signed) }
{
    match symbol {
        Symbol::LeftParen => {
            stack.push(Frame::Cast(signed))?;
            Ok(Step::Next(Standing::Want))
        }
        _ => Ok(Step::Bad),
    }
}

/// Lets the parts of a replication go.
fn bad_repeat<T: Drop, U: Drop>(_count: T, _list: U) -> Step
    ensures { result ≡ Step.Bad }
{
    Step::Bad
}

fn shut(
    alloc: Global,
    stack: &Stack,
    count: Held<Expr>,
    list: Items<Expr>,
    reach: u32,
    symbol: Symbol,
) -> Result<Step, NoMemory>
    ensures { IfOk result (λ r. step.seen_step r stack.now.frames.items ≡ step.shuts symbol stack.now.frames.items count list reach) }
{
    match symbol {
        Symbol::RightBrace => {
            let tree = repeat(alloc, count, list)?;
            Ok(Step::Next(Standing::Have(whole_operand(tree, reach))))
        }
        _ => Ok(bad_repeat(count, list)),
    }
}

/// Lets the steps go.
fn bad_steps(_steps: Items<PathStep>) -> Step
    ensures { result ≡ Step.Bad }
{
    Step::Bad
}

fn dotted(
    alloc: Global,
    text: &[u8],
    stack: &Stack,
    steps: Items<PathStep>,
    place: u64,
    symbol: Symbol,
) -> Result<Step, NoMemory>
    requires { stack.now.depth ≤ 1000 }
    ensures { IfOk result (λ r. step.seen_step r stack.now.frames.items ≡ step.named text.now steps place symbol stack.now.frames.items) }
{
    match symbol {
        Symbol::Name(name) => name_operand(alloc, text, stack, steps, place, name),
        _ => Ok(bad_steps(steps)),
    }
}

/// What one token does.
pub fn take(
    alloc: Global,
    text: &[u8],
    paths: bool,
    stack: &mut Stack,
    standing: Standing,
    symbol: Symbol,
) -> Result<Step, NoMemory>
    requires within { step.reached stack.old.frames.items standing ≤ 1000 }
    requires depth { stack.old.depth ≤ 1000 }
    ensures { IfOk result (λ r. step.seen_step r stack.new.frames.items ≡ step.next text.now paths symbol stack.old.frames.items standing) }
{
    match standing {
        Standing::Want => before(alloc, text, stack, symbol),
        Standing::Have(x) => after(alloc, stack, paths, x, symbol),
        Standing::Cast(signed) => cast_open(stack, signed, symbol),
        Standing::Shut(count, list, reach) => shut(alloc, stack, count, list, reach, symbol),
        Standing::Dotted(steps, place) => dotted(alloc, text, stack, steps, place, symbol),
    }
}

/// Lets the operand go where something is still open.
fn alone(stack: &Stack, x: Operand) -> Option<Operand>
    ensures { result ≡ step.alone (stack.now.frames.items, x) }
{
    if stack.is_empty() {
        Some(x)
    } else {
        drop(x);
        None
    }
}

fn unfinished<T: Drop>(_standing: T) -> Option<Operand>
    ensures { result ≡ None }
{
    None
}

/// What is read at the end of the tokens.
pub fn finish(
    alloc: Global,
    mut stack: Stack,
    standing: Standing,
) -> Result<Option<Operand>, NoMemory>
    ensures { IfOk result (λ r. r ≡ step.ending stack.frames.items standing) }
{
    match standing {
        Standing::Have(x) => {
            let y = reduce(alloc, &mut stack, x, 1)?;
            Ok(alone(&stack, y))
        }
        other => Ok(unfinished(other)),
    }
}

/// Whether what is open is higher once it holds an operand of that height.
fn is_mark_high(stack: &Stack, limit: u32, operand: u32) -> bool
    requires below { step.below stack.now.frames.items ≤ limit }
    requires depth { stack.now.depth ≤ 1000 }
    requires operand { operand ≤ 2 }
    ensures high { result ≡ true → limit < max (step.marks stack.now.frames.items) (step.nodes stack.now.frames.items + operand) }
    ensures fits { result ≡ false → max (step.marks stack.now.frames.items) (step.nodes stack.now.frames.items + operand) ≤ limit }
{
    let mark = stack.top_mark();
    limit < mark || limit < stack.depth + operand
}

/// Whether every expression that begins so is higher, if no dot comes.
pub fn is_high(stack: &Stack, standing: &Standing, limit: u32) -> bool
    requires raised { step.Raised limit limit stack.now.frames.items standing.now }
    requires depth { stack.now.depth ≤ 1000 }
    ensures high { result ≡ true → limit < step.reached stack.now.frames.items standing.now }
    ensures fits { result ≡ false → step.reached stack.now.frames.items standing.now ≤ limit }
{
    match standing {
        Standing::Want => is_mark_high(stack, limit, 1),
        Standing::Have(x) => limit < x.reach,
        Standing::Cast(_) => is_mark_high(stack, limit, 2),
        Standing::Shut(_, _, reach) => limit < *reach,
        Standing::Dotted(_, _) => is_mark_high(stack, limit, 1),
    }
}
