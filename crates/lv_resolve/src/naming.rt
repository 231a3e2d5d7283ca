ghost use Rattle.std.specs.Prelude.{◌≡◌, ◌∷◌, [], if◌then◌else◌, Some, None, IfOk, IfErr};
ghost use Rattle.lv_ast.specs.Names.{Name};
ghost use Rattle.lv_const.specs.Constants.{constant_of};
ghost use Rattle.lv_flat.specs.Signals.{declared, sort_of};
ghost use Rattle.lv_source.specs.Names.{is_clock_sort};
ghost use Rattle.lv_source.specs.NodeRules.{is_in_order};
ghost use Rattle.lv_flat.specs.declared.expr.FlatExpr.TheVariants as e;
ghost use Rattle.lv_resolve.specs.Picks.{IsHead, IsBit, IsPart, IsNoPart, IsRun, IsNoRun, IsElement, IsElementBits, IsWhole, IsPicked, IsNamed, is_run};
ghost use Rattle.lv_resolve.specs.Picks.{run_of as spec_run_of};
ghost use Rattle.lv_resolve.specs.declared.error.ResolveError.TheVariants.{NoMemory};

use crate::error::ResolveError;
use crate::fixed::{bound, is_negative};
use crate::form::{Form, Notes, boxed};
use crate::operand::Operand;
use crate::picks::{Head, Pick, Picks};
use lv_const::Const;
use lv_flat::{FlatExpr, FlatSelect, Signal, Sort};
use lv_held::Held;
use lv_scopes::Number;
use sqlite_items::{Boxed, Items};
use std::alloc::Global;

/// How a signal is declared.
pub fn signal_head(signal: &Signal) -> Head
    ensures { IsHead (declared signal.now) result }
{
    Head {
        left: signal.left,
        right: signal.right,
        width: signal.width,
        ranged: signal.ranged,
        signed: signal.signed,
        array: signal.array.is_some(),
        constant: false,
    }
}

pub fn const_head(constant: &Const) -> Head
    ensures { (name : Name) → IsHead (constant_of name constant.now) result }
{
    Head {
        left: constant.left,
        right: constant.right,
        width: constant.word.width(),
        ranged: true,
        signed: constant.signed,
        array: false,
        constant: true,
    }
}

/// `[index]`
pub fn bit_pick(alloc: Global, index: Form) -> Result<Pick, ResolveError>
    ensures ok { IfOk result (λ p. IsBit index p) }
    ensures err { IfErr result (λ x. x ≡ NoMemory) }
{
    let (index, notes) = index.into_parts();
    let (clocks, divisors) = notes.into_parts();
    drop(divisors);
    let constant = index.constant;
    let index = boxed(alloc, index.into_expr())?;
    Ok(Pick {
        select: Held::new(FlatSelect::Bit(index)),
        width: 1,
        constant,
        clocks,
    })
}

fn is_ordered(head: &Head, left: u32, right: u32) -> bool
    ensures { result ≡ is_in_order (record { left = head.now.left; right = head.now.right }) left right }
{
    if head.left < head.right {
        left <= right
    } else {
        right <= left
    }
}

/// `[left:right]`. `Range` at the name where a bound is none, they stand in the other order, or name more than 128 bits.
pub fn part_pick(
    alloc: Global,
    head: &Head,
    at: u64,
    left: Number,
    right: Number,
) -> Result<Pick, ResolveError>
    ensures ok { IfOk result (λ p. IsPart head.now left right p) }
    ensures err { IfErr result (λ x. IsNoPart head.now left right at x) }
{
    match (bound(left), bound(right)) {
        (Some(left), Some(right)) => {
            let width = left.max(right) - left.min(right) + 1;
            if width > 128 || !is_ordered(head, left, right) {
                return Err(ResolveError::Range(at));
            }
            Ok(Pick {
                select: Held::new(FlatSelect::Part(left, right)),
                width,
                constant: true,
                clocks: Items::new(alloc),
            })
        }
        _ => Err(ResolveError::Range(at)),
    }
}

/// How many bits.
fn run_width(count: Number) -> Option<u32>
    ensures { result ≡ (if is_run count then Some count.word.value else None) }
{
    let value = count.word.value();
    if is_negative(count) || value < 1 || value > 128 {
        None
    } else {
        Some(value as u32)
    }
}

fn run_of(up: bool, index: Boxed<FlatExpr>, width: u32) -> FlatSelect
    ensures { result ≡ spec_run_of up index width }
{
    if up {
        FlatSelect::Up(index, width)
    } else {
        FlatSelect::Down(index, width)
    }
}

/// `[index +: count]`, or `[index -: count]`. `Range` at the name where the count is none from 1 to 128.
pub fn run_pick(
    alloc: Global,
    at: u64,
    up: bool,
    index: Form,
    count: Number,
) -> Result<Pick, ResolveError>
    ensures ok { IfOk result (λ p. IsRun up index count p) }
    ensures err { IfErr result (λ x. IsNoRun count at x) }
{
    let (index, notes) = index.into_parts();
    let (clocks, divisors) = notes.into_parts();
    drop(divisors);
    let Some(width) = run_width(count) else {
        return Err(ResolveError::Range(at));
    };
    let constant = index.constant;
    let index = boxed(alloc, index.into_expr())?;
    Ok(Pick {
        select: Held::new(run_of(up, index, width)),
        width,
        constant,
        clocks,
    })
}

/// A name without selects.
pub fn whole(alloc: Global, head: &Head) -> Picks
    ensures { IsWhole head.now result }
{
    Picks {
        selects: Items::new(alloc),
        width: head.width,
        signed: head.signed,
        constant: head.constant,
        clocks: Items::new(alloc),
    }
}

/// A name with a select of bits.
pub fn picked(alloc: Global, head: &Head, pick: Pick) -> Result<Picks, ResolveError>
    ensures ok { IfOk result (λ p. IsPicked head.now pick p) }
    ensures err { IfErr result (λ x. x ≡ NoMemory) }
{
    let (select, width, constant, clocks) = pick.into_parts();
    let mut selects = Items::new(alloc);
    if selects.push(select).is_err() {
        return Err(ResolveError::NoMemory);
    }
    Ok(Picks {
        selects,
        width,
        signed: false,
        constant: head.constant && constant,
        clocks,
    })
}

/// An element of an array.
pub fn element(alloc: Global, head: &Head, index: Form) -> Result<Picks, ResolveError>
    ensures ok { IfOk result (λ p. IsElement head.now index p) }
    ensures err { IfErr result (λ x. x ≡ NoMemory) }
{
    let pick = bit_pick(alloc, index)?;
    let (select, _, constant, clocks) = pick.into_parts();
    let mut selects = Items::new(alloc);
    if selects.push(select).is_err() {
        return Err(ResolveError::NoMemory);
    }
    Ok(Picks {
        selects,
        width: head.width,
        signed: head.signed,
        constant: head.constant && constant,
        clocks,
    })
}

/// Bits of an element.
pub fn element_bits(
    alloc: Global,
    head: &Head,
    index: Form,
    pick: Pick,
) -> Result<Picks, ResolveError>
    ensures ok { IfOk result (λ p. IsElementBits head.now index pick p) }
    ensures err { IfErr result (λ x. x ≡ NoMemory) }
{
    let (bits, width, bits_constant, more) = pick.into_parts();
    let pick = bit_pick(alloc, index)?;
    let (select, _, constant, mut clocks) = pick.into_parts();
    let mut selects = Items::new(alloc);
    if selects.push(select).is_err() || selects.push(bits).is_err() {
        return Err(ResolveError::NoMemory);
    }
    if clocks.append(more).is_err() {
        return Err(ResolveError::NoMemory);
    }
    Ok(Picks {
        selects,
        width,
        signed: false,
        constant: head.constant && (constant && bits_constant),
        clocks,
    })
}

/// A constant with its selects.
pub fn const_form(alloc: Global, constant: &Const, picks: Picks) -> Form
    ensures { IsNamed (e.Const constant.now picks.selects) [] picks result }
{
    let width = picks.width;
    let signed = picks.signed;
    let fixed = picks.constant;
    let (selects, clocks) = picks.into_parts();
    let operand = Operand {
        expr: Held::new(FlatExpr::Const(*constant, selects)),
        width,
        signed,
        constant: fixed,
    };
    Form {
        operand,
        notes: Notes::of(clocks, Items::new(alloc)),
    }
}

/// The place of a clock's name.
pub fn clock_places(alloc: Global, sort: Sort, at: u64) -> Result<Items<u64>, ResolveError>
    ensures ok { IfOk result (λ cs. cs ≡ (if is_clock_sort (sort_of sort) then at ∷ [] else [])) }
    ensures err { IfErr result (λ x. x ≡ NoMemory) }
{
    let mut clocks = Items::new(alloc);
    match sort {
        Sort::Clock => {
            if clocks.push(at).is_err() {
                return Err(ResolveError::NoMemory);
            }
        }
        _ => {}
    }
    Ok(clocks)
}

/// A signal or a clock with its selects; a clock's place is noted.
pub fn signal_form(
    alloc: Global,
    number: u64,
    sort: Sort,
    at: u64,
    picks: Picks,
) -> Result<Form, ResolveError>
    ensures ok { IfOk result (λ f. IsNamed (e.Signal number picks.selects) (if is_clock_sort (sort_of sort) then at ∷ [] else []) picks f) }
    ensures err { IfErr result (λ x. x ≡ NoMemory) }
{
    let width = picks.width;
    let signed = picks.signed;
    let fixed = picks.constant;
    let (selects, more) = picks.into_parts();
    let mut clocks = clock_places(alloc, sort, at)?;
    if clocks.append(more).is_err() {
        return Err(ResolveError::NoMemory);
    }
    let operand = Operand {
        expr: Held::new(FlatExpr::Signal(number, selects)),
        width,
        signed,
        constant: fixed,
    };
    Ok(Form {
        operand,
        notes: Notes::of(clocks, Items::new(alloc)),
    })
}
