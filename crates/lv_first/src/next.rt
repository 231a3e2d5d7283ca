//! The next values of the registers, from the clocked block.

ghost use Rattle.std.specs.Prelude.{◌≡◌, ◌≤◌, ◌↔◌, ◌∷◌, ◌++◌, [], ℕ, List, length, slice_get, All, IfOk, IsTrue, MatchOption, bytes_eq};
ghost use Rattle.std.specs.List.{list_all, IsDistinct};
ghost use Rattle.lv_ast.specs.declared.stmt.Stmt as code;
ghost use Rattle.lv_ast.specs.declared.item.Item as item_code;
ghost use Rattle.lv_first.specs.declared.formula.Formula as formula;
ghost use Rattle.lv_first.specs.FirstForm as spec;
ghost use Rattle.lv_first.specs.FirstForm.{is_bit_register, IsAssignment, IsBody, IsBitItem, clocked};
ghost use Rattle.lv_first.specs.Signals.{IsNext, IsBodyNext, AreItemsNext, IsClockedBy};

use crate::build::formula_of;
use crate::formula::Formula;
use crate::signals::{Signals, find};
use lv_ast::{Expr, Item, Path, Range, RegName, Stmt, Target, Watch};
use lv_bits::{NoMemory, Text};
use sqlite_items::Items;
use std::alloc::Global;

/// Each register's own variable.
pub(crate) fn unchanged(alloc: Global, count: usize) -> Result<Items<Formula>, NoMemory>
    ensures count { IfOk result (λ next. length next ≡ count) }
    ensures each { IfOk result (λ next. (k : ℕ) (f : formula.Formula) → slice_get next k ≡ Some f → f ≡ Formula.Variable k) }
{
    let mut next = Items::new(alloc);
    for k in 0..count {
        next.push(Formula::Variable(k))?;
    }
    Ok(next)
}

/// After `path <= value`.
fn assign_to(
    alloc: Global,
    signals: &Signals,
    next: Items<Formula>,
    path: &Path,
    value: &Expr,
) -> Result<Option<Items<Formula>>, NoMemory>
    ensures { IfOk result (λ o. MatchOption o
        ((body : List code.Stmt) (place : ℕ) → IsNext signals.now.registers signals.now.inputs body next →
        IsAssignment signals.now.registers (signals.now.registers ++ signals.now.inputs) (Stmt.Later (Target.Name path.now []) value.now place) → ⊥)
        (λ new. (body : List code.Stmt) (place : ℕ) → IsNext signals.now.registers signals.now.inputs body next →
        IsNext signals.now.registers signals.now.inputs (body ++ Stmt.Later (Target.Name path.now []) value.now place ∷ []) new)) }
{
    if !path.steps.is_empty() {
        return Ok(None);
    }
    let Some(k) = find(signals.registers.as_slice(), &path.name) else {
        return Ok(None);
    };
    let Some(f) = formula_of(alloc, signals, value)? else {
        return Ok(None);
    };
    let mut next = next;
    if k < next.len() {
        next.set(k, f);
        Ok(Some(next))
    } else {
        Ok(None)
    }
}

fn assign_target(
    alloc: Global,
    signals: &Signals,
    next: Items<Formula>,
    target: &Target,
    value: &Expr,
) -> Result<Option<Items<Formula>>, NoMemory>
    ensures { IfOk result (λ o. MatchOption o
        ((body : List code.Stmt) (place : ℕ) → IsNext signals.now.registers signals.now.inputs body next →
        IsAssignment signals.now.registers (signals.now.registers ++ signals.now.inputs) (Stmt.Later target.now value.now place) → ⊥)
        (λ new. (body : List code.Stmt) (place : ℕ) → IsNext signals.now.registers signals.now.inputs body next →
        IsNext signals.now.registers signals.now.inputs (body ++ Stmt.Later target.now value.now place ∷ []) new)) }
{
    match target {
        Target::Name(path, selects) => {
            if !selects.is_empty() {
                return Ok(None);
            }
            assign_to(alloc, signals, next, path, value)
        }
        Target::Cat(_) => Ok(None),
    }
}

/// After one more statement.
fn assign(
    alloc: Global,
    signals: &Signals,
    next: Items<Formula>,
    stmt: &Stmt,
) -> Result<Option<Items<Formula>>, NoMemory>
    ensures { IfOk result (λ o. MatchOption o
        ((body : List code.Stmt) → IsNext signals.now.registers signals.now.inputs body next →
        IsAssignment signals.now.registers (signals.now.registers ++ signals.now.inputs) stmt.now → ⊥)
        (λ new. (body : List code.Stmt) → IsNext signals.now.registers signals.now.inputs body next →
        IsNext signals.now.registers signals.now.inputs (body ++ stmt.now ∷ []) new)) }
{
    match stmt {
        Stmt::Later(target, value, _) => assign_target(alloc, signals, next, target, value.get()),
        _ => Ok(None),
    }
}

/// After these statements, in order.
fn assign_all(
    alloc: Global,
    signals: &Signals,
    start: Items<Formula>,
    body: &[Stmt],
) -> Result<Option<Items<Formula>>, NoMemory>
    ensures { IfOk result (λ o. MatchOption o
        (IsNext signals.now.registers signals.now.inputs [] start →
        All (IsAssignment signals.now.registers (signals.now.registers ++ signals.now.inputs)) body.now → ⊥)
        (λ new. IsNext signals.now.registers signals.now.inputs [] start → IsNext signals.now.registers signals.now.inputs body.now new)) }
{
    let mut next = start;
    for stmt in body {
        match assign(alloc, signals, next, stmt)? {
            Some(after) => next = after,
            None => return Ok(None),
        }
    }
    Ok(Some(next))
}

/// After a clocked block's statement.
fn body_next(
    alloc: Global,
    signals: &Signals,
    start: Items<Formula>,
    body: &Stmt,
) -> Result<Option<Items<Formula>>, NoMemory>
    ensures { IfOk result (λ o. MatchOption o
        (IsNext signals.now.registers signals.now.inputs [] start →
        IsBody signals.now.registers (signals.now.registers ++ signals.now.inputs) body.now → ⊥)
        (λ new. IsNext signals.now.registers signals.now.inputs [] start → IsBodyNext signals.now.registers signals.now.inputs body.now new)) }
{
    match body {
        Stmt::Block(name, stmts) => match name {
            None => assign_all(alloc, signals, start, stmts.as_slice()),
            Some(_) => Ok(None),
        },
        _ => assign(alloc, signals, start, body),
    }
}

/// The next values as far as the items are read, and whether a clocked block was among them.
#[derive(Drop)]
pub(crate) struct Progress {
    pub(crate) next: Items<Formula>,
    pub(crate) found: bool,
}

fn have_no_bounds(names: &[RegName]) -> bool
    ensures { result ≡ list_all is_bit_register names.now }
{
    names.iter().all(|name| name.bounds.is_none())
}

fn is_bit_declaration(signed: bool, range: &Option<Range>, names: &[RegName]) -> bool
    ensures { result ≡ spec.is_bit_declaration signed range.now names.now }
{
    !signed && range.is_none() && have_no_bounds(names)
}

fn is_clocked_by(watch: &Watch, clock: &Text) -> bool
    ensures { IsTrue result ↔ IsClockedBy watch.now clock.now }
{
    match watch {
        Watch::Posedge(edge) => edge.name == *clock,
        _ => false,
    }
}

/// After one more item.
fn item_next(
    alloc: Global,
    signals: &Signals,
    clock: &Text,
    progress: Progress,
    item: &Item,
) -> Result<Option<Progress>, NoMemory>
    ensures { IfOk result (λ o. MatchOption o
        ((items : List item_code.Item) → AreItemsNext clock.now signals.now.registers signals.now.inputs items progress.found progress.next →
        IsBitItem clock.now signals.now.registers (signals.now.registers ++ signals.now.inputs) item.now →
        length (clocked (items ++ item.now ∷ [])) ≤ 1 → ⊥)
        (λ new. (items : List item_code.Item) → AreItemsNext clock.now signals.now.registers signals.now.inputs items progress.found progress.next →
        AreItemsNext clock.now signals.now.registers signals.now.inputs (items ++ item.now ∷ []) new.found new.next)) }
{
    match item {
        Item::Reg(signed, range, names) => {
            if !is_bit_declaration(*signed, range, names.as_slice()) {
                return Ok(None);
            }
            Ok(Some(progress))
        }
        Item::Always(watch, body, _) => {
            if progress.found {
                return Ok(None);
            }
            if !is_clocked_by(watch, clock) {
                return Ok(None);
            }
            match body_next(alloc, signals, progress.next, body)? {
                None => Ok(None),
                Some(next) => Ok(Some(Progress { next, found: true })),
            }
        }
        _ => Ok(None),
    }
}

/// The next values that a module's items leave.
pub(crate) fn items_next(
    alloc: Global,
    signals: &Signals,
    clock: &Text,
    items: &[Item],
) -> Result<Option<Progress>, NoMemory>
    ensures { IfOk result (λ o. MatchOption o
        (IsDistinct bytes_eq (signals.now.registers ++ signals.now.inputs) →
        All (IsBitItem clock.now signals.now.registers (signals.now.registers ++ signals.now.inputs)) items.now → length (clocked items.now) ≤ 1 → ⊥)
        (λ new. IsDistinct bytes_eq (signals.now.registers ++ signals.now.inputs) →
        AreItemsNext clock.now signals.now.registers signals.now.inputs items.now new.found new.next)) }
{
    let mut progress = Progress {
        next: unchanged(alloc, signals.registers.len())?,
        found: false,
    };
    for item in items {
        match item_next(alloc, signals, clock, progress, item)? {
            Some(after) => progress = after,
            None => return Ok(None),
        }
    }
    Ok(Some(progress))
}
