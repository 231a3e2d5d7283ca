ghost use Rattle.std.specs.Prelude.{◌≡◌, ◌≤◌, Bool, true, map, length, IfOk, OnOk};
ghost use Rattle.std.specs.List.{list_all};
ghost use Rattle.lv_flat.specs.Signals.{declared_all};
ghost use Rattle.lv_flat.specs.Cells.{all_cells};
ghost use Rattle.lv_flat.specs.Judged.{is_good};
ghost use Rattle.lv_flat.specs.Good.{good_stmt, good_target};
ghost use Rattle.lv_lower_exprs.specs.Tables.{IsTable, AreFirsts};
ghost use Rattle.lv_values.specs.Worlds.{IsIn, width_of};
ghost use Rattle.lv_lower_blocks.specs.Aimed.{AreAims, aims_width, MayWrite};
ghost use Rattle.lv_lower_blocks.specs.Cased.{common_width, good_arm_of, arms_read, last_default, ArmsWithin, ArmsRun, arms_do};
ghost use Rattle.lv_lower_blocks.specs.Rewritten.{MayBeTable};
ghost use Rattle.lv_lower_blocks.specs.Running.{Runs, good_or, keeps_writes, keeps_or, keeps_all, keeps_now, keeps_later};

use crate::aims::Aim;
use crate::assigns::prepare;
use crate::cases::{Common, common_case, default_at, fits_one};
use crate::merge::{Tables, choose_tables, copy, fill, merge};
use crate::puts::{is_zero, write};
use lv_bits::NoMemory;
use lv_flat::{FlatArm, FlatExpr, FlatStmt, FlatTarget, Signal};
use lv_lower_exprs::{own, value};
use lv_netlist::Builder;
use lv_values::Value;
use sqlite_items::Boxed;
use std::alloc::Global;

/// Carries out a statement (IEEE 1364-2005, 9).
///
/// `now` has the nodes of what reads see, `done` those that all writes change in the order in which they are carried out, those of
/// `<=` too; without `done`, which is then empty, those of `<=` are lost. After `NoMemory` the graph may have more nodes, and both be any.
#[cycle(executing)]
pub fn execute(
    alloc: Global,
    b: &mut Builder,
    signals: &[Signal],
    first: &[u64],
    now: &mut [u64],
    done: &mut [u64],
    s: &FlatStmt,
) -> Result<(), NoMemory>
    requires good { good_stmt (declared_all signals.now) s.now ≡ true }
    requires first { AreFirsts (declared_all signals.now) first.now }
    requires now { IsTable b.old (all_cells (declared_all signals.now)) now.old }
    requires done { MayBeTable b.old (all_cells (declared_all signals.now)) done.old }
    ensures { OnOk result (Runs b.old b.new (all_cells (declared_all signals.now)) now.old done.old now.new done.new (λ st. keeps_writes (declared_all signals.now) s.now st)) }
{
    match s {
        FlatStmt::Null => Ok(()),
        FlatStmt::Block(body) => block(alloc, b, signals, first, now, done, body.as_slice()),
        FlatStmt::If(c, then_, else_) => {
            let e = c.get();
            let yes = then_.get();
            let of = own(signals, e);
            let t = value(alloc, b, signals, first, now, e, of.0, of.1)?;
            match t {
                Value::Known(word) => {
                    if word.value() == 0 {
                        return execute_or(alloc, b, signals, first, now, done, else_);
                    }
                    execute(alloc, b, signals, first, now, done, yes)
                }
                Value::Node(k, _) => {
                    let mut other_now = copy(alloc, now)?;
                    let mut other_done = copy(alloc, done)?;
                    execute(alloc, b, signals, first, now, done, yes)?;
                    execute_or(
                        alloc,
                        b,
                        signals,
                        first,
                        other_now.as_mut_slice(),
                        other_done.as_mut_slice(),
                        else_,
                    )?;
                    merge(b, k, now, other_now.as_slice())?;
                    merge(b, k, done, other_done.as_slice())
                }
            }
        }
        FlatStmt::Now(target, e, _) => {
            assign_now(alloc, b, signals, first, now, done, target, e.get())
        }
        FlatStmt::Later(target, e, _) => {
            assign_later(alloc, b, signals, first, now, done, target, e.get())
        }
        FlatStmt::Case(wild, x, arms) => {
            let e = x.get();
            let arms = arms.as_slice();
            let c = common_case(signals, e, arms);
            let selector = value(alloc, b, signals, first, now, e, c.width, c.signed)?;
            let start = base(alloc, b, signals, first, now, done, arms)?;
            let tables = choose_arm(
                alloc, b, signals, first, now, done, *wild, &c, &selector, arms, start,
            )?;
            fill(now, tables.now.as_slice());
            fill(done, tables.done.as_slice());
            Ok(())
        }
    }
}

/// The tables of the last arm without labels, or as they are.
#[cycle(executing)]
fn base(
    alloc: Global,
    b: &mut Builder,
    signals: &[Signal],
    first: &[u64],
    now: &[u64],
    done: &[u64],
    arms: &[FlatArm],
) -> Result<Tables, NoMemory>
    requires good { list_all (good_arm_of (declared_all signals.now)) arms.now ≡ true }
    requires first { AreFirsts (declared_all signals.now) first.now }
    requires now { IsTable b.old (all_cells (declared_all signals.now)) now.now }
    requires done { MayBeTable b.old (all_cells (declared_all signals.now)) done.now }
    ensures { IfOk result (λ r. Runs b.old b.new (all_cells (declared_all signals.now)) now.now done.now r.now.items r.done.items (λ st. last_default (arms_read (declared_all signals.now) arms.now) (λ s. s) st)) }
{
    let mut a_now = copy(alloc, now)?;
    let mut a_done = copy(alloc, done)?;
    let at = default_at(arms);
    if at == arms.len() as u64 {
        return Ok(Tables {
            now: a_now,
            done: a_done,
        });
    }
    let a = &arms[at as usize];
    execute(
        alloc,
        b,
        signals,
        first,
        a_now.as_mut_slice(),
        a_done.as_mut_slice(),
        &a.body,
    )?;
    Ok(Tables {
        now: a_now,
        done: a_done,
    })
}

/// The tables of the first arm with a label that fits, or those given.
#[cycle(executing)]
fn choose_arm(
    alloc: Global,
    b: &mut Builder,
    signals: &[Signal],
    first: &[u64],
    now: &[u64],
    done: &[u64],
    wild: bool,
    c: &Common,
    selector: &Value,
    arms: &[FlatArm],
    base: Tables,
) -> Result<Tables, NoMemory>
    requires good { list_all (good_arm_of (declared_all signals.now)) arms.now ≡ true }
    requires within { ArmsWithin (declared_all signals.now) arms.now c.now.width }
    requires most { c.now.width ≤ 128 }
    requires selector_in { IsIn b.old selector.now }
    requires width { width_of selector.now ≡ c.now.width }
    requires first { AreFirsts (declared_all signals.now) first.now }
    requires now { IsTable b.old (all_cells (declared_all signals.now)) now.now }
    requires done { MayBeTable b.old (all_cells (declared_all signals.now)) done.now }
    requires base_now { IsTable b.old (all_cells (declared_all signals.now)) base.now.items }
    requires base_done { MayBeTable b.old (all_cells (declared_all signals.now)) base.done.items }
    requires count { length base.done.items ≡ length done.now }
    ensures { IfOk result (λ r. ArmsRun b.old b.new (all_cells (declared_all signals.now)) now.now done.now base.now.items base.done.items r.now.items r.done.items selector.now (arms_do (declared_all signals.now) wild (common_width c.now) arms.now)) }
{
    let mut tables = base;
    let mut i = arms.len();
    while i > 0 {
        i -= 1;
        let a = &arms[i];
        let t = fits_one(
            alloc,
            b,
            signals,
            first,
            now,
            wild,
            c,
            selector,
            a.labels.as_slice(),
        )?;
        if !is_zero(&t) {
            let mut a_now = copy(alloc, now)?;
            let mut a_done = copy(alloc, done)?;
            execute(
                alloc,
                b,
                signals,
                first,
                a_now.as_mut_slice(),
                a_done.as_mut_slice(),
                &a.body,
            )?;
            let arm = Tables {
                now: a_now,
                done: a_done,
            };
            tables = choose_tables(b, t, arm, tables)?;
        }
    }
    Ok(tables)
}

#[cycle(executing)]
fn execute_or(
    alloc: Global,
    b: &mut Builder,
    signals: &[Signal],
    first: &[u64],
    now: &mut [u64],
    done: &mut [u64],
    s: &Option<Boxed<FlatStmt>>,
) -> Result<(), NoMemory>
    requires good { good_or (declared_all signals.now) s.now ≡ true }
    requires first { AreFirsts (declared_all signals.now) first.now }
    requires now { IsTable b.old (all_cells (declared_all signals.now)) now.old }
    requires done { MayBeTable b.old (all_cells (declared_all signals.now)) done.old }
    ensures { OnOk result (Runs b.old b.new (all_cells (declared_all signals.now)) now.old done.old now.new done.new (λ st. keeps_or (declared_all signals.now) s.now st)) }
{
    match s {
        None => Ok(()),
        Some(s) => execute(alloc, b, signals, first, now, done, s.get()),
    }
}

#[cycle(executing)]
fn block(
    alloc: Global,
    b: &mut Builder,
    signals: &[Signal],
    first: &[u64],
    now: &mut [u64],
    done: &mut [u64],
    body: &[FlatStmt],
) -> Result<(), NoMemory>
    requires good { list_all (λ (x : Bool). x) (map (good_stmt (declared_all signals.now)) body.now) ≡ true }
    requires first { AreFirsts (declared_all signals.now) first.now }
    requires now { IsTable b.old (all_cells (declared_all signals.now)) now.old }
    requires done { MayBeTable b.old (all_cells (declared_all signals.now)) done.old }
    ensures { OnOk result (Runs b.old b.new (all_cells (declared_all signals.now)) now.old done.old now.new done.new (λ st. keeps_all (declared_all signals.now) body.now st)) }
{
    for s in body {
        execute(alloc, b, signals, first, now, done, s)?;
    }
    Ok(())
}

/// Writes a value to aims of a table, if there is one.
fn write_done(
    alloc: Global,
    b: &mut Builder,
    signals: &[Signal],
    first: &[u64],
    done: &mut [u64],
    aims: &[Aim],
    x: Value,
) -> Result<(), NoMemory>
    requires aims { AreAims b.old (declared_all signals.now) aims.now }
    requires x_in { IsIn b.old x }
    requires width { width_of x ≡ aims_width (declared_all signals.now) aims.now }
    requires first { AreFirsts (declared_all signals.now) first.now }
    requires done { MayBeTable b.old (all_cells (declared_all signals.now)) done.old }
    ensures { OnOk result (MayWrite b.old b.new (declared_all signals.now) (all_cells (declared_all signals.now)) done.old done.new aims.now x) }
{
    if done.is_empty() {
        return Ok(());
    }
    write(alloc, b, signals, first, done, aims, x)
}

fn assign_now(
    alloc: Global,
    b: &mut Builder,
    signals: &[Signal],
    first: &[u64],
    now: &mut [u64],
    done: &mut [u64],
    target: &FlatTarget,
    e: &FlatExpr,
) -> Result<(), NoMemory>
    requires target { good_target (declared_all signals.now) target.now ≡ true }
    requires good { is_good (declared_all signals.now) e.now ≡ true }
    requires first { AreFirsts (declared_all signals.now) first.now }
    requires now { IsTable b.old (all_cells (declared_all signals.now)) now.old }
    requires done { MayBeTable b.old (all_cells (declared_all signals.now)) done.old }
    ensures { OnOk result (Runs b.old b.new (all_cells (declared_all signals.now)) now.old done.old now.new done.new (λ st. keeps_now (declared_all signals.now) target.now e.now st)) }
{
    let p = prepare(alloc, b, signals, first, now, target, e)?;
    write_done(
        alloc,
        b,
        signals,
        first,
        done,
        p.aims.as_slice(),
        p.value.same(),
    )?;
    write(
        alloc,
        b,
        signals,
        first,
        now,
        p.aims.as_slice(),
        p.value.same(),
    )
}

fn assign_later(
    alloc: Global,
    b: &mut Builder,
    signals: &[Signal],
    first: &[u64],
    now: &[u64],
    done: &mut [u64],
    target: &FlatTarget,
    e: &FlatExpr,
) -> Result<(), NoMemory>
    requires target { good_target (declared_all signals.now) target.now ≡ true }
    requires good { is_good (declared_all signals.now) e.now ≡ true }
    requires first { AreFirsts (declared_all signals.now) first.now }
    requires now { IsTable b.old (all_cells (declared_all signals.now)) now.now }
    requires done { MayBeTable b.old (all_cells (declared_all signals.now)) done.old }
    ensures { OnOk result (Runs b.old b.new (all_cells (declared_all signals.now)) now.now done.old now.now done.new (λ st. keeps_later (declared_all signals.now) target.now e.now st)) }
{
    if done.is_empty() {
        return Ok(());
    }
    let p = prepare(alloc, b, signals, first, now, target, e)?;
    write_done(
        alloc,
        b,
        signals,
        first,
        done,
        p.aims.as_slice(),
        p.value.same(),
    )
}
