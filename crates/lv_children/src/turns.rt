ghost use Rattle.std.specs.Prelude.{◌≡◌, ◌++◌, ◌≤◌, ℕ, map, OnOk, IfErr};
ghost use Rattle.lv_flat.specs.Signals.{declared_all};
ghost use Rattle.lv_resolve.specs.Indices.{Throughout};
ghost use Rattle.lv_children.specs.Children.{all_seen, turn_of};
ghost use Rattle.lv_children.specs.Turns.{AreTurns, AreNoTurns};

use crate::child::{Child, ChildError};
use lv_ast::{Expr, Ident, Item};
use lv_bits::NoMemory;
use lv_const::Consts;
use lv_flat::Signal;
use lv_headers::{HeaderError, header};
use lv_resolve::{Indices, ResolveError};
use sqlite_items::Items;
use std::alloc::Global;

fn add<'a>(
    index: &'a Ident,
    label: &'a Ident,
    items: &'a Items<Item>,
    values: &[u32],
    into: &mut Vec<Child<'a>>,
) -> Result<(), NoMemory>
    ensures { OnOk result (all_seen into.new.items ≡ all_seen into.old.items ++ map (turn_of index.now label.now items.now) values.now) }
{
    for value in values {
        into.push(Child::Turn(index, label, items, *value))?;
    }
    Ok(())
}

/// Adds the turns of a generate loop, at most `most` (IEEE 1364-2005, section 12.4.1). `Fault` is one of the loop's header, `Limit` that
/// there are more turns. The constants are unchanged.
pub fn add_turns<'a, B: Indices>(
    alloc: Global,
    signals: &[Signal],
    bindings: &B,
    all: &mut Consts,
    early: &mut Consts,
    index: &'a Ident,
    start: &Expr,
    test: &Expr,
    again: &Ident,
    next: &Expr,
    label: &'a Ident,
    items: &'a Items<Item>,
    most: usize,
    into: &mut Vec<Child<'a>>,
) -> Result<(), ChildError>
    requires { most ≤ 1000000 }
    ensures all { all.new ≡ all.old }
    ensures early { early.new ≡ early.old }
    ensures right { OnOk result (Throughout (declared_all signals.now) (B.numbers bindings.now) (B.indices bindings.now) all.old early.old (λ here.
        AreTurns here index.now start.now test.now again.now next.now label.now items.now most into.old.items into.new.items)) }
    ensures wrong { IfErr result (λ y. Throughout (declared_all signals.now) (B.numbers bindings.now) (B.indices bindings.now) all.old early.old (λ here.
        AreNoTurns here index.now start.now test.now again.now next.now most y)) }
{
    match header(
        alloc, signals, bindings, all, early, true, index, start, test, again, next, most,
    ) {
        Err(HeaderError::Fault(error)) => Err(ChildError::Fault(error)),
        Err(HeaderError::Limit) => Err(ChildError::Limit),
        Ok(values) => match add(index, label, items, values.as_slice(), into) {
            Err(_) => Err(ChildError::Fault(ResolveError::NoMemory)),
            Ok(()) => Ok(()),
        },
    }
}
