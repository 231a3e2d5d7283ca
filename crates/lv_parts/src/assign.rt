ghost use Rattle.lv_flat.specs.Signals.{declared_all};
ghost use Rattle.lv_resolve.specs.Forms.{Anywhere};
ghost use Rattle.lv_parts.specs.Assigns.{AssignedAnswer, AssignAnswer, AssignsAnswer, JoinedAnswer};

use crate::error::{PartsError, of_node};
use crate::make::{made, put};
use lv_ast::Continuous;
use lv_bits::Text;
use lv_const::Consts;
use lv_flat::{FlatBody, FlatPart, Signal};
use lv_resolve::{Bindings, Place, Resolved, ResolvedTarget, resolve_expr, resolve_target};
use std::alloc::Global;

/// An assignment from its sides.
fn joined(
    alloc: Global,
    path: &Text,
    at: u64,
    to: ResolvedTarget,
    from: Resolved,
) -> Result<FlatPart, PartsError>
    ensures { JoinedAnswer path.now at to from result }
{
    let (target, mut clocks) = to.into_parts();
    let (value, more) = from.into_parts();
    if clocks.append(more).is_err() {
        return Err(PartsError::NoMemory);
    }
    let body = FlatBody::Assign(target.into_inner(), value);
    made(alloc, path, at, clocks, body)
}

/// A continuous assignment.
fn assigned<B: Bindings>(
    alloc: Global,
    path: &Text,
    place: &Place<B>,
    assign: &Continuous,
) -> Result<FlatPart, PartsError>
    ensures { Anywhere (declared_all place.now.signals.now) (B.numbers place.now.bindings.now) place.now.all.now place.now.early.now (λ here.
        AssignedAnswer (declared_all place.now.signals.now) here path.now assign.now result) }
{
    match resolve_target(alloc, place, &assign.target, true) {
        Err(error) => Err(of_node(error)),
        Ok(to) => match resolve_expr(alloc, place, assign.value.get(), to.width) {
            Err(error) => Err(of_node(error)),
            Ok(from) => joined(alloc, path, assign.place, to, from),
        },
    }
}

fn assign<B: Bindings>(
    alloc: Global,
    path: &Text,
    place: &Place<B>,
    one: &Continuous,
    into: &mut Vec<FlatPart>,
) -> Result<(), PartsError>
    ensures { Anywhere (declared_all place.now.signals.now) (B.numbers place.now.bindings.now) place.now.all.now place.now.early.now (λ here.
        AssignAnswer (declared_all place.now.signals.now) here path.now one.now into.old.items into.new.items result) }
{
    let found = assigned(alloc, path, place, one);
    put(into, found)
}

fn assigns<B: Bindings>(
    alloc: Global,
    path: &Text,
    place: &Place<B>,
    list: &[Continuous],
    into: &mut Vec<FlatPart>,
) -> Result<(), PartsError>
    ensures { Anywhere (declared_all place.now.signals.now) (B.numbers place.now.bindings.now) place.now.all.now place.now.early.now (λ here.
        AssignsAnswer (declared_all place.now.signals.now) here path.now list.now into.old.items into.new.items result) }
{
    for one in list {
        match assign(alloc, path, place, one, into) {
            Err(error) => return Err(error),
            Ok(()) => {}
        }
    }
    Ok(())
}

/// The assignments of an item (IEEE 1364-2005, section 6.1.2).
pub fn assigns_at<B: Bindings>(
    alloc: Global,
    path: &Text,
    signals: &[Signal],
    bindings: &B,
    all: &Consts,
    early: &Consts,
    list: &[Continuous],
    into: &mut Vec<FlatPart>,
) -> Result<(), PartsError>
    ensures { Anywhere (declared_all signals.now) (B.numbers bindings.now) all.now early.now (λ here.
        AssignsAnswer (declared_all signals.now) here path.now list.now into.old.items into.new.items result) }
{
    let place = Place {
        signals,
        bindings,
        all,
        early,
    };
    let found = assigns(alloc, path, &place, list, into);
    let Place {
        signals: _,
        bindings: _,
        all: _,
        early: _,
    } = place;
    found
}
