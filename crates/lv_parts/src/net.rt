ghost use Rattle.std.specs.Prelude.{◌≡◌, ◌≤◌, true};
ghost use Rattle.lv_ast.specs.Names.{alone};
ghost use Rattle.lv_source.specs.Names.{known};
ghost use Rattle.lv_source.specs.Parts.{is_declared_sort};
ghost use Rattle.lv_flat.specs.Signals.{declared_all};
ghost use Rattle.lv_resolve.specs.Forms.{Anywhere};
ghost use Rattle.lv_parts.specs.Made.{AddAnswer};
ghost use Rattle.lv_parts.specs.Nets.{WholeAnswer, ValueAnswer, NetAnswer, NetsAnswer};

use crate::error::{PartsError, of_node};
use crate::make::{made, put, whole_target};
use crate::name::number_of;
use lv_ast::{Expr, Ident, NetName};
use lv_bits::Text;
use lv_const::Consts;
use lv_faults::Fault;
use lv_flat::{FlatBody, FlatPart, Signal};
use lv_resolve::{Bindings, Place, resolve_expr, signal_at};
use std::alloc::Global;

/// From an expression, at the width of a signal, to the whole signal.
fn whole<B: Bindings>(
    alloc: Global,
    path: &Text,
    place: &Place<B>,
    signal: u64,
    width: u32,
    value: &Expr,
    at: u64,
) -> Result<FlatPart, PartsError>
    requires { width ≤ 128 }
    ensures { Anywhere (declared_all place.now.signals.now) (B.numbers place.now.bindings.now) place.now.all.now place.now.early.now (λ here.
        WholeAnswer (declared_all place.now.signals.now) here path.now signal width value.now at result) }
{
    match resolve_expr(alloc, place, value, width) {
        Err(error) => Err(of_node(error)),
        Ok(found) => {
            let (value, clocks) = found.into_parts();
            let target = whole_target(alloc, signal, at);
            let body = FlatBody::Assign(target.into_inner(), value);
            made(alloc, path, at, clocks, body)
        }
    }
}

/// A net with its value.
fn net_part<B: Bindings>(
    alloc: Global,
    path: &Text,
    place: &Place<B>,
    name: &Ident,
    value: &Expr,
) -> Result<FlatPart, PartsError>
    ensures { Anywhere (declared_all place.now.signals.now) (B.numbers place.now.bindings.now) place.now.all.now place.now.early.now (λ here.
        is_declared_sort (known (here.names (alone name.now.name))).sort ≡ true →
        ValueAnswer (declared_all place.now.signals.now) here path.now name.now value.now result) }
{
    match number_of(alloc, place.bindings, &name.name) {
        Err(_) => Err(PartsError::NoMemory),
        Ok(None) => Err(PartsError::Fault(Fault::Duplicate(name.place))),
        Ok(Some(number)) => match signal_at(place.signals, number) {
            None => Err(PartsError::Fault(Fault::Duplicate(name.place))),
            Some(signal) => whole(alloc, path, place, number, signal.width, value, name.place),
        },
    }
}

/// A net: a part where it has a value.
fn net<B: Bindings>(
    alloc: Global,
    path: &Text,
    place: &Place<B>,
    net: &NetName,
    into: &mut Vec<FlatPart>,
) -> Result<(), PartsError>
    ensures { Anywhere (declared_all place.now.signals.now) (B.numbers place.now.bindings.now) place.now.all.now place.now.early.now (λ here.
        is_declared_sort (known (here.names (alone net.now.name.name))).sort ≡ true →
        NetAnswer (declared_all place.now.signals.now) here path.now net.now into.old.items into.new.items result) }
{
    match &net.value {
        None => Ok(()),
        Some(value) => {
            let found = net_part(alloc, path, place, &net.name, value.get());
            put(into, found)
        }
    }
}

fn nets<B: Bindings>(
    alloc: Global,
    path: &Text,
    place: &Place<B>,
    list: &[NetName],
    into: &mut Vec<FlatPart>,
) -> Result<(), PartsError>
    ensures { Anywhere (declared_all place.now.signals.now) (B.numbers place.now.bindings.now) place.now.all.now place.now.early.now (λ here.
        NetsAnswer (declared_all place.now.signals.now) here path.now list.now into.old.items into.new.items result) }
{
    for one in list {
        match net(alloc, path, place, one, into) {
            Err(error) => return Err(error),
            Ok(()) => {}
        }
    }
    Ok(())
}

/// The nets of a declaration (IEEE 1364-2005, section 6.1.1).
pub fn nets_at<B: Bindings>(
    alloc: Global,
    path: &Text,
    signals: &[Signal],
    bindings: &B,
    all: &Consts,
    early: &Consts,
    list: &[NetName],
    into: &mut Vec<FlatPart>,
) -> Result<(), PartsError>
    ensures { Anywhere (declared_all signals.now) (B.numbers bindings.now) all.now early.now (λ here.
        NetsAnswer (declared_all signals.now) here path.now list.now into.old.items into.new.items result) }
{
    let place = Place {
        signals,
        bindings,
        all,
        early,
    };
    let found = nets(alloc, path, &place, list, into);
    let Place {
        signals: _,
        bindings: _,
        all: _,
        early: _,
    } = place;
    found
}
