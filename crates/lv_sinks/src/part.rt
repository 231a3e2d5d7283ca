ghost use Rattle.std.specs.Prelude.{◌≡◌, ◌≤◌, [], ◌&&◌, IfOk};
ghost use Rattle.lv_source.specs.Names.{is_clock_sort};
ghost use Rattle.lv_source.specs.Scopes.{Scope};
ghost use Rattle.lv_source.specs.Scopes.{is_clock as spec_is_clock};
ghost use Rattle.lv_flat.specs.Signals.{declared, declared_all};
ghost use Rattle.lv_flat.specs.declared.part.FlatBody.TheVariants as b;
ghost use Rattle.lv_flat.specs.declared.expr.FlatExpr.TheVariants as e;
ghost use Rattle.lv_flat.specs.declared.stmt.FlatTarget.TheVariants as t;
ghost use Rattle.lv_resolve.specs.Forms.{Anywhere};
ghost use Rattle.lv_links.specs.Linking.{link_of};
ghost use Rattle.lv_sinks.specs.Connected.{IsPort, OutputAnswer, InputAnswer, ValueAnswer, LinkAnswer, some_part};

use crate::clock::{is_clock, is_clock_signal};
use crate::error::PartError;
use crate::port::Port;
use crate::sink::resolve_sink;
use lv_ast::Expr;
use lv_bits::{NoMemory, Text};
use lv_flat::{FlatBody, FlatExpr, FlatName, FlatPart, FlatTarget, Signal};
use lv_held::Held;
use lv_links::Linked;
use lv_resolve::{Bindings, Place, resolve_expr, signal_at};
use sqlite_items::Items;
use std::alloc::Global;

/// An assignment in the scope with this path.
fn assigned(
    alloc: Global,
    path: &Text,
    at: u64,
    clocks: Items<u64>,
    target: Held<FlatTarget>,
    value: Held<FlatExpr>,
) -> Result<FlatPart, NoMemory>
    ensures { IfOk result (λ p. p ≡ record { path = path.now; place = at; clocks = clocks; body = b.Assign target value }) }
{
    let path = path.copy(alloc)?;
    Ok(FlatPart {
        path,
        place: at,
        clocks,
        body: FlatBody::Assign(target.into_inner(), value),
    })
}

/// The whole signal, as a target.
fn whole_target(alloc: Global, signal: u64, place: u64) -> Held<FlatTarget>
    ensures { result ≡ t.Signal (record { signal = signal; place = place }) [] }
{
    let name = FlatName { signal, place };
    Held::new(FlatTarget::Signal(name, Items::new(alloc)))
}

/// The whole signal, as a value.
fn whole_value(alloc: Global, signal: u64) -> Held<FlatExpr>
    ensures { result ≡ e.Signal signal [] }
{
    Held::new(FlatExpr::Signal(signal, Items::new(alloc)))
}

/// From an output to the expression that it drives.
fn output_part<B: Bindings>(
    alloc: Global,
    path: &Text,
    place: &Place<B>,
    signal: u64,
    value: &Expr,
    at: u64,
) -> Result<FlatPart, PartError>
    ensures { Anywhere (declared_all place.now.signals.now) (B.numbers place.now.bindings.now) place.now.all.now place.now.early.now (λ here.
        OutputAnswer (declared_all place.now.signals.now) here path.now signal value.now at result) }
{
    match resolve_sink(alloc, place, value) {
        Err(error) => Err(PartError::Fault(error)),
        Ok(None) => Err(PartError::NoTarget(at)),
        Ok(Some(found)) => {
            let (target, clocks) = found.into_parts();
            let value = whole_value(alloc, signal);
            match assigned(alloc, path, at, clocks, target, value) {
                Err(_) => Err(PartError::NoMemory),
                Ok(part) => Ok(part),
            }
        }
    }
}

/// From an expression, at the width of an input, to the input.
fn input_part<B: Bindings>(
    alloc: Global,
    path: &Text,
    place: &Place<B>,
    signal: u64,
    width: u32,
    value: &Expr,
    at: u64,
) -> Result<FlatPart, PartError>
    requires { width ≤ 128 }
    ensures { Anywhere (declared_all place.now.signals.now) (B.numbers place.now.bindings.now) place.now.all.now place.now.early.now (λ here.
        InputAnswer (declared_all place.now.signals.now) here path.now signal width value.now at result) }
{
    match resolve_expr(alloc, place, value, width) {
        Err(error) => Err(PartError::Fault(error)),
        Ok(found) => {
            let (value, clocks) = found.into_parts();
            let target = whole_target(alloc, signal, at);
            match assigned(alloc, path, at, clocks, target, value) {
                Err(_) => Err(PartError::NoMemory),
                Ok(part) => Ok(part),
            }
        }
    }
}

/// Whether a clock is connected to a clock.
fn joins_clocks<B: Bindings>(place: &Place<B>, port: &Signal, value: &Expr) -> bool
    ensures { Anywhere (declared_all place.now.signals.now) (B.numbers place.now.bindings.now) place.now.all.now place.now.early.now (λ here.
        result ≡ (spec_is_clock here.names value.now && is_clock_sort (declared port.now).sort)) }
{
    is_clock(place, value) && is_clock_signal(port.sort)
}

fn optional(part: Result<FlatPart, PartError>) -> Result<Option<FlatPart>, PartError>
    ensures { result ≡ some_part part }
{
    match part {
        Err(error) => Err(error),
        Ok(part) => Ok(Some(part)),
    }
}

/// The part of a connection with an expression.
fn value_part<B: Bindings>(
    alloc: Global,
    path: &Text,
    place: &Place<B>,
    port: Port,
    value: &Expr,
    at: u64,
) -> Result<Option<FlatPart>, PartError>
    ensures { Anywhere (declared_all place.now.signals.now) (B.numbers place.now.bindings.now) place.now.all.now place.now.early.now (λ here.
        ValueAnswer (declared_all place.now.signals.now) here path.now port value.now at result) }
{
    match signal_at(place.signals, port.signal) {
        None => Ok(None),
        Some(signal) => {
            if joins_clocks(place, signal, value) {
                return Ok(None);
            }
            if port.output {
                return optional(output_part(alloc, path, place, port.signal, value, at));
            }
            let width = signal.width;
            optional(input_part(alloc, path, place, port.signal, width, value, at))
        }
    }
}

/// The part that a connection is (IEEE 1364-2005, section 12.3.9.2), in the scope with this path: from an output the assignment of the
/// whole port to the expression as a target; else of the expression, at the width of the port, to the whole port; none where there is no
/// expression, or a clock is connected to a clock. Ok exactly where no node has a fault UnknownName, NotConstant, ZeroDivisor or Range and
/// the expression that an output drives is a target; an error is such a fault at its place, `NoTarget` at the connection. `NoMemory` may
/// come at any time.
pub fn link_part<B: Bindings>(
    alloc: Global,
    path: &Text,
    place: &Place<B>,
    port: Port,
    link: &Linked,
) -> Result<Option<FlatPart>, PartError>
    ensures { Anywhere (declared_all place.now.signals.now) (B.numbers place.now.bindings.now) place.now.all.now place.now.early.now (λ here.
        (s child : Scope) → s.names ≡ here.names → s.path ≡ path.now → IsPort (declared_all place.now.signals.now) child (link_of link.now).port port →
        LinkAnswer (declared_all place.now.signals.now) here s child (link_of link.now) result) }
{
    match &link.conn.value {
        None => Ok(None),
        Some(value) => value_part(alloc, path, place, port, value.get(), link.conn.place),
    }
}
