ghost use Rattle.std.specs.Prelude.{◌≡◌};
ghost use Rattle.lv_flat.specs.Signals.{declared_all};
ghost use Rattle.lv_resolve.specs.Forms.{Anywhere};
ghost use Rattle.lv_resolve.specs.Indices.{Throughout};
ghost use Rattle.lv_parts.specs.Blocks.{EdgeAnswer, CombAnswer, ClockedAnswer, BlockAnswer, AlwaysAnswer};

use crate::error::{PartsError, of_stmt};
use crate::make::{made, put};
use crate::name::edge;
use lv_ast::{Ident, Stmt, Watch};
use lv_bits::Text;
use lv_const::Consts;
use lv_flat::{FlatBody, FlatName, FlatPart, Signal};
use lv_resolve::{Bindings, Indices, Place};
use lv_resolve_stmts::resolve_stmt;
use std::alloc::Global;

/// The name behind `posedge`, where the parts of the place are given.
fn edge_at<B: Bindings>(
    alloc: Global,
    signals: &[Signal],
    bindings: &B,
    all: &Consts,
    early: &Consts,
    clock: &Ident,
) -> Result<FlatName, PartsError>
    ensures { Anywhere (declared_all signals.now) (B.numbers bindings.now) all.now early.now (λ here.
        EdgeAnswer (declared_all signals.now) here clock.now result) }
{
    let place = Place {
        signals,
        bindings,
        all,
        early,
    };
    let found = edge(alloc, &place, clock);
    let Place {
        signals: _,
        bindings: _,
        all: _,
        early: _,
    } = place;
    found
}

/// A combinational block.
fn combinational<B: Indices>(
    alloc: Global,
    path: &Text,
    signals: &[Signal],
    bindings: &B,
    all: &mut Consts,
    early: &mut Consts,
    stmt: &Stmt,
    at: u64,
) -> Result<FlatPart, PartsError>
    ensures all { all.new ≡ all.old }
    ensures early { early.new ≡ early.old }
    ensures right { Throughout (declared_all signals.now) (B.numbers bindings.now) (B.indices bindings.now) all.old early.old (λ here.
        CombAnswer (declared_all signals.now) here path.now stmt.now at result) }
{
    match resolve_stmt(alloc, signals, bindings, all, early, stmt) {
        Err(error) => Err(of_stmt(error)),
        Ok(found) => {
            let (stmt, clocks) = found.into_parts();
            made(alloc, path, at, clocks, FlatBody::Combinational(stmt))
        }
    }
}

/// A block behind the edge of a name.
fn clocked<B: Indices>(
    alloc: Global,
    path: &Text,
    signals: &[Signal],
    bindings: &B,
    all: &mut Consts,
    early: &mut Consts,
    edge: FlatName,
    stmt: &Stmt,
    at: u64,
) -> Result<FlatPart, PartsError>
    ensures all { all.new ≡ all.old }
    ensures early { early.new ≡ early.old }
    ensures right { Throughout (declared_all signals.now) (B.numbers bindings.now) (B.indices bindings.now) all.old early.old (λ here.
        ClockedAnswer (declared_all signals.now) here path.now edge stmt.now at result) }
{
    match resolve_stmt(alloc, signals, bindings, all, early, stmt) {
        Err(error) => Err(of_stmt(error)),
        Ok(found) => {
            let (stmt, clocks) = found.into_parts();
            made(alloc, path, at, clocks, FlatBody::Clocked(edge, stmt))
        }
    }
}

/// The block of an `always`.
fn block<B: Indices>(
    alloc: Global,
    path: &Text,
    signals: &[Signal],
    bindings: &B,
    all: &mut Consts,
    early: &mut Consts,
    watch: &Watch,
    stmt: &Stmt,
    at: u64,
) -> Result<FlatPart, PartsError>
    ensures all { all.new ≡ all.old }
    ensures early { early.new ≡ early.old }
    ensures right { Throughout (declared_all signals.now) (B.numbers bindings.now) (B.indices bindings.now) all.old early.old (λ here.
        BlockAnswer (declared_all signals.now) here path.now watch.now stmt.now at result) }
{
    match watch {
        Watch::Posedge(clock) => match edge_at(alloc, signals, bindings, all, early, clock) {
            Err(error) => Err(error),
            Ok(edge) => clocked(alloc, path, signals, bindings, all, early, edge, stmt, at),
        },
        Watch::Star => combinational(alloc, path, signals, bindings, all, early, stmt, at),
        Watch::Closed => combinational(alloc, path, signals, bindings, all, early, stmt, at),
    }
}

/// An `always` (IEEE 1364-2005, section 9.9.2).
pub fn always<B: Indices>(
    alloc: Global,
    path: &Text,
    signals: &[Signal],
    bindings: &B,
    all: &mut Consts,
    early: &mut Consts,
    watch: &Watch,
    stmt: &Stmt,
    at: u64,
    into: &mut Vec<FlatPart>,
) -> Result<(), PartsError>
    ensures all { all.new ≡ all.old }
    ensures early { early.new ≡ early.old }
    ensures right { Throughout (declared_all signals.now) (B.numbers bindings.now) (B.indices bindings.now) all.old early.old (λ here.
        AlwaysAnswer (declared_all signals.now) here path.now watch.now stmt.now at into.old.items into.new.items result) }
{
    let found = block(alloc, path, signals, bindings, all, early, watch, stmt, at);
    put(into, found)
}
