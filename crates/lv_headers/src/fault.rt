ghost use Rattle.std.specs.Prelude.{◌≡◌, Bool, true, IfOk};
ghost use Rattle.lv_ast.specs.Names.{alone};
ghost use Rattle.lv_source.specs.ScopeRules.{is_index_of};
ghost use Rattle.lv_source.specs.Standing.{header_spots};
ghost use Rattle.lv_const.specs.Constants.{names_of};
ghost use Rattle.lv_flat.specs.Signals.{declared_all};
ghost use Rattle.lv_resolve.specs.Late.{late_name, first_late, paths_in, or_else};
ghost use Rattle.lv_resolve.specs.Indices.{Throughout};
ghost use Rattle.lv_resolve.specs.Resolved.{IsToldOf};
ghost use Rattle.lv_headers.specs.Headers.{IsFaulty};
ghost use Rattle.lv_headers.specs.LateHeaders.{late_header};

use crate::turn::set_turn;
use lv_ast::{Expr, Ident};
use lv_bits::{NoMemory, Text};
use lv_const::{ConstError, Consts};
use lv_flat::Signal;
use lv_resolve::{Bindings, Indices, Place, ResolveError, late_in};

/// The first name of an expression that stands for no constant that is declared before.
fn late_at<B: Bindings>(
    signals: &[Signal],
    bindings: &B,
    all: &Consts,
    early: &Consts,
    expr: &Expr,
) -> Option<ResolveError>
    ensures { result ≡ first_late (late_name (B.numbers bindings.now) all.now early.now) (paths_in expr.now) }
{
    let place = Place {
        signals,
        bindings,
        all,
        early,
    };
    let found = late_in(&place, expr);
    let Place {
        signals: _,
        bindings: _,
        all: _,
        early: _,
    } = place;
    found
}

/// The first such name of a turn.
fn late_turn<B: Bindings>(
    signals: &[Signal],
    bindings: &B,
    all: &Consts,
    early: &Consts,
    test: &Expr,
    next: &Expr,
) -> Option<ResolveError>
    ensures { result ≡ or_else (first_late (late_name (B.numbers bindings.now) all.now early.now) (paths_in test.now))
        (first_late (late_name (B.numbers bindings.now) all.now early.now) (paths_in next.now)) }
{
    match late_at(signals, bindings, all, early, test) {
        Some(error) => Some(error),
        None => late_at(signals, bindings, all, early, next),
    }
}

/// The first such name of a header.
fn late_header<B: Bindings>(
    signals: &[Signal],
    bindings: &B,
    all: &mut Consts,
    early: &mut Consts,
    index: &Text,
    start: &Expr,
    test: &Expr,
    next: &Expr,
) -> Result<Option<ResolveError>, NoMemory>
    ensures all { all.new ≡ all.old }
    ensures early { early.new ≡ early.old }
    ensures right { IfOk result (λ r. r ≡
        late_header (B.numbers bindings.now) (names_of all.old) (names_of early.old) index.now start.now test.now next.now) }
{
    if let Some(error) = late_at(signals, bindings, all, early, start) {
        return Ok(Some(error));
    }
    let (all_len, early_len) = (all.len(), early.len());
    if set_turn(all, early, index, 0).is_err() {
        return Err(NoMemory);
    }
    let found = late_turn(signals, bindings, all, early, test, next);
    all.cut(all_len);
    early.cut(early_len);
    Ok(found)
}

/// A fault of a header by its kind: a name without a value is unknown, or no constant, by what the names say of it.
pub fn fault_of<B: Indices>(
    signals: &[Signal],
    bindings: &B,
    all: &mut Consts,
    early: &mut Consts,
    index: &Ident,
    start: &Expr,
    test: &Expr,
    next: &Expr,
    error: ConstError,
) -> ResolveError
    ensures all { all.new ≡ all.old }
    ensures early { early.new ≡ early.old }
    ensures right { (genvar : Bool) →
        Throughout (declared_all signals.now) (B.numbers bindings.now) (B.indices bindings.now) all.old early.old (λ here.
        is_index_of genvar (here.names (alone index.now.name)) ≡ true → IsFaulty here index.now.name start.now test.now next.now error →
        IsToldOf (header_spots here index.now start.now test.now next.now) result) }
{
    match error {
        ConstError::Range(at) => ResolveError::Range(at),
        ConstError::ZeroDivisor(at) => ResolveError::ZeroDivisor(at),
        ConstError::NoValue(at) => {
            match late_header(
                signals,
                bindings,
                all,
                early,
                &index.name,
                start,
                test,
                next,
            ) {
                Err(_) => ResolveError::NoMemory,
                Ok(Some(error)) => error,
                Ok(None) => ResolveError::UnknownName(at),
            }
        }
    }
}
