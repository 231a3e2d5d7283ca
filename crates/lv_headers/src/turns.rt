ghost use Rattle.std.specs.Prelude.{◌≡◌, ◌≤◌, length, IfOk};
ghost use Rattle.lv_flat.specs.Signals.{declared_all};
ghost use Rattle.lv_resolve.specs.Indices.{Throughout};
ghost use Rattle.lv_headers.specs.Headers.{HeaderAnswer};

use crate::error::HeaderError;
use crate::fault::fault_of;
use crate::index::named;
use lv_ast::{Expr, Ident};
use lv_const::Consts;
use lv_flat::Signal;
use lv_resolve::{Indices, ResolveError};
use lv_scopes::{TurnsError, turns_of};
use sqlite_items::Items;
use std::alloc::Global;

/// The values of a loop's index, turn by turn, at a place (IEEE 1364-2005, sections 9.6 and 12.4.1): of a loop in statements, whose
/// index is an integer, or of a generate loop, whose index is a genvar. Ok are the turns of the definition, at most `most`, where no node of the
/// header has a fault UnknownName, NotConstant, ZeroDivisor or Range, and the index is one outside of its own loop, the same at both
/// places. `Fault` is such a fault at its place, `Limit` that there are more turns: it ends at the first that is too many. The
/// constants are unchanged.
pub fn header<B: Indices>(
    alloc: Global,
    signals: &[Signal],
    bindings: &B,
    all: &mut Consts,
    early: &mut Consts,
    genvar: bool,
    index: &Ident,
    start: &Expr,
    test: &Expr,
    again: &Ident,
    next: &Expr,
    most: usize,
) -> Result<Items<u32>, HeaderError>
    requires { most ≤ 1000000 }
    ensures all { all.new ≡ all.old }
    ensures early { early.new ≡ early.old }
    ensures few { IfOk result (λ ks. length ks ≤ most) }
    ensures right { Throughout (declared_all signals.now) (B.numbers bindings.now) (B.indices bindings.now) all.old early.old (λ here.
        HeaderAnswer here genvar index.now start.now test.now again.now next.now most result) }
{
    if let Err(place) = named(bindings, all, genvar, index, again) {
        return Err(HeaderError::Fault(ResolveError::UnknownName(place)));
    }
    match turns_of(alloc, early, &index.name, start, test, next, most) {
        Ok(turns) => Ok(turns),
        Err(TurnsError::Limit) => Err(HeaderError::Limit),
        Err(TurnsError::NoMemory) => Err(HeaderError::Fault(ResolveError::NoMemory)),
        Err(TurnsError::Const(error)) => Err(HeaderError::Fault(fault_of(
            signals, bindings, all, early, index, start, test, next, error,
        ))),
    }
}
