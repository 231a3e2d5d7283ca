ghost use Rattle.std.specs.Prelude.{◌≡◌, false, IfOk, IfErr};
ghost use Rattle.lv_source.specs.NodeRules.{is_width};
ghost use Rattle.lv_source.specs.Sites.{first_place, walk};
ghost use Rattle.lv_flat.specs.Judged.{no_names};
ghost use Rattle.lv_flat.specs.Signals.{declared_all};
ghost use Rattle.lv_resolve.specs.Forms.{Anywhere};
ghost use Rattle.lv_sinks.specs.Sinks.{SinkAnswer, SinksAnswer, SunkAnswer, IsJoined};
ghost use Rattle.lv_resolve.specs.declared.error.ResolveError.TheVariants.{Range};

use crate::shape::is_sink;
use lv_ast::Expr;
use lv_resolve::{
    Bindings, Place, ResolveError, ResolvedTarget, TargetForm, TargetForms, joined, no_targets,
    place_of, target_name, with_target,
};
use std::alloc::Global;

fn fits(width: u32) -> bool
    ensures { result ≡ is_width width }
{
    1 <= width && width <= 128
}

/// The concatenation of these. `Range` where the whole begins if its bits together are not 1 to 128.
fn concatenated(whole: &Expr, found: TargetForms) -> Result<Option<TargetForm>, ResolveError>
    ensures ok { IfOk result (IsJoined found) }
    ensures err { IfErr result (λ y. (is_width found.width ≡ false) × (y ≡ Range (first_place (walk no_names whole.now).shown))) }
{
    if !fits(found.width) {
        return Err(ResolveError::Range(place_of(whole)));
    }
    Ok(Some(joined(found)))
}

#[cycle(sinks)]
fn sink_form<B: Bindings>(
    alloc: Global,
    place: &Place<B>,
    expr: &Expr,
) -> Result<Option<TargetForm>, ResolveError>
    ensures { Anywhere (declared_all place.now.signals.now) (B.numbers place.now.bindings.now) place.now.all.now place.now.early.now (λ here.
        SinkAnswer (declared_all place.now.signals.now) here expr.now result) }
{
    match expr {
        Expr::Name(path, selects) => {
            match target_name(alloc, place, path, selects.as_slice(), true) {
                Err(error) => Err(error),
                Ok(found) => Ok(Some(found)),
            }
        }
        Expr::Cat(parts) => match sink_forms(alloc, place, parts.as_slice()) {
            Err(error) => Err(error),
            Ok(None) => Ok(None),
            Ok(Some(found)) => concatenated(expr, found),
        },
        _ => Ok(None),
    }
}

#[cycle(sinks)]
fn sink_forms<B: Bindings>(
    alloc: Global,
    place: &Place<B>,
    exprs: &[Expr],
) -> Result<Option<TargetForms>, ResolveError>
    ensures { Anywhere (declared_all place.now.signals.now) (B.numbers place.now.bindings.now) place.now.all.now place.now.early.now (λ here.
        SinksAnswer (declared_all place.now.signals.now) here exprs.now result) }
{
    let mut found = no_targets(alloc);
    for expr in exprs {
        match sink_form(alloc, place, expr) {
            Err(error) => return Err(error),
            Ok(None) => return Ok(None),
            Ok(Some(one)) => match with_target(found, one) {
                Err(error) => return Err(error),
                Ok(more) => found = more,
            },
        }
    }
    Ok(Some(found))
}

/// The expression that an output drives (IEEE 1364-2005, sections 6.1.2 and 12.3.9.2), as a target whose indices are constant; None exactly
/// where it is no name, no select of one and no concatenation of such. Else Ok is a target that tells what the expression tells as one, and
/// comes exactly where no node has a fault UnknownName, NotConstant, ZeroDivisor or Range; an error is such a fault at its place. `NoMemory`
/// may come for a target at any time.
pub fn resolve_sink<B: Bindings>(
    alloc: Global,
    place: &Place<B>,
    expr: &Expr,
) -> Result<Option<ResolvedTarget>, ResolveError>
    ensures { Anywhere (declared_all place.now.signals.now) (B.numbers place.now.bindings.now) place.now.all.now place.now.early.now (λ here.
        SunkAnswer (declared_all place.now.signals.now) here expr.now result) }
{
    if !is_sink(expr) {
        return Ok(None);
    }
    match sink_form(alloc, place, expr) {
        Err(error) => Err(error),
        Ok(None) => Ok(None),
        Ok(Some(found)) => {
            // where the names are those of a place it is at most 128
            let width = found.width.min(128);
            let (target, clocks) = found.into_parts();
            Ok(Some(ResolvedTarget {
                target,
                width,
                clocks,
            }))
        }
    }
}
