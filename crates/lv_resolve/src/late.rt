ghost use Rattle.std.specs.Prelude.{◌≡◌, flat_map};
ghost use Rattle.lv_const.specs.Constants.{names_of, declared_of};
ghost use Rattle.lv_resolve.specs.Late.{late_name, first_late, paths_in, paths_within};
ghost use Rattle.lv_resolve.specs.Late.{or_else as spec_or_else};

use crate::error::ResolveError;
use crate::place::{Bindings, Place};
use lv_ast::{Expr, Path, Select};
use lv_const::{Const, Consts};

/// The constant that a name stands for.
pub fn constant(consts: &Consts, path: &Path) -> Option<Const>
    ensures { declared_of path.now.name result ≡ names_of consts.now path.now }
{
    if path.steps.is_empty() {
        consts.get(&path.name)
    } else {
        None
    }
}

fn late_name<B: Bindings>(place: &Place<B>, path: &Path) -> Option<ResolveError>
    ensures { result ≡ late_name (B.numbers place.now.bindings.now) place.now.all.now place.now.early.now path.now }
{
    if constant(place.early, path).is_some() {
        return None;
    }
    if place.bindings.signal(path).is_some() || constant(place.all, path).is_some() {
        return Some(ResolveError::NotConstant(path.place));
    }
    Some(ResolveError::UnknownName(path.place))
}

fn or_else(first: Option<ResolveError>, second: Option<ResolveError>) -> Option<ResolveError>
    ensures { result ≡ spec_or_else first second }
{
    match first {
        None => second,
        Some(error) => Some(error),
    }
}

/// The first name in it that stands for no constant that is declared before.
#[cycle(late)]
#[tactic(auto, using(crate::proofs::LateNames::late_rules))]
pub fn late_in<B: Bindings>(place: &Place<B>, expr: &Expr) -> Option<ResolveError>
    ensures { result ≡ first_late (late_name (B.numbers place.now.bindings.now) place.now.all.now place.now.early.now) (paths_in expr.now) }
{
    match expr {
        Expr::Lit(_) => None,
        Expr::Name(path, selects) => {
            let first = late_name(place, path);
            or_else(first, late_selects(place, selects.as_slice()))
        }
        Expr::Un(_, a) => late_in(place, a.get()),
        Expr::Bin(_, a, b) => or_else(late_in(place, a.get()), late_in(place, b.get())),
        Expr::Div(a, b) => or_else(late_in(place, a.get()), late_in(place, b.get())),
        Expr::Rem(a, b) => or_else(late_in(place, a.get()), late_in(place, b.get())),
        Expr::Cond(c, a, b) => {
            let before = or_else(late_in(place, c.get()), late_in(place, a.get()));
            or_else(before, late_in(place, b.get()))
        }
        Expr::Cat(parts) => late_exprs(place, parts.as_slice()),
        Expr::Rep(count, parts) => or_else(
            late_in(place, count.get()),
            late_exprs(place, parts.as_slice()),
        ),
        Expr::Cast(_, a) => late_in(place, a.get()),
    }
}

#[cycle(late)]
#[tactic(auto, using(crate::proofs::LateNames::late_rules))]
fn late_exprs<B: Bindings>(place: &Place<B>, exprs: &[Expr]) -> Option<ResolveError>
    ensures { result ≡ first_late (late_name (B.numbers place.now.bindings.now) place.now.all.now place.now.early.now) (flat_map paths_in exprs.now) }
{
    for expr in exprs {
        if let Some(error) = late_in(place, expr) {
            return Some(error);
        }
    }
    None
}

#[cycle(late)]
#[tactic(auto, using(crate::proofs::LateNames::late_rules))]
fn late_selects<B: Bindings>(place: &Place<B>, selects: &[Select]) -> Option<ResolveError>
    ensures { result ≡ first_late (late_name (B.numbers place.now.bindings.now) place.now.all.now place.now.early.now) (flat_map paths_within selects.now) }
{
    for select in selects {
        if let Some(error) = late_select(place, select) {
            return Some(error);
        }
    }
    None
}

#[cycle(late)]
#[tactic(auto, using(crate::proofs::LateNames::late_rules))]
fn late_select<B: Bindings>(place: &Place<B>, select: &Select) -> Option<ResolveError>
    ensures { result ≡ first_late (late_name (B.numbers place.now.bindings.now) place.now.all.now place.now.early.now) (paths_within select.now) }
{
    match select {
        Select::Bit(a) => late_in(place, a.get()),
        Select::Part(a, b) => or_else(late_in(place, a.get()), late_in(place, b.get())),
        Select::Up(a, b) => or_else(late_in(place, a.get()), late_in(place, b.get())),
        Select::Down(a, b) => or_else(late_in(place, a.get()), late_in(place, b.get())),
    }
}
