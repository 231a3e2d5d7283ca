ghost use Rattle.std.specs.Prelude.{◌≡◌, flat_map};
ghost use Rattle.lv_declared.specs.Listing.{all_declared};
ghost use Rattle.lv_bindings.specs.Grouping.{AreGrouped};
ghost use Rattle.lv_resolve.specs.Late.{first_late, paths_in, paths_within};
ghost use Rattle.lv_resolve.specs.Late.{or_else as spec_or_else};
ghost use Rattle.lv_late.specs.Lates.{told_of_name};
ghost use Rattle.lv_late.specs.Outers.{said_by};

use crate::names::{Names, told_of_name};
use lv_ast::{Expr, Select};
use lv_resolve::{Bindings, ResolveError};

pub(crate) fn or_else(
    first: Option<ResolveError>,
    second: Option<ResolveError>,
) -> Option<ResolveError>
    ensures { result ≡ spec_or_else first second }
{
    match first {
        None => second,
        Some(error) => Some(error),
    }
}

/// The first name in it that stands for no constant that is declared before.
#[cycle(late)]
#[tactic(auto, using(lv_resolve::proofs::LateNames::late_rules))]
pub(crate) fn first_late<B: Bindings>(names: &Names<B>, expr: &Expr) -> Option<ResolveError>
    requires { AreGrouped (all_declared names.now.declarations.now) names.now.groups.now }
    ensures { result ≡ first_late (told_of_name (said_by B.numbers names.now) names.now.before) (paths_in expr.now) }
{
    match expr {
        Expr::Lit(_) => None,
        Expr::Name(path, selects) => {
            let first = told_of_name(names, path);
            or_else(first, late_selects(names, selects.as_slice()))
        }
        Expr::Un(_, a) => first_late(names, a.get()),
        Expr::Bin(_, a, b) => or_else(first_late(names, a.get()), first_late(names, b.get())),
        Expr::Div(a, b) => or_else(first_late(names, a.get()), first_late(names, b.get())),
        Expr::Rem(a, b) => or_else(first_late(names, a.get()), first_late(names, b.get())),
        Expr::Cond(c, a, b) => {
            let before = or_else(first_late(names, c.get()), first_late(names, a.get()));
            or_else(before, first_late(names, b.get()))
        }
        Expr::Cat(parts) => late_exprs(names, parts.as_slice()),
        Expr::Rep(count, parts) => or_else(
            first_late(names, count.get()),
            late_exprs(names, parts.as_slice()),
        ),
        Expr::Cast(_, a) => first_late(names, a.get()),
    }
}

#[cycle(late)]
#[tactic(auto, using(lv_resolve::proofs::LateNames::late_rules))]
fn late_exprs<B: Bindings>(names: &Names<B>, exprs: &[Expr]) -> Option<ResolveError>
    requires { AreGrouped (all_declared names.now.declarations.now) names.now.groups.now }
    ensures { result ≡ first_late (told_of_name (said_by B.numbers names.now) names.now.before) (flat_map paths_in exprs.now) }
{
    for expr in exprs {
        if let Some(error) = first_late(names, expr) {
            return Some(error);
        }
    }
    None
}

#[cycle(late)]
#[tactic(auto, using(lv_resolve::proofs::LateNames::late_rules))]
fn late_selects<B: Bindings>(names: &Names<B>, selects: &[Select]) -> Option<ResolveError>
    requires { AreGrouped (all_declared names.now.declarations.now) names.now.groups.now }
    ensures { result ≡ first_late (told_of_name (said_by B.numbers names.now) names.now.before) (flat_map paths_within selects.now) }
{
    for select in selects {
        if let Some(error) = late_select(names, select) {
            return Some(error);
        }
    }
    None
}

#[cycle(late)]
#[tactic(auto, using(lv_resolve::proofs::LateNames::late_rules))]
fn late_select<B: Bindings>(names: &Names<B>, select: &Select) -> Option<ResolveError>
    requires { AreGrouped (all_declared names.now.declarations.now) names.now.groups.now }
    ensures { result ≡ first_late (told_of_name (said_by B.numbers names.now) names.now.before) (paths_within select.now) }
{
    match select {
        Select::Bit(a) => first_late(names, a.get()),
        Select::Part(a, b) => or_else(first_late(names, a.get()), first_late(names, b.get())),
        Select::Up(a, b) => or_else(first_late(names, a.get()), first_late(names, b.get())),
        Select::Down(a, b) => or_else(first_late(names, a.get()), first_late(names, b.get())),
    }
}
