ghost use Rattle.std.specs.Prelude.{◌≡◌};
ghost use Rattle.lv_const.specs.Places.{head_of, place_or};
ghost use Rattle.lv_const.specs.Places.{either as first_some};
ghost use Rattle.lv_const.specs.Constants.{names_of};
ghost use Rattle.lv_source.specs.Sites.{walk, first_place};
ghost use Rattle.lv_const.specs.Answers.{joined_places};
ghost use Rattle.std.specs.Prelude.{map};

use crate::consts::Consts;
use lv_ast::Expr;

fn either(first: Option<u64>, second: Option<u64>) -> Option<u64>
    ensures { result ≡ first_some first second }
{
    match first {
        None => second,
        Some(place) => Some(place),
    }
}

/// The place of the first name or literal in it.
#[cycle(places)]
#[tactic(auto, using(crate::proofs::Heads::head_rules))]
fn first_in(consts: &Consts, expr: &Expr) -> Option<u64>
    ensures { result ≡ head_of (walk (names_of consts.now) expr.now).shown.places }
{
    match expr {
        Expr::Lit(literal) => Some(literal.place),
        Expr::Name(path, _) => Some(path.place),
        Expr::Un(_, a) => first_in(consts, a.get()),
        Expr::Bin(_, a, b) => either(first_in(consts, a.get()), first_in(consts, b.get())),
        Expr::Div(a, b) => either(first_in(consts, a.get()), first_in(consts, b.get())),
        Expr::Rem(a, b) => either(first_in(consts, a.get()), first_in(consts, b.get())),
        Expr::Cond(c, a, b) => {
            let before = either(first_in(consts, c.get()), first_in(consts, a.get()));
            either(before, first_in(consts, b.get()))
        }
        Expr::Cat(parts) => first_of(consts, parts.as_slice()),
        Expr::Rep(count, parts) => either(
            first_in(consts, count.get()),
            first_of(consts, parts.as_slice()),
        ),
        Expr::Cast(_, a) => first_in(consts, a.get()),
    }
}

#[cycle(places)]
fn first_of(consts: &Consts, exprs: &[Expr]) -> Option<u64>
    ensures { result ≡ head_of (joined_places (map (walk (names_of consts.now)) exprs.now)) }
{
    for expr in exprs {
        if let Some(place) = first_in(consts, expr) {
            return Some(place);
        }
    }
    None
}

/// Where an expression begins.
pub fn place_of(consts: &Consts, expr: &Expr) -> u64
    ensures { result ≡ first_place (walk (names_of consts.now) expr.now).shown }
{
    match first_in(consts, expr) {
        None => 0,
        Some(place) => place,
    }
}
