ghost use Rattle.std.specs.Prelude.{◌≡◌, map};
ghost use Rattle.lv_source.specs.Sites.{walk, first_place};
ghost use Rattle.lv_const.specs.Places.{head_of};
ghost use Rattle.lv_const.specs.Places.{either as first_some};
ghost use Rattle.lv_const.specs.Answers.{joined_places};
ghost use Rattle.lv_flat.specs.Judged.{no_names};

use lv_ast::Expr;

fn either(first: Option<u64>, second: Option<u64>) -> Option<u64>
    ensures { result ≡ first_some first second }
{
    match first {
        None => second,
        Some(place) => Some(place),
    }
}

/// The place of the first name or literal in it.
#[cycle(heads)]
#[tactic(auto, using(crate::proofs::Rules::heads))]
fn first_in(expr: &Expr) -> Option<u64>
    ensures { result ≡ head_of (walk no_names expr.now).shown.places }
{
    match expr {
        Expr::Lit(literal) => Some(literal.place),
        Expr::Name(path, _) => Some(path.place),
        Expr::Un(_, a) => first_in(a.get()),
        Expr::Bin(_, a, b) => either(first_in(a.get()), first_in(b.get())),
        Expr::Div(a, b) => either(first_in(a.get()), first_in(b.get())),
        Expr::Rem(a, b) => either(first_in(a.get()), first_in(b.get())),
        Expr::Cond(c, a, b) => {
            let before = either(first_in(c.get()), first_in(a.get()));
            either(before, first_in(b.get()))
        }
        Expr::Cat(parts) => first_of(parts.as_slice()),
        Expr::Rep(count, parts) => either(first_in(count.get()), first_of(parts.as_slice())),
        Expr::Cast(_, a) => first_in(a.get()),
    }
}

#[cycle(heads)]
fn first_of(exprs: &[Expr]) -> Option<u64>
    ensures { result ≡ head_of (joined_places (map (walk no_names) exprs.now)) }
{
    for expr in exprs {
        if let Some(place) = first_in(expr) {
            return Some(place);
        }
    }
    None
}

/// Where an expression begins.
pub fn place_of(expr: &Expr) -> u64
    ensures { result ≡ first_place (walk no_names expr.now).shown }
{
    match first_in(expr) {
        None => 0,
        Some(place) => place,
    }
}
