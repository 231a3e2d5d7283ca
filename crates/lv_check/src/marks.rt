ghost use Rattle.std.specs.Prelude.{◌≡◌, ℕ, ◌-◌, ◌<◌, ◌≤◌, List, length, slice_set, IsTrue};
ghost use Rattle.lv_clauses.specs.Literals.{Lit as Literal, IsWithin, IsClause, negated};
ghost use Rattle.lv_clauses.specs.Units.{remaining};
ghost use Rattle.lv_check.specs.Marks.{marked, mark_of, Tells, IsRest, IsRestWithin};

use lv_clauses::Lit;

/// In which line a variable got its value last, and the sign of its true literal.
#[derive(Clone, Copy)]
pub struct Mark {
    pub line: u64,
    pub neg: bool,
}

/// What is left of a clause without its false literals.
#[derive(Clone, Copy)]
pub enum Rest {
    Nothing,
    One(Lit),
    More,
}

/// Whether the literal is true in the line.
pub fn is_true(marks: &[Mark], line: u64, lit: Lit) -> bool
    requires { (1 ≤ lit.var) × (lit.var ≤ length marks.now) }
    ensures { result ≡ marked marks.now line lit }
{
    let mark = marks[(lit.var() - 1) as usize];
    mark.line == line && mark.neg == lit.neg()
}

/// Makes the literal true in the line.
pub fn make_true(marks: &mut [Mark], line: u64, lit: Lit)
    requires { (1 ≤ lit.var) × (lit.var ≤ length marks.old) }
    ensures { marks.new ≡ slice_set marks.old (lit.var - 1) (mark_of line lit) }
{
    marks[(lit.var() - 1) as usize] = Mark {
        line,
        neg: lit.neg(),
    };
}

/// What is left of the clause in the line.
pub fn rest_of(marks: &[Mark], line: u64, clause: &[Lit]) -> Rest
    requires { IsWithin clause.now (length marks.now) }
    ensures rest { (t : List Literal) → Tells marks.now line t → IsRest (remaining t clause.now) result }
    ensures within { IsRestWithin (length marks.now) result }
{
    let mut found = Rest::Nothing;
    for x in clause {
        if !is_true(marks, line, x.negated()) {
            match found {
                Rest::Nothing => {
                    found = Rest::One(*x);
                }
                _ => {
                    return Rest::More;
                }
            }
        }
    }
    found
}
