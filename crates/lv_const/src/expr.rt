ghost use Rattle.std.specs.Prelude.{◌≡◌, ◌≤◌, Bool, map, false};
ghost use Rattle.lv_ast.specs.declared.expr.Expr.TheOpen.{Expr-F};
ghost use Rattle.lv_source.specs.Sites.{walk, walk_select, walk_step};
ghost use Rattle.lv_const.specs.Constants.{names_of, declared_of};
ghost use Rattle.lv_const.specs.Wherever.{Wherever};
ghost use Rattle.lv_const.specs.Answers.{IsOwn, IsFull, IsReached, IsPair, AreWidths, IsJoint, IsOwnPick, IsFullPick};

use crate::constant::Const;
use crate::consts::Consts;
use crate::error::ConstError;
use crate::full::{Full, Reach, alone, held, placed, spread};
use crate::own::{
    Own, binary_own, cast_own, chosen_own, greater_own, joined_own, literal_own, repeated_own,
    unary_own,
};
use crate::pair::Pair;
use crate::picks::{
    bit_full, bit_own, down_full, part_full, part_own, run_own, up_full, whole_full, whole_own,
};
use crate::place::place_of;
use crate::values::{
    appended, arithmetic, cast_full, chosen, compared, divided, joined_full, literal_full, logical,
    paired, remains, repeated_full, shifted, unary_bit, unary_kept,
};
use crate::weight::weight;
use lv_ast::{Expr, Path, Select};
use lv_bits::{Op, Word};
use sqlite_items::Boxed;

/// The constant that a name stands for.
fn constant(consts: &Consts, path: &Path) -> Option<Const>
    ensures { declared_of path.now.name result ≡ names_of consts.now path.now }
{
    if path.steps.is_empty() {
        consts.get(&path.name)
    } else {
        None
    }
}

/// The own width and own type.
#[cycle(constants)]
pub fn own(consts: &Consts, expr: &Expr, joined: bool) -> Result<Own, ConstError>
    ensures { Wherever (names_of consts.now) (λ here. IsOwn here.early (walk here.names expr.now) joined result) }
{
    match expr {
        Expr::Lit(literal) => literal_own(literal, joined),
        Expr::Name(path, selects) => match constant(consts, path) {
            None => Err(ConstError::NoValue(path.place)),
            Some(constant) => own_pick(consts, path, &constant, selects.as_slice()),
        },
        Expr::Un(op, a) => unary_own(*op, own(consts, a.get(), false)),
        Expr::Bin(op, a, b) => {
            let left = own(consts, a.get(), false);
            binary_own(*op, left, own(consts, b.get(), false))
        }
        Expr::Div(a, b) => {
            let left = own(consts, a.get(), false);
            greater_own(left, own(consts, b.get(), false))
        }
        Expr::Rem(a, b) => {
            let left = own(consts, a.get(), false);
            greater_own(left, own(consts, b.get(), false))
        }
        Expr::Cond(c, a, b) => {
            let test = own(consts, c.get(), false);
            let left = own(consts, a.get(), false);
            chosen_own(test, left, own(consts, b.get(), false))
        }
        Expr::Cat(parts) => joined_own(place_of(consts, expr), widths(consts, parts.as_slice())),
        Expr::Rep(count, parts) => {
            let place = place_of(consts, expr);
            let copies = full(consts, count);
            repeated_own(place, copies, widths(consts, parts.as_slice()))
        }
        Expr::Cast(signed, a) => cast_own(*signed, own(consts, a.get(), false)),
    }
}

/// The widths of operands together.
#[cycle(constants)]
fn widths(consts: &Consts, exprs: &[Expr]) -> Result<u128, ConstError>
    ensures { Wherever (names_of consts.now) (λ here. AreWidths here.early (map (walk here.names) exprs.now) result) }
{
    let mut total = 0u128;
    for expr in exprs {
        match own(consts, expr, true) {
            Err(error) => return Err(error),
            Ok(own) => total += own.width as u128,
        }
    }
    Ok(total)
}

/// The own width and own type of a constant with selects.
#[cycle(constants)]
fn own_pick(
    consts: &Consts,
    path: &Path,
    constant: &Const,
    selects: &[Select],
) -> Result<Own, ConstError>
    ensures { Wherever (names_of consts.now) (λ here.
        IsOwnPick here.early here.names path.now constant.now (map (walk_select here.names) selects.now) result) }
{
    if selects.len() == 0 {
        return Ok(whole_own(*constant));
    }
    if selects.len() != 1 {
        return Err(ConstError::Range(path.place));
    }
    match &selects[0] {
        Select::Bit(a) => bit_own(own(consts, a.get(), false)),
        Select::Part(a, b) => {
            let left = full(consts, a);
            let right = full(consts, b);
            part_own(constant, path.place, left, right)
        }
        Select::Up(a, b) => {
            let from = own(consts, a.get(), false);
            run_own(path.place, from, full(consts, b))
        }
        Select::Down(a, b) => {
            let from = own(consts, a.get(), false);
            run_own(path.place, from, full(consts, b))
        }
    }
}

/// The value at what reaches it. Of two operands at one width the greater is evaluated once, so the time is at most quadratic.
#[cycle(constants)]
pub fn value(consts: &Consts, expr: &Expr, joined: bool, reach: Reach) -> Result<Full, ConstError>
    requires { reach.least ≤ 128 }
    ensures { Wherever (names_of consts.now) (λ here. IsReached here.early (walk here.names expr.now) joined reach result) }
{
    match expr {
        Expr::Lit(literal) => placed(reach, literal_full(literal, joined)),
        Expr::Name(path, selects) => match constant(consts, path) {
            None => Err(ConstError::NoValue(path.place)),
            Some(constant) => placed(
                reach,
                value_pick(consts, path, &constant, selects.as_slice()),
            ),
        },
        Expr::Un(op, a) => {
            if op.keeps_width() {
                unary_kept(*op, value(consts, a.get(), false, reach))
            } else {
                let part = full(consts, a);
                placed(reach, unary_bit(*op, part))
            }
        }
        Expr::Bin(op, a, b) => binary(consts, *op, a, b, reach),
        Expr::Div(a, b) => divided(place_of(consts, b.get()), pair(consts, a, b, reach)),
        Expr::Rem(a, b) => remains(place_of(consts, b.get()), pair(consts, a, b, reach)),
        Expr::Cond(c, a, b) => chosen(full(consts, c), pair(consts, a, b, reach)),
        Expr::Cat(parts) => {
            let place = place_of(consts, expr);
            let word = values(consts, parts.as_slice(), place);
            placed(reach, joined_full(word))
        }
        Expr::Rep(count, parts) => {
            let place = place_of(consts, expr);
            let copies = full(consts, count);
            let word = values(consts, parts.as_slice(), place);
            placed(reach, repeated_full(place, copies, word))
        }
        Expr::Cast(signed, a) => placed(reach, cast_full(*signed, full(consts, a))),
    }
}

/// The value of two operands under an operator, at what reaches it.
#[cycle(constants)]
fn binary(
    consts: &Consts,
    op: Op,
    a: &Boxed<Expr>,
    b: &Boxed<Expr>,
    reach: Reach,
) -> Result<Full, ConstError>
    requires { reach.least ≤ 128 }
    ensures { Wherever (names_of consts.now) (λ here. (joined : Bool) →
        IsReached here.early (walk_step here.names (Expr-F.Bin op (walk here.names a.now) (walk here.names b.now))) joined reach result) }
{
    if op.is_apart() {
        let right = full(consts, b);
        if op.keeps_width() {
            shifted(op, value(consts, a.get(), false, reach), right)
        } else {
            let left = full(consts, a);
            placed(reach, logical(op, left, right))
        }
    } else if op.keeps_width() {
        arithmetic(op, pair(consts, a, b, reach))
    } else {
        placed(reach, compared(op, pair(consts, a, b, alone())))
    }
}

/// An operand at its own width and type.
#[cycle(constants)]
fn full(consts: &Consts, expr: &Boxed<Expr>) -> Result<Full, ConstError>
    ensures { Wherever (names_of consts.now) (λ here. IsFull here.early (walk here.names expr.now) false result) }
{
    value(consts, expr.get(), false, alone())
}

/// Two operands at the greater of their widths and of what reaches them.
#[cycle(constants)]
fn pair(consts: &Consts, a: &Boxed<Expr>, b: &Boxed<Expr>, reach: Reach) -> Result<Pair, ConstError>
    requires { reach.least ≤ 128 }
    ensures { Wherever (names_of consts.now) (λ here. IsPair here.early (walk here.names a.now) (walk here.names b.now) reach result) }
{
    if weight(a.get()) < weight(b.get()) {
        match own(consts, a.get(), false) {
            Err(error) => Err(error),
            Ok(light) => match value(consts, b.get(), false, spread(reach, light)) {
                Err(error) => Err(error),
                Ok(right) => {
                    let (reach, right) = held(right);
                    paired(value(consts, a.get(), false, reach), Ok(right))
                }
            },
        }
    } else {
        match own(consts, b.get(), false) {
            Err(error) => Err(error),
            Ok(light) => match value(consts, a.get(), false, spread(reach, light)) {
                Err(error) => Err(error),
                Ok(left) => {
                    let (reach, left) = held(left);
                    paired(Ok(left), value(consts, b.get(), false, reach))
                }
            },
        }
    }
}

/// The words of operands in one, at most 128 bits.
#[cycle(constants)]
fn values(consts: &Consts, exprs: &[Expr], place: u64) -> Result<Word, ConstError>
    ensures { Wherever (names_of consts.now) (λ here. IsJoint here.early (map (walk here.names) exprs.now) place result) }
{
    let mut joint = None;
    for expr in exprs {
        let operand = value(consts, expr, true, alone());
        match appended(place, joint, operand) {
            Err(error) => return Err(error),
            Ok(word) => joint = Some(word),
        }
    }
    match joint {
        None => Err(ConstError::Range(place)),
        Some(word) => Ok(word),
    }
}

/// The value of a constant with selects.
#[cycle(constants)]
fn value_pick(
    consts: &Consts,
    path: &Path,
    constant: &Const,
    selects: &[Select],
) -> Result<Full, ConstError>
    ensures { Wherever (names_of consts.now) (λ here.
        IsFullPick here.early here.names path.now constant.now (map (walk_select here.names) selects.now) result) }
{
    if selects.len() == 0 {
        return Ok(whole_full(*constant));
    }
    if selects.len() != 1 {
        return Err(ConstError::Range(path.place));
    }
    match &selects[0] {
        Select::Bit(a) => bit_full(constant, full(consts, a)),
        Select::Part(a, b) => {
            let left = full(consts, a);
            let right = full(consts, b);
            part_full(constant, path.place, left, right)
        }
        Select::Up(a, b) => {
            let from = full(consts, a);
            let count = full(consts, b);
            up_full(constant, path.place, from, count)
        }
        Select::Down(a, b) => {
            let from = full(consts, a);
            let count = full(consts, b);
            down_full(constant, path.place, from, count)
        }
    }
}
