ghost use Rattle.std.specs.Prelude.{◌≡◌, ◌≤◌, List, ◌∷◌, [], ◌++◌, Some, OnOk, OnErr};
ghost use Rattle.lv_ast.specs.Names.{Name};
ghost use Rattle.lv_source.specs.Effect.{with_index};
ghost use Rattle.lv_const.specs.Constants.{names_of};
ghost use Rattle.lv_const.specs.Wherever.{Wherever};
ghost use Rattle.lv_const.specs.declared.consts.Entry.{Entry};
ghost use Rattle.lv_scopes.specs.Headers.{IsIndexAnswer, IsZeroAnswer, IsStepAnswer, IsTurnAnswer, IsTurnsAnswer};

use crate::number::number_of;
use lv_ast::Expr;
use lv_bits::{NoMemory, Text, Word};
use lv_const::{Const, ConstError, Consts};
use sqlite_items::Items;
use std::alloc::Global;

/// Why the turns of a loop are not told.
#[derive(Clone, Copy, Debug, PartialEq, Eq)]
pub enum TurnsError {
    /// A fault of a node of the loop's header.
    Const(ConstError),
    /// There are more turns than are allowed.
    Limit,
    NoMemory,
}

/// A number as a loop index keeps it.
fn index_number(consts: &Consts, expr: &Expr) -> Result<u32, ConstError>
    ensures { Wherever (names_of consts.now) (λ here. IsIndexAnswer here expr.now result) }
{
    match number_of(consts, expr, 32) {
        Err(error) => Err(error),
        Ok(number) => Ok((number.word.value() % 4294967296) as u32),
    }
}

/// Whether a test is 0.
fn is_zero(consts: &Consts, expr: &Expr) -> Result<bool, ConstError>
    ensures { Wherever (names_of consts.now) (λ here. IsZeroAnswer here expr.now result) }
{
    match number_of(consts, expr, 0) {
        Err(error) => Err(error),
        Ok(number) => Ok(number.word.value() == 0),
    }
}

/// The next value of the index, where the test is not 0.
fn step(consts: &Consts, test: &Expr, next: &Expr) -> Result<Option<u32>, ConstError>
    ensures { Wherever (names_of consts.now) (λ here. IsStepAnswer here test.now next.now result) }
{
    match is_zero(consts, test) {
        Err(error) => Err(error),
        Ok(true) => Ok(None),
        Ok(false) => match index_number(consts, next) {
            Err(error) => Err(error),
            Ok(number) => Ok(Some(number)),
        },
    }
}

/// The constant that an index with this value stands for.
fn index_const(value: u32) -> Const
    ensures { (es : List Entry) (name : Name) → names_of (es ++ record { name = name; value = Some result } ∷ []) ≡ with_index (names_of es) name value }
{
    Const {
        word: Word::new(32, u128::from(value)),
        signed: true,
        left: 31,
        right: 0,
    }
}

/// Adds the index of a loop with its value, for a turn. After `NoMemory` the constants are unchanged.
pub fn set_index(consts: &mut Consts, index: &Text, value: u32) -> Result<(), NoMemory>
    ensures added { OnOk result ((e : Entry) × (consts.new ≡ consts.old ++ e ∷ [])) }
    ensures named { OnOk result (names_of consts.new ≡ with_index (names_of consts.old) index.now value) }
    ensures kept { OnErr result (consts.new ≡ consts.old) }
{
    let constant = index_const(value);
    consts.put(index, Some(constant))
}

/// The next value of the index, where a turn is made at this one.
fn turn(
    consts: &mut Consts,
    index: &Text,
    test: &Expr,
    next: &Expr,
    value: u32,
) -> Result<Option<u32>, TurnsError>
    ensures same { consts.new ≡ consts.old }
    ensures right { Wherever (with_index (names_of consts.old) index.now value) (λ here. IsTurnAnswer here test.now next.now result) }
{
    let len = consts.len();
    if set_index(consts, index, value).is_err() {
        return Err(TurnsError::NoMemory);
    }
    let answer = step(consts, test, next);
    consts.cut(len);
    match answer {
        Ok(next) => Ok(next),
        Err(error) => Err(TurnsError::Const(error)),
    }
}

/// The values of a loop's index, turn by turn (IEEE 1364-2005, sections 9.6 and 12.4.1): those of the definition, at most `most`,
/// wherever these are the constants that are declared before. `Limit` where there are more, and it ends there, however many these are;
/// any other error but `NoMemory` is a fault of a node of the header. The constants are unchanged.
pub fn turns_of(
    alloc: Global,
    consts: &mut Consts,
    index: &Text,
    start: &Expr,
    test: &Expr,
    next: &Expr,
    most: usize,
) -> Result<Items<u32>, TurnsError>
    requires { most ≤ 1000000 }
    ensures same { consts.new ≡ consts.old }
    ensures right { Wherever (names_of consts.old) (λ here.
        IsTurnsAnswer here index.now start.now test.now next.now most result) }
{
    let mut value = match index_number(consts, start) {
        Ok(value) => value,
        Err(error) => return Err(TurnsError::Const(error)),
    };
    let mut turns = Items::new(alloc);
    for _ in 0..most + 1 {
        match turn(consts, index, test, next, value) {
            Err(error) => return Err(error),
            Ok(None) => return Ok(turns),
            Ok(Some(after)) => {
                match turns.push(value) {
                    Err(_) => return Err(TurnsError::NoMemory),
                    Ok(()) => value = after,
                }
            }
        }
    }
    Err(TurnsError::Limit)
}
