ghost use Rattle.std.specs.Prelude.{◌≡◌, ◌∷◌, [], ◌++◌, Some, OnOk, OnErr, IfErr};
ghost use Rattle.lv_source.specs.Names.{with_name};
ghost use Rattle.lv_source.specs.Scopes.{parameter};
ghost use Rattle.lv_const.specs.Constants.{names_of, constant_of};
ghost use Rattle.lv_const.specs.Wherever.{Wherever};
ghost use Rattle.lv_const.specs.declared.consts.Entry.{Entry};
ghost use Rattle.lv_scopes.specs.Parameters.{IsSound, IsUnset};

use crate::parameter::parameter_of;
use lv_ast::{Expr, Ident, Range};
use lv_bits::{NoMemory, Text};
use lv_const::{Const, ConstError, Consts};

/// Why a parameter is not set.
#[derive(Clone, Copy, Debug, PartialEq, Eq)]
pub enum ParameterError {
    /// A range that is not allowed, or a fault of a node of the range or of the value.
    Const(ConstError),
    NoMemory,
}

/// Adds a constant.
fn put_constant(consts: &mut Consts, name: &Text, constant: Const) -> Result<(), NoMemory>
    ensures added { OnOk result ((e : Entry) × (consts.new ≡ consts.old ++ e ∷ [])) }
    ensures named { OnOk result (names_of consts.new ≡ with_name (names_of consts.old) name.now (Some (constant_of name.now constant))) }
    ensures kept { OnErr result (consts.new ≡ consts.old) }
{
    consts.put(name, Some(constant))
}

/// Adds the parameter that an instance gives a value: this is read wherever `there` are the constants that are declared before, the range
/// wherever the constants so far are. After an error these are unchanged; `Const` is a range that is not allowed, told at the name, or
/// a fault of a node.
pub fn set_given(
    consts: &mut Consts,
    there: &Consts,
    name: &Ident,
    signed: bool,
    range: &Option<Range>,
    value: &Expr,
) -> Result<(), ParameterError>
    ensures added { OnOk result ((e : Entry) × (consts.new ≡ consts.old ++ e ∷ [])) }
    ensures named { OnOk result (Wherever (names_of consts.old) (λ around. Wherever (names_of there.now) (λ outside. names_of consts.new ≡
        with_name (names_of consts.old) name.now.name (Some (parameter around.names name.now signed range.now outside.names value.now))))) }
    ensures sound { OnOk result (Wherever (names_of consts.old) (λ around. Wherever (names_of there.now) (λ outside.
        IsSound around outside range.now value.now))) }
    ensures wrong { IfErr result (λ y. Wherever (names_of consts.old) (λ around. Wherever (names_of there.now) (λ outside.
        IsUnset around outside range.now value.now name.now.place y))) }
    ensures kept { OnErr result (consts.new ≡ consts.old) }
{
    match parameter_of(consts, there, signed, range, value, name.place) {
        Err(error) => Err(ParameterError::Const(error)),
        Ok(constant) => match put_constant(consts, &name.name, constant) {
            Err(_) => Err(ParameterError::NoMemory),
            Ok(()) => Ok(()),
        },
    }
}

/// Adds a parameter with its own value, which is read wherever the constants so far are those that are declared before. After an error
/// these are unchanged; `Const` is a range that is not allowed, told at the name, or a fault of a node.
pub fn set_own(
    consts: &mut Consts,
    name: &Ident,
    signed: bool,
    range: &Option<Range>,
    value: &Expr,
) -> Result<(), ParameterError>
    ensures added { OnOk result ((e : Entry) × (consts.new ≡ consts.old ++ e ∷ [])) }
    ensures named { OnOk result (Wherever (names_of consts.old) (λ here. names_of consts.new ≡
        with_name (names_of consts.old) name.now.name (Some (parameter here.names name.now signed range.now here.names value.now)))) }
    ensures sound { OnOk result (Wherever (names_of consts.old) (λ here. IsSound here here range.now value.now)) }
    ensures wrong { IfErr result (λ y. Wherever (names_of consts.old) (λ here. IsUnset here here range.now value.now name.now.place y)) }
    ensures kept { OnErr result (consts.new ≡ consts.old) }
{
    match parameter_of(consts, consts, signed, range, value, name.place) {
        Err(error) => Err(ParameterError::Const(error)),
        Ok(constant) => match put_constant(consts, &name.name, constant) {
            Err(_) => Err(ParameterError::NoMemory),
            Ok(()) => Ok(()),
        },
    }
}
