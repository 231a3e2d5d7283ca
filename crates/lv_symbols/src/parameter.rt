ghost use Rattle.std.specs.Prelude.{◌≡◌, None, Some, if◌then◌else◌, OnOk, OnErr, IfErr};
ghost use Rattle.lv_symbols.specs.Giving.{value_for};
ghost use Rattle.lv_symbols.specs.Answers.{IsSet, IsNotSet};

use crate::givens::Givens;
use crate::symbol::SymbolError;
use lv_ast::{Expr, Ident, Range};
use lv_const::Consts;
use lv_scopes::{ParameterError, parameter_of, set_given, set_own};

/// A parameter with the value that an instance gives it; its own has no fault either.
fn given_parameter(
    consts: &mut Consts,
    there: &Consts,
    name: &Ident,
    signed: bool,
    range: &Option<Range>,
    own: &Expr,
    value: &Expr,
) -> Result<(), SymbolError>
    ensures right { OnOk result (IsSet consts.old there.now consts.new name.now signed range.now own.now (Some value.now)) }
    ensures wrong { IfErr result (IsNotSet consts.old there.now range.now own.now (Some value.now) name.now.place) }
    ensures kept { OnErr result (consts.new ≡ consts.old) }
{
    match parameter_of(consts, consts, signed, range, own, name.place) {
        Err(error) => Err(SymbolError::Own(error)),
        Ok(_) => match set_given(consts, there, name, signed, range, value) {
            Ok(()) => Ok(()),
            Err(ParameterError::Const(error)) => Err(SymbolError::Given(error)),
            Err(ParameterError::NoMemory) => Err(SymbolError::NoMemory),
        },
    }
}

/// A parameter with its own value.
fn own_parameter(
    consts: &mut Consts,
    there: &Consts,
    name: &Ident,
    signed: bool,
    range: &Option<Range>,
    value: &Expr,
) -> Result<(), SymbolError>
    ensures right { OnOk result (IsSet consts.old there.now consts.new name.now signed range.now value.now None) }
    ensures wrong { IfErr result (IsNotSet consts.old there.now range.now value.now None name.now.place) }
    ensures kept { OnErr result (consts.new ≡ consts.old) }
{
    match set_own(consts, name, signed, range, value) {
        Ok(()) => Ok(()),
        Err(ParameterError::Const(error)) => Err(SymbolError::Own(error)),
        Err(ParameterError::NoMemory) => Err(SymbolError::NoMemory),
    }
}

/// A parameter; the value that an instance gives counts where it is not local.
pub fn parameter(
    consts: &mut Consts,
    there: &Consts,
    givens: &Givens,
    name: &Ident,
    local: bool,
    signed: bool,
    range: &Option<Range>,
    value: &Expr,
) -> Result<(), SymbolError>
    ensures right { OnOk result (IsSet consts.old there.now consts.new name.now signed range.now value.now
        (if local then None else value_for givens.now name.now.name)) }
    ensures wrong { IfErr result (IsNotSet consts.old there.now range.now value.now (if local then None else value_for givens.now name.now.name)
        name.now.place) }
    ensures kept { OnErr result (consts.new ≡ consts.old) }
{
    if local {
        return own_parameter(consts, there, name, signed, range, value);
    }
    match givens.get(name) {
        None => own_parameter(consts, there, name, signed, range, value),
        Some(given) => given_parameter(consts, there, name, signed, range, value, given),
    }
}
