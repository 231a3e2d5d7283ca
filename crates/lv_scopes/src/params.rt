ghost use Rattle.std.specs.Prelude.{◌≡◌, ◌++◌, List, Bool, OnOk, OnErr, IfErr};
ghost use Rattle.lv_source.specs.Declarations.{of_params};
ghost use Rattle.lv_source.specs.Scopes.{with_parameters};
ghost use Rattle.lv_const.specs.declared.consts.Entry.{Entry};
ghost use Rattle.lv_const.specs.Constants.{names_of};
ghost use Rattle.lv_scopes.specs.Params.{params_set, AreSound, IsUnsetIn};

use crate::setting::{ParameterError, set_own};
use lv_ast::Params;
use lv_const::Consts;

/// Adds parameters that are declared together, each with its own value, which is read wherever the constants so far are those that are
/// declared before. After an error these are unchanged; `Const` is a range that is not allowed, told at a name, or a fault of a node.
pub fn set_params(consts: &mut Consts, params: &Params) -> Result<(), ParameterError>
    ensures added { OnOk result ((es : List Entry) × (consts.new ≡ consts.old ++ es)) }
    ensures named { OnOk result ((local : Bool) → names_of consts.new ≡ params_set local (names_of consts.old) params.now) }
    ensures sound { OnOk result (AreSound (names_of consts.old) params.now) }
    ensures wrong { IfErr result (IsUnsetIn (names_of consts.old) params.now) }
    ensures kept { OnErr result (consts.new ≡ consts.old) }
{
    let len = consts.len();
    for setting in params.list.as_slice() {
        match set_own(
            consts,
            &setting.name,
            params.signed,
            &params.range,
            setting.value.get(),
        ) {
            Ok(()) => {}
            Err(error) => {
                consts.cut(len);
                return Err(error);
            }
        }
    }
    Ok(())
}
