ghost use Rattle.std.specs.Prelude.{◌≡◌, List, ◌∷◌, [], ◌++◌, OnOk, OnErr};
ghost use Rattle.lv_source.specs.Effect.{with_index};
ghost use Rattle.lv_const.specs.Constants.{names_of};
ghost use Rattle.lv_const.specs.declared.consts.Entry.{Entry};
ghost use Rattle.lv_headers.specs.Turns.{Enters};

use lv_bits::{NoMemory, Text};
use lv_const::Consts;
use lv_scopes::set_index;

/// Adds the index of a loop to the constants of a place, with its value in a turn: where the name is an index outside of its own loop,
/// the constants afterwards are those of the turn. One entry is added to each list, so that `cut` to the lengths before leaves the turn.
/// After `NoMemory` the lists are unchanged.
pub fn set_turn(
    all: &mut Consts,
    early: &mut Consts,
    index: &Text,
    value: u32,
) -> Result<(), NoMemory>
    ensures all_added { OnOk result ((e : Entry) × (all.new ≡ all.old ++ e ∷ [])) }
    ensures early_added { OnOk result ((e : Entry) × (early.new ≡ early.old ++ e ∷ [])) }
    ensures all_named { OnOk result (names_of all.new ≡ with_index (names_of all.old) index.now value) }
    ensures early_named { OnOk result (names_of early.new ≡ with_index (names_of early.old) index.now value) }
    ensures enters { OnOk result (Enters all.old early.old index.now value all.new early.new) }
    ensures all_kept { OnErr result (all.new ≡ all.old) }
    ensures early_kept { OnErr result (early.new ≡ early.old) }
{
    let len = all.len();
    if set_index(all, index, value).is_err() {
        return Err(NoMemory);
    }
    if set_index(early, index, value).is_err() {
        all.cut(len);
        return Err(NoMemory);
    }
    Ok(())
}
