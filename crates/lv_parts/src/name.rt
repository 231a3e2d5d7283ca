ghost use Rattle.std.specs.Prelude.{◌≡◌, IfOk};
ghost use Rattle.lv_ast.specs.Names.{alone};
ghost use Rattle.lv_flat.specs.Signals.{declared_all};
ghost use Rattle.lv_resolve.specs.Forms.{Anywhere};
ghost use Rattle.lv_parts.specs.Blocks.{EdgeAnswer};

use crate::error::PartsError;
use lv_ast::{Ident, Path};
use lv_bits::{NoMemory, Text};
use lv_faults::Fault;
use lv_flat::FlatName;
use lv_resolve::{Bindings, Place};
use sqlite_items::Items;
use std::alloc::Global;

/// What a name without steps is bound to.
pub fn number_of<B: Bindings>(
    alloc: Global,
    bindings: &B,
    name: &Text,
) -> Result<Option<u64>, NoMemory>
    ensures { IfOk result (λ o. o ≡ B.numbers bindings.now (alone name.now)) }
{
    let path = Path {
        steps: Items::new(alloc),
        name: name.copy(alloc)?,
        place: 0,
    };
    Ok(bindings.signal(&path))
}

/// The name behind `posedge`. `UnknownName` where it is neither a signal nor a clock.
pub fn edge<B: Bindings>(
    alloc: Global,
    place: &Place<B>,
    clock: &Ident,
) -> Result<FlatName, PartsError>
    ensures { Anywhere (declared_all place.now.signals.now) (B.numbers place.now.bindings.now) place.now.all.now place.now.early.now (λ here.
        EdgeAnswer (declared_all place.now.signals.now) here clock.now result) }
{
    match number_of(alloc, place.bindings, &clock.name) {
        Err(_) => Err(PartsError::NoMemory),
        Ok(None) => Err(PartsError::Fault(Fault::UnknownName(clock.place))),
        Ok(Some(signal)) => Ok(FlatName {
            signal,
            place: clock.place,
        }),
    }
}
