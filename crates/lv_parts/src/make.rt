ghost use Rattle.std.specs.Prelude.{◌≡◌, [], IfOk, IfErr};
ghost use Rattle.lv_flat.specs.declared.expr.FlatExpr.{FlatExpr};
ghost use Rattle.lv_flat.specs.declared.stmt.FlatTarget.TheVariants as t;
ghost use Rattle.lv_parts.specs.Made.{IsPut};
ghost use Rattle.lv_parts.specs.declared.error.PartsError.TheVariants.{NoMemory};

use crate::error::PartsError;
use lv_bits::Text;
use lv_flat::{FlatBody, FlatName, FlatPart, FlatTarget};
use lv_held::Held;
use sqlite_items::Items;
use std::alloc::Global;

/// A part of the scope with this path.
pub fn made(
    alloc: Global,
    path: &Text,
    place: u64,
    clocks: Items<u64>,
    body: FlatBody,
) -> Result<FlatPart, PartsError>
    ensures ok { IfOk result (λ p. p ≡ record { path = path.now; place = place; clocks = clocks; body = body }) }
    ensures err { IfErr result (λ e. e ≡ NoMemory) }
{
    match path.copy(alloc) {
        Err(_) => Err(PartsError::NoMemory),
        Ok(path) => Ok(FlatPart {
            path,
            place,
            clocks,
            body,
        }),
    }
}

/// The whole signal, as a target.
pub fn whole_target(alloc: Global, signal: u64, place: u64) -> Held<FlatTarget>
    ensures { result ≡ t.Signal (record { signal = signal; place = place }) [] }
{
    let name = FlatName { signal, place };
    Held::new(FlatTarget::Signal(name, Items::new(alloc)))
}

/// One more part.
pub fn put(into: &mut Vec<FlatPart>, made: Result<FlatPart, PartsError>) -> Result<(), PartsError>
    ensures { IsPut made into.old.items into.new.items result }
{
    match made {
        Err(error) => Err(error),
        Ok(part) => match into.push(part) {
            Err(_) => Err(PartsError::NoMemory),
            Ok(()) => Ok(()),
        },
    }
}
