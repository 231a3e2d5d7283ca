// A place in a scope.
ghost use Rattle.std.specs.Prelude.{◌≡◌, List, IfOk};
ghost use Rattle.lv_source.specs.Views.{View};
ghost use Rattle.lv_source.specs.Parts.{At};
ghost use Rattle.lv_flat.specs.Signals.{Signals};
ghost use Rattle.lv_rules.specs.Rules.{IsToldBy};
ghost use Rattle.lv_legal.specs.Legal.{extent_path, IsSpotOf};

use lv_bits::{NoMemory, Text};
use lv_extents::Extent;
use lv_rules::Told;
use std::alloc::Global;

/// A place of the text, in a scope by its path.
#[derive(Drop)]
pub(crate) struct Spot {
    pub path: Text,
    pub place: u64,
}

fn path_of(alloc: Global, extents: &[Extent], part: usize) -> Result<Text, NoMemory>
    ensures { IfOk result (λ r. r ≡ extent_path extents.now part) }
{
    match extents.get(part) {
        Some(x) => x.path.copy(alloc),
        None => Text::new(alloc, &[]),
    }
}

/// What is told of a part, with the path of its scope.
pub(crate) fn placed(
    alloc: Global,
    extents: &[Extent],
    told: Option<Told>,
) -> Result<Option<Spot>, NoMemory>
    ensures { IfOk result (λ r. (S : Signals) (rule : List View → List At) → IsToldBy S extents.now rule told → IsSpotOf S extents.now rule r) }
{
    match told {
        None => Ok(None),
        Some(t) => {
            let path = path_of(alloc, extents, t.part)?;
            Ok(Some(Spot {
                path,
                place: t.place,
            }))
        }
    }
}
