ghost use Rattle.std.specs.Prelude.{flat_map, IfOk};
ghost use Rattle.lv_source.specs.Names.{Names};
ghost use Rattle.lv_source.specs.Scopes.{override_by};
ghost use Rattle.lv_symbols.specs.Giving.{AreOverrides};
ghost use Rattle.lv_links.specs.Linking.{all_links};

use crate::linked::Linked;
use lv_bits::NoMemory;
use lv_symbols::{Given, Givens};
use std::alloc::Global;

/// The settings of an instance by the names of the parameters (IEEE 1364-2005, section 12.2); a setting without an expression gives nothing.
pub fn givens_of<'a>(alloc: Global, settings: &[Linked<'a>]) -> Result<Givens<'a>, NoMemory>
    ensures { IfOk result (λ g. (there : Names) → AreOverrides there g (flat_map (override_by there) (all_links settings.now))) }
{
    let mut list = Vec::new(alloc);
    for setting in settings {
        if let Some(value) = &setting.conn.value {
            list.push(Given {
                name: setting.port,
                value: value.get(),
            })?;
        }
    }
    Givens::new(alloc, &list)
}
