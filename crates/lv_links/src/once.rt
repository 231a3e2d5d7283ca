ghost use Rattle.std.specs.Prelude.{◌≡◌, [], Contains, IfOk, MatchOption};
ghost use Rattle.lv_source.specs.Names.{Names};
ghost use Rattle.lv_source.specs.ScopeRules.{twice_linked};
ghost use Rattle.lv_links.specs.Linking.{all_links};

use crate::linked::Linked;
use lv_bits::NoMemory;
use lv_scopes::NameTable;
use std::alloc::Global;

/// The place of a connection of a port that an earlier one has.
pub fn again(alloc: Global, links: &[Linked]) -> Result<Option<u64>, NoMemory>
    ensures { IfOk result (λ found. (names : Names) → MatchOption found (twice_linked names (all_links links.now) ≡ [])
        (Contains (twice_linked names (all_links links.now)))) }
{
    let mut seen = NameTable::new(alloc);
    for link in links {
        let (_, added) = seen.add(alloc, link.port.name.bytes())?;
        if !added {
            return Ok(Some(link.conn.place));
        }
    }
    Ok(None)
}
