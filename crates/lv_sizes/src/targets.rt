ghost use Rattle.lv_source.specs.Limits.{target_nodes};
ghost use Rattle.lv_sizes.specs.Counts.{Spends, added};

use crate::exprs::spend_selects;
use lv_ast::Target;

/// What is left of `left` after the nodes in a target; nothing where it has more.
#[cycle(targets)]
pub fn spend_target(target: &Target, left: u64) -> Option<u64>
    ensures { Spends left (target_nodes target.now) result }
{
    match target {
        Target::Name(_, selects) => spend_selects(selects.as_slice(), left),
        Target::Cat(parts) => spend_targets(parts.as_slice(), left),
    }
}

#[cycle(targets)]
fn spend_targets(targets: &[Target], left: u64) -> Option<u64>
    ensures { Spends left (added target_nodes targets.now) result }
{
    let mut left = left;
    for target in targets {
        match spend_target(target, left) {
            None => return None,
            Some(rest) => left = rest,
        }
    }
    Some(left)
}
