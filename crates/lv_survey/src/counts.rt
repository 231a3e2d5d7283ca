ghost use Rattle.std.specs.Prelude.{◌≡◌, ◌+◌, ◌∷◌, [], IfOk};
ghost use Rattle.lv_declared.specs.Listing.{declared, all_declared};
ghost use Rattle.lv_symbols.specs.Making.{parameters_in};
ghost use Rattle.lv_survey.specs.Counts.{AreEntryCounts};

use lv_bits::NoMemory;
use lv_declared::{Declaration, Thing};
use std::alloc::Global;

/// One more for a parameter.
fn count_more(count: usize, declaration: &Declaration) -> Result<usize, NoMemory>
    ensures { IfOk result (λ n. n ≡ count + parameters_in (declared declaration.now ∷ [])) }
{
    match declaration.thing {
        Thing::Parameter(_, _, _, _) => match count.checked_add(1) {
            None => Err(NoMemory),
            Some(more) => Ok(more),
        },
        _ => Ok(count),
    }
}

/// How many of the entries of a scope come first where so many of its declarations stand before, for each number of them: those before its
/// parameters, and one for each parameter before.
pub fn entry_counts(
    alloc: Global,
    declarations: &[Declaration],
    base: usize,
) -> Result<Vec<usize>, NoMemory>
    ensures { IfOk result (λ v. AreEntryCounts base (all_declared declarations.now) v.items) }
{
    let mut counts = Vec::new(alloc);
    let mut count = base;
    counts.push(count)?;
    for declaration in declarations {
        match count_more(count, declaration) {
            Err(_) => return Err(NoMemory),
            Ok(more) => count = more,
        }
        counts.push(count)?;
    }
    Ok(counts)
}
