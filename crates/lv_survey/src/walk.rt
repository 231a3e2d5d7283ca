ghost use Rattle.std.specs.Prelude.{◌≡◌, ◌≤◌, length, take, OnOk, IfOk, IfErr};
ghost use Rattle.lv_flat.specs.Signals.{declared_all};
ghost use Rattle.lv_scopes.specs.Modules.{AreModules};
ghost use Rattle.lv_survey.specs.Counts.{AreCounts};
ghost use Rattle.lv_survey.specs.Scenes.{scene, InScope};
ghost use Rattle.lv_survey.specs.Surveys.{IsListed, IsSurveyed, IsRefused};

use crate::error::SurveyError;
use crate::found::Survey;
use crate::item::survey_item;
use lv_ast::Module;
use lv_bits::{NoMemory, Text};
use lv_const::{Consts, Entry};
use lv_declared::Counted;
use lv_flat::Signal;
use lv_resolve::Indices;
use lv_scopes::Modules;
use std::alloc::Global;

/// The first `count` entries, of which the first ones are there.
fn extend(entries: &[Entry], count: usize, early: &mut Consts) -> Result<(), NoMemory>
    requires first { early.old ≡ take (length early.old) entries.now }
    requires less { length early.old ≤ count }
    requires few { count ≤ length entries.now }
    ensures { OnOk result (early.new ≡ take count entries.now) }
{
    let start = early.len();
    for at in start..count {
        let entry = &entries[at];
        early.put(&entry.name, entry.value)?;
    }
    Ok(())
}

/// What the items of a scope come to, where it has this number, `turns` and `nodes` are left, and `room` scopes may still come. `all` are
/// the constants that can be read there, and `counts` how many of `entries` are declared where so many declarations stand before. `Fault`
/// is one of an item; `Turns`, `Nodes` and `Instances` where there are more, told before the rest is looked at. The constants are unchanged.
pub fn survey<'a, B: Indices>(
    alloc: Global,
    table: &Modules,
    modules: &'a [Module],
    around: &[&Text],
    signals: &[Signal],
    bindings: &B,
    all: &mut Consts,
    entries: &[Entry],
    counts: &[usize],
    items: &[Counted<'a>],
    number: usize,
    turns: u64,
    nodes: u64,
    room: usize,
) -> Result<Survey<'a>, SurveyError>
    requires modules { AreModules table.now modules.now }
    requires turns { turns ≤ 1000000 }
    requires room { room ≤ 4096 }
    requires counts { AreCounts entries.now counts.now items.now }
    ensures all { all.new ≡ all.old }
    ensures list { IfOk result (IsListed number room (length items.now) turns nodes) }
    ensures right { IfOk result (λ r. InScope (scene modules.now around.now (declared_all signals.now) (B.numbers bindings.now) (B.indices bindings.now)
        all.old) entries.now counts.now items.now (λ source s. IsSurveyed turns nodes source s r)) }
    ensures wrong { IfErr result (λ y. InScope (scene modules.now around.now (declared_all signals.now) (B.numbers bindings.now) (B.indices bindings.now)
        all.old) entries.now counts.now items.now (λ source s. IsRefused room turns nodes source s y)) }
{
    let mut early = Consts::new(alloc);
    let mut found = Survey {
        children: Vec::new(alloc),
        ends: Vec::new(alloc),
        turns,
        nodes,
    };
    for item in items {
        if extend(entries, counts[item.before], &mut early).is_err() {
            return Err(SurveyError::NoMemory);
        }
        if let Err(error) = survey_item(
            alloc, table, modules, around, signals, bindings, all, &mut early, item, number, room,
            &mut found,
        ) {
            return Err(error);
        }
    }
    Ok(found)
}
