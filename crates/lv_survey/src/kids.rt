ghost use Rattle.std.specs.Prelude.{◌≡◌, ◌++◌, ◌≤◌, map, length, OnOk, IfOk, IfErr};
ghost use Rattle.lv_flat.specs.Signals.{declared_all};
ghost use Rattle.lv_scopes.specs.Modules.{AreModules};
ghost use Rattle.lv_children.specs.Children.{all_seen};
ghost use Rattle.lv_declared.specs.Listing.{counted};
ghost use Rattle.lv_survey.specs.Scenes.{scene, AtItem};
ghost use Rattle.lv_survey.specs.Surveys.{all_below, put_below};
ghost use Rattle.lv_survey.specs.Items.{AddsKids, AreKids, AreNoKids};
ghost use Rattle.lv_survey.specs.Errors.{spec_told};

use crate::below::Below;
use crate::error::{SurveyError, told};
use lv_ast::{Item, Module};
use lv_bits::{NoMemory, Text};
use lv_children::{Child, ChildError, add_instances, add_turns};
use lv_const::Consts;
use lv_declared::Counted;
use lv_flat::Signal;
use lv_resolve::Indices;
use lv_scopes::Modules;
use std::alloc::Global;

/// Adds what stands below a scope by an item.
fn add_kids<'a, B: Indices>(
    alloc: Global,
    table: &Modules,
    modules: &'a [Module],
    around: &[&Text],
    signals: &[Signal],
    bindings: &B,
    all: &mut Consts,
    early: &mut Consts,
    item: &Counted<'a>,
    most: usize,
    into: &mut Vec<Child<'a>>,
) -> Result<(), ChildError>
    requires modules { AreModules table.now modules.now }
    requires most { most ≤ 4096 }
    ensures all { all.new ≡ all.old }
    ensures early { early.new ≡ early.old }
    ensures right { OnOk result (AtItem (scene modules.now around.now (declared_all signals.now) (B.numbers bindings.now) (B.indices bindings.now) all.old) early.old
        item.now.before (λ source s. AddsKids source s (counted item.now) into.old.items into.new.items)) }
    ensures wrong { IfErr result (λ y. AtItem (scene modules.now around.now (declared_all signals.now) (B.numbers bindings.now) (B.indices bindings.now) all.old) early.old
        item.now.before (λ source s. AreNoKids most source s (counted item.now) (spec_told y))) }
{
    match item.item {
        Item::Instance(kind, settings, insts) => add_instances(
            alloc,
            table,
            modules,
            around,
            kind,
            settings,
            insts.as_slice(),
            into,
        ),
        Item::Loop(index, start, test, again, next, label, items) => add_turns(
            alloc,
            signals,
            bindings,
            all,
            early,
            index,
            start.get(),
            test.get(),
            again,
            next.get(),
            label,
            items,
            most,
            into,
        ),
        _ => Ok(()),
    }
}

/// What stands below a scope by an item; `Instances` where there are more than `most`.
pub(crate) fn kids<'a, B: Indices>(
    alloc: Global,
    table: &Modules,
    modules: &'a [Module],
    around: &[&Text],
    signals: &[Signal],
    bindings: &B,
    all: &mut Consts,
    early: &mut Consts,
    item: &Counted<'a>,
    most: usize,
) -> Result<Vec<Child<'a>>, SurveyError>
    requires modules { AreModules table.now modules.now }
    requires most { most ≤ 4096 }
    ensures all { all.new ≡ all.old }
    ensures early { early.new ≡ early.old }
    ensures right { IfOk result (λ v. AtItem (scene modules.now around.now (declared_all signals.now) (B.numbers bindings.now) (B.indices bindings.now) all.old) early.old
        item.now.before (λ source s. AreKids source s (counted item.now) v.items)) }
    ensures few { IfOk result (λ v. length v.items ≤ most) }
    ensures wrong { IfErr result (λ y. AtItem (scene modules.now around.now (declared_all signals.now) (B.numbers bindings.now) (B.indices bindings.now) all.old) early.old
        item.now.before (λ source s. AreNoKids most source s (counted item.now) y)) }
{
    let mut found = Vec::new(alloc);
    match add_kids(
        alloc, table, modules, around, signals, bindings, all, early, item, most, &mut found,
    ) {
        Err(error) => Err(told(error)),
        Ok(()) => {
            if found.len() > most {
                Err(SurveyError::Instances)
            } else {
                Ok(found)
            }
        }
    }
}

/// Adds these below the scope with this number.
pub(crate) fn put_all<'a>(
    number: usize,
    before: usize,
    kids: &[Child<'a>],
    into: &mut Vec<Below<'a>>,
) -> Result<(), NoMemory>
    ensures { OnOk result (all_below into.new.items ≡ all_below into.old.items ++ map (put_below number before) (all_seen kids.now)) }
{
    for child in kids {
        into.push(Below {
            parent: number,
            before,
            child: *child,
        })?;
    }
    Ok(())
}
