ghost use Rattle.std.specs.Prelude.{◌≡◌, ◌≤◌, OnOk, IfOk, IfErr};
ghost use Rattle.lv_flat.specs.Signals.{declared_all};
ghost use Rattle.lv_scopes.specs.Modules.{AreModules};
ghost use Rattle.lv_resolve.specs.Indices.{Throughout};
ghost use Rattle.lv_declared.specs.Listing.{counted};
ghost use Rattle.lv_survey.specs.Scenes.{scene, AtItem};
ghost use Rattle.lv_survey.specs.Items.{SizeAnswer, Puts, Grows, IsGrown, IsNotGrown};
ghost use Rattle.lv_survey.specs.declared.error.SurveyError.TheVariants as e;

use crate::error::{SurveyError, too_much};
use crate::found::Survey;
use crate::kids::{kids, put_all};
use lv_ast::Module;
use lv_bits::Text;
use lv_children::Child;
use lv_const::Consts;
use lv_declared::Counted;
use lv_flat::Signal;
use lv_resolve::Indices;
use lv_scopes::Modules;
use lv_sizes::{Size, item_size};
use std::alloc::Global;

/// What is left of turns and nodes after an item.
fn size_left<B: Indices>(
    alloc: Global,
    signals: &[Signal],
    bindings: &B,
    all: &mut Consts,
    early: &mut Consts,
    item: &Counted,
    turns: u64,
    nodes: u64,
) -> Result<Size, SurveyError>
    requires { turns ≤ 1000000 }
    ensures all { all.new ≡ all.old }
    ensures early { early.new ≡ early.old }
    ensures turns { IfOk result (λ z. z.turns ≤ turns) }
    ensures nodes { IfOk result (λ z. z.nodes ≤ nodes) }
    ensures right { Throughout (declared_all signals.now) (B.numbers bindings.now) (B.indices bindings.now) all.old early.old (λ here.
        SizeAnswer here (counted item.now) turns nodes result) }
{
    match item_size(
        alloc, signals, bindings, all, early, item.item, turns, nodes,
    ) {
        Err(error) => Err(too_much(error)),
        Ok(size) => Ok(Size {
            turns: turns.saturating_sub(size.turns),
            nodes: nodes.saturating_sub(size.nodes),
        }),
    }
}

/// Adds what stands below a scope by an item, with an end for it.
fn put_item<'a>(
    number: usize,
    before: usize,
    kids: &[Child<'a>],
    left: Size,
    found: &mut Survey<'a>,
) -> Result<(), SurveyError>
    ensures right { OnOk result (Puts number before kids.now left found.old found.new) }
    ensures wrong { IfErr result (λ y. y ≡ e.NoMemory) }
{
    if put_all(number, before, kids, &mut found.children).is_err() {
        return Err(SurveyError::NoMemory);
    }
    if found.ends.push(found.children.len()).is_err() {
        return Err(SurveyError::NoMemory);
    }
    found.turns = left.turns;
    found.nodes = left.nodes;
    Ok(())
}

/// Adds what an item comes to, where its scopes stand below the scope with this number and no more than `room` may come in all.
pub(crate) fn survey_item<'a, B: Indices>(
    alloc: Global,
    table: &Modules,
    modules: &'a [Module],
    around: &[&Text],
    signals: &[Signal],
    bindings: &B,
    all: &mut Consts,
    early: &mut Consts,
    item: &Counted<'a>,
    number: usize,
    room: usize,
    found: &mut Survey<'a>,
) -> Result<(), SurveyError>
    requires modules { AreModules table.now modules.now }
    requires turns { found.old.turns ≤ 1000000 }
    requires room { room ≤ 4096 }
    ensures all { all.new ≡ all.old }
    ensures early { early.new ≡ early.old }
    ensures list { OnOk result (Grows number room found.old found.new) }
    ensures right { OnOk result (AtItem (scene modules.now around.now (declared_all signals.now) (B.numbers bindings.now) (B.indices bindings.now) all.old)
        early.old item.now.before (λ source s. IsGrown source s (counted item.now) found.old found.new)) }
    ensures wrong { IfErr result (λ y. AtItem (scene modules.now around.now (declared_all signals.now) (B.numbers bindings.now) (B.indices bindings.now)
        all.old) early.old item.now.before (λ source s. IsNotGrown room source s (counted item.now) found.old y)) }
{
    match size_left(
        alloc,
        signals,
        bindings,
        all,
        early,
        item,
        found.turns,
        found.nodes,
    ) {
        Err(error) => Err(error),
        Ok(left) => {
            let most = room.saturating_sub(found.children.len());
            match kids(
                alloc, table, modules, around, signals, bindings, all, early, item, most,
            ) {
                Err(error) => Err(error),
                Ok(kids) => put_item(number, item.before, kids.as_slice(), left, found),
            }
        }
    }
}
