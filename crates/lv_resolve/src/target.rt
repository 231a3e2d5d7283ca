ghost use Rattle.std.specs.Prelude.{◌≡◌, ◌∷◌, [], map, flat_map, if◌then◌else◌, IfOk, IfErr};
ghost use Rattle.std.specs.List.{list_all};
ghost use Rattle.lv_source.specs.Names.{Names, is_clock_sort};
ghost use Rattle.lv_source.specs.Effect.{pieces};
ghost use Rattle.lv_source.specs.NodeRules.{is_width};
ghost use Rattle.lv_source.specs.Sites.{Role, target_sites, walk, walk_select};
ghost use Rattle.lv_const.specs.Places.{head_of};
ghost use Rattle.lv_flat.specs.Signals.{declared_all, sort_of};
ghost use Rattle.lv_flat.specs.declared.stmt.FlatTarget.TheVariants as t;
ghost use Rattle.lv_resolve.specs.Forms.{Anywhere, has_select_operands};
ghost use Rattle.lv_resolve.specs.Targets.{FixedPair, FixedStep, IndicesAnswer, GoalAnswer, GoalsAnswer, TargetAnswer, has_target_operands};
ghost use Rattle.lv_resolve.specs.TargetJoins.{IsAimed, AreMore, target_role, piece_of, name_sites, site_place};
ghost use Rattle.lv_resolve.specs.declared.error.ResolveError.TheVariants.{NoMemory};

use crate::error::ResolveError;
use crate::expr::picks;
use crate::fixed::fixed;
use crate::goal::{ResolvedTarget, TargetForm, TargetForms};
use crate::naming::{clock_places, signal_head};
use crate::picks::Picks;
use crate::place::{Bindings, Place};
use crate::settle::signal_at;
use lv_ast::{Expr, Path, Select, Target};
use lv_flat::{FlatName, FlatTarget, Sort};
use lv_held::Held;
use sqlite_items::{Boxed, Items};
use std::alloc::Global;

/// The clock names in selects that are read; where all is constant there are none.
fn read_clocks(alloc: Global, clocks: Items<u64>, driven: bool) -> Items<u64>
    ensures { result ≡ (if driven then [] else clocks) }
{
    if driven { Items::new(alloc) } else { clocks }
}

/// A signal or a clock that is written, with its selects.
fn aimed(
    alloc: Global,
    number: u64,
    sort: Sort,
    at: u64,
    picks: Picks,
    driven: bool,
) -> Result<TargetForm, ResolveError>
    ensures ok { IfOk result (λ f. IsAimed driven number (if is_clock_sort (sort_of sort) then at ∷ [] else []) at picks f) }
    ensures err { IfErr result (λ x. x ≡ NoMemory) }
{
    let width = picks.width;
    let (selects, more) = picks.into_parts();
    let more = read_clocks(alloc, more, driven);
    let mut clocks = clock_places(alloc, sort, at)?;
    if clocks.append(more).is_err() {
        return Err(ResolveError::NoMemory);
    }
    let name = FlatName {
        signal: number,
        place: at,
    };
    Ok(TargetForm {
        target: Held::new(FlatTarget::Signal(name, selects)),
        width,
        clocks,
    })
}

/// Two expressions that are constant.
fn fixed_two<B: Bindings>(
    place: &Place<B>,
    a: &Boxed<Expr>,
    b: &Boxed<Expr>,
) -> Result<(), ResolveError>
    ensures { Anywhere (declared_all place.now.signals.now) (B.numbers place.now.bindings.now) place.now.all.now place.now.early.now (λ here.
        FixedPair here (walk here.names a.now) (walk here.names b.now) result) }
{
    match fixed(place, a.get()) {
        Err(error) => Err(error),
        Ok(_) => match fixed(place, b.get()) {
            Err(error) => Err(error),
            Ok(_) => Ok(()),
        },
    }
}

/// A select all of whose expressions are constant.
fn fixed_select<B: Bindings>(place: &Place<B>, select: &Select) -> Result<(), ResolveError>
    ensures { Anywhere (declared_all place.now.signals.now) (B.numbers place.now.bindings.now) place.now.all.now place.now.early.now (λ here.
        FixedStep here (walk_select here.names select.now) result) }
{
    match select {
        Select::Bit(a) => match fixed(place, a.get()) {
            Err(error) => Err(error),
            Ok(_) => Ok(()),
        },
        Select::Part(a, b) => fixed_two(place, a, b),
        Select::Up(a, b) => fixed_two(place, a, b),
        Select::Down(a, b) => fixed_two(place, a, b),
    }
}

/// Selects whose indices are constant, where the target is driven.
fn indices<B: Bindings>(
    place: &Place<B>,
    selects: &[Select],
    driven: bool,
) -> Result<(), ResolveError>
    ensures { Anywhere (declared_all place.now.signals.now) (B.numbers place.now.bindings.now) place.now.all.now place.now.early.now (λ here.
        IndicesAnswer here driven (map (walk_select here.names) selects.now) result) }
{
    if !driven {
        return Ok(());
    }
    for select in selects {
        match fixed_select(place, select) {
            Err(error) => return Err(error),
            Ok(()) => {}
        }
    }
    Ok(())
}

/// A name that is written.
pub fn target_name<B: Bindings>(
    alloc: Global,
    place: &Place<B>,
    path: &Path,
    selects: &[Select],
    driven: bool,
) -> Result<TargetForm, ResolveError>
    ensures { Anywhere (declared_all place.now.signals.now) (B.numbers place.now.bindings.now) place.now.all.now place.now.early.now (λ here.
        GoalAnswer (declared_all place.now.signals.now) here (name_sites driven here.names path.now selects.now) (piece_of here.names path.now selects.now ∷ [])
        (list_all has_select_operands selects.now) result) }
{
    match place.bindings.signal(path) {
        None => Err(ResolveError::UnknownName(path.place)),
        Some(number) => match signal_at(place.signals, number) {
            None => Err(ResolveError::UnknownName(path.place)),
            Some(signal) => {
                let head = signal_head(signal);
                match indices(place, selects, driven) {
                    Err(error) => Err(error),
                    Ok(()) => match picks(alloc, place, &head, path.place, selects) {
                        Err(error) => Err(error),
                        Ok(found) => aimed(alloc, number, signal.sort, path.place, found, driven),
                    },
                }
            }
        },
    }
}

/// No targets.
pub fn no_targets(alloc: Global) -> TargetForms
    ensures targets { result.targets ≡ [] }
    ensures width { result.width ≡ 0 }
    ensures clocks { result.clocks ≡ [] }
{
    TargetForms {
        targets: Items::new(alloc),
        width: 0,
        clocks: Items::new(alloc),
    }
}

/// One more operand of a concatenation.
pub fn with_target(found: TargetForms, one: TargetForm) -> Result<TargetForms, ResolveError>
    ensures ok { IfOk result (λ f. AreMore found one f) }
    ensures err { IfErr result (λ x. x ≡ NoMemory) }
{
    let width = (found.width + one.width).min(129);
    let (mut targets, mut clocks) = found.into_parts();
    let (target, more) = one.into_parts();
    if clocks.append(more).is_err() {
        return Err(ResolveError::NoMemory);
    }
    if targets.push(target.into_inner()).is_err() {
        return Err(ResolveError::NoMemory);
    }
    Ok(TargetForms {
        targets,
        width,
        clocks,
    })
}

/// The concatenation.
pub fn joined(found: TargetForms) -> TargetForm
    ensures target { result.target ≡ t.Cat found.targets }
    ensures width { result.width ≡ found.width }
    ensures clocks { result.clocks ≡ found.clocks }
{
    let width = found.width;
    let (targets, clocks) = found.into_parts();
    TargetForm {
        target: Held::new(FlatTarget::Cat(targets)),
        width,
        clocks,
    }
}

#[cycle(targets)]
fn target_form<B: Bindings>(
    alloc: Global,
    place: &Place<B>,
    target: &Target,
    driven: bool,
) -> Result<TargetForm, ResolveError>
    ensures { Anywhere (declared_all place.now.signals.now) (B.numbers place.now.bindings.now) place.now.all.now place.now.early.now (λ here.
        GoalAnswer (declared_all place.now.signals.now) here (target_sites here.names (target_role driven) target.now) (pieces here.names target.now)
        (has_target_operands target.now) result) }
{
    match target {
        Target::Name(path, selects) => target_name(alloc, place, path, selects.as_slice(), driven),
        Target::Cat(parts) => match target_forms(alloc, place, parts.as_slice(), driven) {
            Err(error) => Err(error),
            Ok(found) => Ok(joined(found)),
        },
    }
}

#[cycle(targets)]
fn target_forms<B: Bindings>(
    alloc: Global,
    place: &Place<B>,
    targets: &[Target],
    driven: bool,
) -> Result<TargetForms, ResolveError>
    ensures { Anywhere (declared_all place.now.signals.now) (B.numbers place.now.bindings.now) place.now.all.now place.now.early.now (λ here.
        GoalsAnswer (declared_all place.now.signals.now) here (flat_map (target_sites here.names (target_role driven)) targets.now) (flat_map (pieces here.names) targets.now)
        (list_all has_target_operands targets.now) result) }
{
    let mut found = no_targets(alloc);
    for target in targets {
        match target_form(alloc, place, target, driven) {
            Err(error) => return Err(error),
            Ok(one) => match with_target(found, one) {
                Err(error) => return Err(error),
                Ok(more) => found = more,
            },
        }
    }
    Ok(found)
}

/// The place of the first name in it.
#[cycle(first_names)]
fn first_name(target: &Target) -> Option<u64>
    ensures { (names : Names) (role : Role) → result ≡ head_of (flat_map (λ s. s.shown.places) (target_sites names role target.now)) }
{
    match target {
        Target::Name(path, _) => Some(path.place),
        Target::Cat(parts) => first_of(parts.as_slice()),
    }
}

#[cycle(first_names)]
fn first_of(targets: &[Target]) -> Option<u64>
    ensures { (names : Names) (role : Role) → result ≡ head_of (flat_map (λ s. s.shown.places) (flat_map (target_sites names role) targets.now)) }
{
    for target in targets {
        if let Some(place) = first_name(target) {
            return Some(place);
        }
    }
    None
}

fn first_place(target: &Target) -> u64
    ensures { (names : Names) (role : Role) → result ≡ site_place (target_sites names role target.now) }
{
    match first_name(target) {
        None => 0,
        Some(place) => place,
    }
}

fn fits(width: u32) -> bool
    ensures { result ≡ is_width width }
{
    1 <= width && width <= 128
}

/// A target of a block, or (`driven`) of a continuous assignment, whose indices are constant (IEEE 1364-2005, sections 6.1 and 9.2). Ok is a
/// flat target that tells what the target tells, and exactly where no node of its selects has a fault UnknownName, NotConstant, ZeroDivisor
/// or Range and its bits together are 1 to 128; an error is such a fault at its place. `NoMemory` may come at any time.
pub fn resolve_target<B: Bindings>(
    alloc: Global,
    place: &Place<B>,
    target: &Target,
    driven: bool,
) -> Result<ResolvedTarget, ResolveError>
    ensures { Anywhere (declared_all place.now.signals.now) (B.numbers place.now.bindings.now) place.now.all.now place.now.early.now (λ here.
        TargetAnswer (declared_all place.now.signals.now) here driven target.now result) }
{
    match target_form(alloc, place, target, driven) {
        Err(error) => Err(error),
        Ok(found) => {
            let width = found.width;
            if !fits(width) {
                return Err(ResolveError::Range(first_place(target)));
            }
            let (target, clocks) = found.into_parts();
            Ok(ResolvedTarget {
                target,
                width,
                clocks,
            })
        }
    }
}
