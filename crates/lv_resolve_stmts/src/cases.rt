ghost use Rattle.std.specs.Prelude.{◌≡◌, ◌&&◌, ◌∷◌, [], max, nat_lt, IfOk, IfErr};
ghost use Rattle.lv_flat.specs.Signals.{declared_all};
ghost use Rattle.lv_resolve.specs.Forms.{Anywhere};
ghost use Rattle.lv_resolve_stmts.specs.Cases.{labels_in, label_lists, defaults_in, WidthsAnswer, CommonAnswer, AreMoreLabels, LabelsAnswer, HeadAnswer, AreMoreArms, IsCase};
ghost use Rattle.lv_resolve.specs.declared.error.ResolveError.TheVariants.{NoMemory as NoRoom};
ghost use Rattle.lv_resolve_stmts.specs.declared.error.StmtError.TheVariants.{NoMemory};

use crate::error::{StmtError, of_node};
use crate::resolved::ResolvedStmt;
use lv_ast::{Arm, Expr};
use lv_const::Consts;
use lv_flat::{FlatArm, FlatExpr, FlatStmt, Signal};
use lv_held::Held;
use lv_resolve::{
    Bindings, OwnType, Place, ResolveError, Resolved, own_type, place_of, resolve_taken,
};
use sqlite_items::Items;
use std::alloc::Global;

/// Labels, and the places of the clock names in them.
pub struct Labels {
    pub labels: Items<FlatExpr>,
    pub clocks: Items<u64>,
}

impl Drop for Labels {
    fn drop(self) {
        let Labels { labels, clocks } = self;
        drop(labels);
        drop(clocks);
    }
}

impl Labels {
    pub fn into_parts(self) -> (Items<FlatExpr>, Items<u64>)
        ensures { result ≡ (self.labels, self.clocks) }
    {
        let Labels { labels, clocks } = self;
        (labels, clocks)
    }
}

/// Arms, and the places of the clock names in their labels and in their statements.
pub struct Arms {
    pub arms: Items<FlatArm>,
    pub heads: Items<u64>,
    pub clocks: Items<u64>,
}

impl Drop for Arms {
    fn drop(self) {
        let Arms {
            arms,
            heads,
            clocks,
        } = self;
        drop(arms);
        drop(heads);
        drop(clocks);
    }
}

impl Arms {
    pub fn into_parts(self) -> (Items<FlatArm>, Items<u64>, Items<u64>)
        ensures { result ≡ (self.arms, self.heads, self.clocks) }
    {
        let Arms {
            arms,
            heads,
            clocks,
        } = self;
        (arms, heads, clocks)
    }
}

/// The selector of a `case`, with the width and the sign that reach it and the labels.
pub struct Head {
    pub kind: OwnType,
    pub selector: Resolved,
}

impl Drop for Head {
    fn drop(self) {
        let Head { kind: _, selector } = self;
        drop(selector);
    }
}

impl Head {
    pub fn into_selector(self) -> Resolved
        ensures { result ≡ self.selector }
    {
        let Head { kind: _, selector } = self;
        selector
    }
}

/// The longest width, and whether both are signed.
fn joined(c: OwnType, of: OwnType) -> OwnType
    ensures width { result.width ≡ max of.width c.width }
    ensures signed { result.signed ≡ (of.signed && c.signed) }
{
    OwnType {
        width: of.width.max(c.width),
        signed: of.signed & c.signed,
    }
}

/// The common width and sign, with labels beside.
fn common_labels<B: Bindings>(
    alloc: Global,
    place: &Place<B>,
    labels: &[Expr],
    rest: OwnType,
) -> Result<OwnType, ResolveError>
    ensures { Anywhere (declared_all place.now.signals.now) (B.numbers place.now.bindings.now) place.now.all.now place.now.early.now (λ here.
        WidthsAnswer here rest labels.now result) }
{
    let mut c = rest;
    for label in labels {
        match own_type(alloc, place, label) {
            Err(error) => return Err(error),
            Ok(of) => c = joined(c, of),
        }
    }
    Ok(c)
}

fn common_arms<B: Bindings>(
    alloc: Global,
    place: &Place<B>,
    arms: &[Arm],
    rest: OwnType,
) -> Result<OwnType, ResolveError>
    ensures { Anywhere (declared_all place.now.signals.now) (B.numbers place.now.bindings.now) place.now.all.now place.now.early.now (λ here.
        WidthsAnswer here rest (labels_in arms.now) result) }
{
    let mut c = rest;
    for arm in arms {
        match common_labels(alloc, place, arm.labels.as_slice(), c) {
            Err(error) => return Err(error),
            Ok(more) => c = more,
        }
    }
    Ok(c)
}

/// The common width and sign of a selector and all labels (IEEE 1364-2005, section 9.5).
fn common_type<B: Bindings>(
    alloc: Global,
    place: &Place<B>,
    selector: &Expr,
    arms: &[Arm],
) -> Result<OwnType, ResolveError>
    ensures { Anywhere (declared_all place.now.signals.now) (B.numbers place.now.bindings.now) place.now.all.now place.now.early.now (λ here.
        CommonAnswer here selector.now (labels_in arms.now) result) }
{
    match own_type(alloc, place, selector) {
        Err(error) => Err(error),
        Ok(of) => common_arms(alloc, place, arms, of),
    }
}

fn no_labels(alloc: Global) -> Labels
    ensures labels { result.labels ≡ [] }
    ensures clocks { result.clocks ≡ [] }
{
    Labels {
        labels: Items::new(alloc),
        clocks: Items::new(alloc),
    }
}

fn with_label(found: Labels, one: Resolved) -> Result<Labels, ResolveError>
    ensures ok { IfOk result (λ f. AreMoreLabels found one f) }
    ensures err { IfErr result (λ x. x ≡ NoRoom) }
{
    let (mut labels, mut clocks) = found.into_parts();
    let (expr, more) = one.into_parts();
    if clocks.append(more).is_err() {
        return Err(ResolveError::NoMemory);
    }
    if labels.push(expr.into_inner()).is_err() {
        return Err(ResolveError::NoMemory);
    }
    Ok(Labels { labels, clocks })
}

fn taken_labels<B: Bindings>(
    alloc: Global,
    place: &Place<B>,
    kind: OwnType,
    list: &[Expr],
) -> Result<Labels, ResolveError>
    ensures { Anywhere (declared_all place.now.signals.now) (B.numbers place.now.bindings.now) place.now.all.now place.now.early.now (λ here.
        LabelsAnswer (declared_all place.now.signals.now) here kind.width kind.signed list.now result) }
{
    let mut found = no_labels(alloc);
    for label in list {
        match resolve_taken(alloc, place, label, kind.width, kind.signed) {
            Err(error) => return Err(error),
            Ok(one) => match with_label(found, one) {
                Err(error) => return Err(error),
                Ok(more) => found = more,
            },
        }
    }
    Ok(found)
}

/// The labels of an arm at the width and sign of their `case`.
pub fn labels_at<B: Bindings>(
    alloc: Global,
    signals: &[Signal],
    bindings: &B,
    all: &Consts,
    early: &Consts,
    kind: OwnType,
    list: &[Expr],
) -> Result<Labels, ResolveError>
    ensures { Anywhere (declared_all signals.now) (B.numbers bindings.now) all.now early.now (λ here.
        LabelsAnswer (declared_all signals.now) here kind.width kind.signed list.now result) }
{
    let place = Place {
        signals,
        bindings,
        all,
        early,
    };
    let found = taken_labels(alloc, &place, kind, list);
    let Place {
        signals: _,
        bindings: _,
        all: _,
        early: _,
    } = place;
    found
}

fn has_two_defaults(arms: &[Arm]) -> bool
    ensures { result ≡ nat_lt 1 (defaults_in (label_lists arms.now)) }
{
    let mut count: usize = 0;
    for arm in arms {
        if arm.labels.len() == 0 {
            count += 1;
        }
    }
    count > 1
}

fn taken_head<B: Bindings>(
    alloc: Global,
    place: &Place<B>,
    selector: &Expr,
    arms: &[Arm],
) -> Result<Head, StmtError>
    ensures { Anywhere (declared_all place.now.signals.now) (B.numbers place.now.bindings.now) place.now.all.now place.now.early.now (λ here.
        HeadAnswer (declared_all place.now.signals.now) here selector.now arms.now result) }
{
    if has_two_defaults(arms) {
        return Err(StmtError::Duplicate(place_of(selector)));
    }
    match common_type(alloc, place, selector, arms) {
        Err(error) => Err(of_node(error)),
        Ok(kind) => match resolve_taken(alloc, place, selector, kind.width, kind.signed) {
            Err(error) => Err(of_node(error)),
            Ok(found) => Ok(Head {
                kind,
                selector: found,
            }),
        },
    }
}

/// The selector of a `case` that has no two defaults.
pub fn head_at<B: Bindings>(
    alloc: Global,
    signals: &[Signal],
    bindings: &B,
    all: &Consts,
    early: &Consts,
    selector: &Expr,
    arms: &[Arm],
) -> Result<Head, StmtError>
    ensures { Anywhere (declared_all signals.now) (B.numbers bindings.now) all.now early.now (λ here.
        HeadAnswer (declared_all signals.now) here selector.now arms.now result) }
{
    let place = Place {
        signals,
        bindings,
        all,
        early,
    };
    let found = taken_head(alloc, &place, selector, arms);
    let Place {
        signals: _,
        bindings: _,
        all: _,
        early: _,
    } = place;
    found
}

/// None.
pub fn no_arms(alloc: Global) -> Arms
    ensures arms { result.arms ≡ [] }
    ensures heads { result.heads ≡ [] }
    ensures clocks { result.clocks ≡ [] }
{
    Arms {
        arms: Items::new(alloc),
        heads: Items::new(alloc),
        clocks: Items::new(alloc),
    }
}

/// One more.
pub fn with_arm(found: Arms, labels: Labels, one: ResolvedStmt) -> Result<Arms, StmtError>
    ensures ok { IfOk result (λ f. AreMoreArms found labels one f) }
    ensures err { IfErr result (λ x. x ≡ NoMemory) }
{
    let (mut arms, mut heads, mut clocks) = found.into_parts();
    let (labels, places) = labels.into_parts();
    let (stmt, more) = one.into_parts();
    if heads.append(places).is_err() || clocks.append(more).is_err() {
        return Err(StmtError::NoMemory);
    }
    let arm = FlatArm {
        labels,
        body: stmt.into_inner(),
    };
    if arms.push(arm).is_err() {
        return Err(StmtError::NoMemory);
    }
    Ok(Arms {
        arms,
        heads,
        clocks,
    })
}

/// Their `case`.
pub fn case_of(wild: bool, head: Head, found: Arms) -> Result<ResolvedStmt, StmtError>
    ensures ok { IfOk result (λ r. IsCase wild head found r) }
    ensures err { IfErr result (λ x. x ≡ NoMemory) }
{
    let (expr, mut clocks) = head.into_selector().into_parts();
    let (arms, heads, more) = found.into_parts();
    if clocks.append(heads).is_err() || clocks.append(more).is_err() {
        return Err(StmtError::NoMemory);
    }
    Ok(ResolvedStmt {
        stmt: Held::new(FlatStmt::Case(wild, expr, arms)),
        clocks,
    })
}
