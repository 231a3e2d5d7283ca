use crate::expr::{FlatExpr, FlatSelect};
use lv_held::Held;
use sqlite_items::{Boxed, Items};

/// A signal by its number, with the place of its name in the text.
#[derive(Clone, Copy, Debug)]
pub struct FlatName {
    pub signal: u64,
    pub place: u64,
}

/// What an assignment writes (IEEE 1364-2005, section 6.1.1).
#[derive(Drop)]
pub enum FlatTarget {
    Signal(FlatName, Items<FlatSelect>),
    Cat(Items<FlatTarget>),
}

/// An arm of a `case`; one without labels is its default.
#[cycle(flat_statements)]
#[derive(Drop)]
pub struct FlatArm {
    pub labels: Items<FlatExpr>,
    pub body: FlatStmt,
}

/// A statement (IEEE 1364-2005, section 9). A loop is the block of its turns.
#[cycle(flat_statements)]
#[derive(Drop)]
pub enum FlatStmt {
    Null,
    Block(Items<FlatStmt>),
    If(Held<FlatExpr>, Boxed<FlatStmt>, Option<Boxed<FlatStmt>>),
    /// Whether it is `casez`.
    Case(bool, Held<FlatExpr>, Items<FlatArm>),
    /// A blocking assignment, with the place of its target.
    Now(FlatTarget, Held<FlatExpr>, u64),
    /// A nonblocking assignment, with the place of its target.
    Later(FlatTarget, Held<FlatExpr>, u64),
}
