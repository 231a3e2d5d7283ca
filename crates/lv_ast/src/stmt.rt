ghost use Rattle.std.specs.Prelude.{◌≡◌};

use crate::{Expr, Path, Select};
use lv_bits::Text;
use lv_held::Held;
use sqlite_items::{Boxed, Items};

/// A name where it is declared or used.
pub struct Ident {
    pub name: Text,
    pub place: u64,
}

impl Drop for Ident {
    fn drop(self) {
        let Ident { name, place: _ } = self;
        drop(name);
    }
}

impl Ident {
    /// Its fields.
    pub fn into_parts(self) -> (Text, u64)
        ensures { result ≡ (self.name, self.place) }
    {
        let Ident { name, place } = self;
        (name, place)
    }
}

/// What an assignment writes (IEEE 1364-2005, section 6.1.1).
#[derive(Drop)]
pub enum Target {
    Name(Path, Items<Select>),
    Cat(Items<Target>),
}

/// An arm of a `case`; one without labels is its default.
#[cycle(statements)]
#[derive(Drop)]
pub struct Arm {
    pub labels: Items<Expr>,
    pub body: Stmt,
}

/// A statement (IEEE 1364-2005, section 9).
#[cycle(statements)]
#[derive(Drop)]
pub enum Stmt {
    Null,
    Block(Option<Ident>, Items<Stmt>),
    If(Held<Expr>, Boxed<Stmt>, Option<Boxed<Stmt>>),
    /// Whether it is `casez`.
    Case(bool, Held<Expr>, Items<Arm>),
    /// The index and its first value, the test, and the index again with its next value.
    Loop(Ident, Held<Expr>, Held<Expr>, Ident, Held<Expr>, Boxed<Stmt>),
    /// A blocking assignment, with the place of its target.
    Now(Target, Held<Expr>, u64),
    /// A nonblocking assignment, with the place of its target.
    Later(Target, Held<Expr>, u64),
}
