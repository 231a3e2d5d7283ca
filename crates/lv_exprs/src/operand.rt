use crate::symbol::{Divider, Number, Sign};
use lv_ast::{Expr, Literal, Path, PathStep, Select};
use lv_held::Held;
use sqlite_items::Items;

/// An operand, as far as it matters what may follow it.
#[derive(Drop)]
pub enum Content {
    /// A number without a base: a based token may follow.
    Number(Number),
    /// A name with its selects.
    Name(Path, Items<Select>),
    /// A name and one number in brackets: a step of a path, if a dot follows.
    Element(Path, Number),
    /// Anything else.
    Tree(Held<Expr>),
}

/// An operand, and how far below the root it reaches.
#[derive(Drop)]
pub struct Operand {
    pub content: Content,
    pub reach: u32,
}

/// What is open. A frame's number says how far below the root its parts reach.
#[derive(Drop)]
pub enum Frame {
    Prefix(Sign),
    Left(Sign, Held<Expr>, u32),
    Question(Held<Expr>, u32),
    Colon(Held<Expr>, Held<Expr>, u32),
    Paren,
    Cast(bool),
    Brace(Items<Expr>, u32),
    Repeat(Held<Expr>, Items<Expr>, u32),
    Index(Path, Items<Select>, u32),
    Part(Divider, Path, Items<Select>, Held<Expr>, u32),
}

/// Where reading stands, above what is open.
#[derive(Drop)]
pub enum Standing {
    /// An operand has to follow.
    Want,
    Have(Operand),
    /// After `$signed` or `$unsigned`.
    Cast(bool),
    /// After the inner brace of a replication.
    Shut(Held<Expr>, Items<Expr>, u32),
    /// After the dot of a path.
    Dotted(Items<PathStep>, u64),
}

/// What one token does.
#[derive(Drop)]
pub enum Step {
    /// It is taken.
    Next(Standing),
    /// It is taken, and ends an expression: a literal with free bits.
    Whole(Literal),
    /// It is not taken, and the tokens before it are an expression.
    Done(Operand),
    /// It is not taken, and the tokens before it are none.
    Bad,
}
