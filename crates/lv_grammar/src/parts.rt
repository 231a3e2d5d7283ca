use lv_ast::{Expr, Ident};
use lv_held::Held;

/// What stands in a select behind its first expression.
#[derive(Drop)]
pub enum Span {
    Bit,
    Part(Held<Expr>),
    Up(Held<Expr>),
    Down(Held<Expr>),
}

/// The head of a loop: its index with the first value, the test, and the index again with the next value.
#[derive(Drop)]
pub struct Head {
    pub index: Ident,
    pub start: Held<Expr>,
    pub test: Held<Expr>,
    pub again: Ident,
    pub next: Held<Expr>,
}
