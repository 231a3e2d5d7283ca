use lv_ast::Literal;
use lv_bits::Op;
use lv_const::Const;
use sqlite_items::{Boxed, Items};

/// A bit or part select (IEEE 1364-2005, section 5.2). Bounds and widths are computed.
#[cycle(flat)]
#[derive(Drop)]
pub enum FlatSelect {
    Bit(Boxed<FlatExpr>),
    /// `[left:right]`
    Part(u32, u32),
    /// `[e +: width]`
    Up(Boxed<FlatExpr>, u32),
    /// `[e -: width]`
    Down(Boxed<FlatExpr>, u32),
}

/// An expression (IEEE 1364-2005, section 5). Parameters, genvars and loop indices are constants, signals stand by number,
/// and counts of replications are computed.
#[cycle(flat)]
#[derive(Drop)]
pub enum FlatExpr {
    Lit(Literal),
    Const(Const, Items<FlatSelect>),
    Signal(u64, Items<FlatSelect>),
    Un(Op, Boxed<FlatExpr>),
    Bin(Op, Boxed<FlatExpr>, Boxed<FlatExpr>),
    Div(Boxed<FlatExpr>, Boxed<FlatExpr>),
    Rem(Boxed<FlatExpr>, Boxed<FlatExpr>),
    Cond(Boxed<FlatExpr>, Boxed<FlatExpr>, Boxed<FlatExpr>),
    Cat(Items<FlatExpr>),
    Rep(u32, Items<FlatExpr>),
    /// Whether it is `$signed`.
    Cast(bool, Boxed<FlatExpr>),
}
