use lv_ast::{Expr, Ident, PortWord, Range};

/// What a name is declared as (IEEE 1364-2005, section 12).
#[derive(Clone, Copy)]
pub enum Thing<'a> {
    /// A port: whether it is an output, what its direction says besides, whether it is signed, its range.
    Direction(bool, PortWord, bool, &'a Option<Range>),
    /// A net: whether it is signed, its range.
    Wire(bool, &'a Option<Range>),
    /// A variable: whether it is signed, its range, its bounds where it is an array.
    Reg(bool, &'a Option<Range>, &'a Option<Range>),
    /// A parameter: whether it is local, whether it is signed, its range, its value.
    Parameter(bool, bool, &'a Option<Range>, &'a Expr),
    /// Whether it is a genvar.
    Index(bool),
    Instance,
    /// The name of a block.
    Label,
}

/// A name with what it is declared as.
#[derive(Clone, Copy)]
pub struct Declaration<'a> {
    pub name: &'a Ident,
    pub thing: Thing<'a>,
}
