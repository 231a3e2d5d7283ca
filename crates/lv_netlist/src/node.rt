use lv_bits::{Op, Word};

/// A node of a graph. Operands are the numbers of earlier nodes.
#[derive(Clone, Copy, Debug, PartialEq, Eq)]
pub enum Node {
    /// The input with this number.
    Input(u64),
    /// The register with this number.
    Reg(u64),
    Const(Word),
    Un(Op, u64),
    /// The last field says whether the operands are signed.
    Bin(Op, u64, u64, bool),
    /// The second operand where the first isn't 0, else the third.
    Mux(u64, u64, u64),
    /// The operand's bits from the first number on, as many as the second says.
    Slice(u64, u32, u32),
    /// The first operand's bits above those of the second.
    Cat(u64, u64),
    /// The operand at a width, with its top bit repeated where the last field says so, else with zeros above.
    Ext(u64, u32, bool),
}

/// A node with its width in bits.
#[derive(Clone, Copy)]
pub(crate) struct Typed {
    pub node: Node,
    pub width: u32,
}

/// A register's width in bits and its next node.
#[derive(Clone, Copy)]
pub(crate) struct Register {
    pub width: u32,
    pub next: Option<u64>,
}
