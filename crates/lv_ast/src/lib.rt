//! Tokens and trees of the profile of IEEE 1364-2005 that this program reads, and in `specs/` how names, tokens and
//! paths are written.
#![tactic(auto)]

mod bytes;
mod expr;
mod item;
mod literals;
mod stmt;
mod tokens;
mod words;

pub use bytes::{base_of, digit_value, is_blank, is_digit, is_free, is_inner, is_letter, is_sign};
pub use expr::{Expr, Literal, Path, PathStep, Select};
pub use item::{
    Aport, Conn, Continuous, Inst, Item, Module, NetName, Params, PortWord, Ports, Range, RegName,
    Setting, Source, Watch,
};
pub use literals::{DigitPart, based_base, based_digits, based_signed, part_digit};
pub use stmt::{Arm, Ident, Stmt, Target};
pub use tokens::{Kind, Token, Tokens};
pub use words::{is_keyword, is_listed};
