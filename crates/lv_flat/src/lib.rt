//! A flat design: signals by number, and parts whose trees have no scopes, no parameters and no loops. In `specs/` their meaning.
#![tactic(auto)]

mod expr;
mod flat;
mod part;
mod signal;
mod sort;
mod stmt;

pub use expr::{FlatExpr, FlatSelect};
pub use flat::Flat;
pub use part::{FlatBody, FlatPart};
pub use signal::Signal;
pub use sort::Sort;
pub use stmt::{FlatArm, FlatName, FlatStmt, FlatTarget};
