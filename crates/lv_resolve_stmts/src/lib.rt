//! Statements with their names resolved: flat statements that do the same, and each fault by its kind and its place.
#![tactic(auto)]

mod assigns;
mod branches;
mod cases;
mod error;
mod resolved;
mod stmt;

pub use error::StmtError;
pub use resolved::ResolvedStmt;
pub use stmt::resolve_stmt;
