//! Names resolved: expressions of the source become flat trees with equal readings, and each fault is told by its kind and its place.
#![tactic(auto)]

mod close;
mod error;
mod expr;
mod fixed;
mod form;
mod goal;
mod heads;
mod indices;
mod joins;
mod late;
mod naming;
mod operand;
mod picks;
mod place;
mod resolve;
mod resolved;
mod settle;
mod target;
mod typed;

pub use error::ResolveError;
pub use goal::{ResolvedTarget, TargetForm, TargetForms};
pub use heads::place_of;
pub use indices::Indices;
pub use late::late_in;
pub use place::{Bindings, Place};
pub use resolve::{own_type, resolve_expr, resolve_taken};
pub use resolved::Resolved;
pub use settle::signal_at;
pub use target::{joined, no_targets, resolve_target, target_name, with_target};
pub use typed::OwnType;
