//! What the names of one scope stand for, its signals in order with their numbers, and the faults of its declarations as a whole.
#![tactic(auto)]

mod around;
mod group;
mod groups;
mod order;
mod path;
mod scope;
mod signals;
mod table;
mod things;
mod unique;

pub use around::Around;
pub use group::Group;
pub use groups::Groups;
pub use order::Standing;
pub use path::{path_of, put_dot, put_spelled};
pub use scope::{Named, name_scope};
pub use table::{Binding, Table};
pub use unique::once;
