//! The parts of an item that is no instance, as flat parts, and each fault of the item by kind.
#![tactic(auto)]

mod always;
mod assign;
mod error;
mod item;
mod make;
mod name;
mod net;

pub use error::PartsError;
pub use item::item_parts;
