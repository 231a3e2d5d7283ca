//! The contract file: a TOML document that says what a design may leak. Each key is of a kind and in a range, and each expression
//! is a tree.
#![tactic(auto)]

mod check;
mod contract;
mod error;
mod expression;
mod fits;
mod gather;
mod key;
mod laws;
mod lists;
mod named;
mod need;
mod read;
mod tables;
mod values;

pub use contract::{Contract, SimTable};
pub use error::ContractError;
pub use key::{Key, Kind, Level};
pub use laws::has_one_contract;
pub use named::{Guarded, Named, PortText, SimInput, SimState};
pub use need::Need;
pub use read::read_contract;
