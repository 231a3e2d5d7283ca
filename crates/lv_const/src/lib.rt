//! Constant expressions (IEEE 1364-2005, sections 4.1 and 5.4): their own width, own type and value, without taking memory.
#![tactic(auto)]

mod calls;
mod constant;
mod consts;
mod error;
mod expr;
mod full;
mod laws;
mod own;
mod pair;
mod picks;
mod place;
mod signs;
mod values;
mod weight;

pub use calls::{own_of, value_of};
pub use constant::Const;
pub use consts::{Consts, Entry};
pub use error::ConstError;
pub use laws::{
    entries_are_a_place, own_answers_have_no_faults, own_refusals_are_faults,
    own_zero_divisors_are_counted, value_answers_have_no_faults, value_refusals_are_faults,
};
