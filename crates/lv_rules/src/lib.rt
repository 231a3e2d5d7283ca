//! The rules on the parts of a flat design.
#![tactic(auto)]

mod aims;
mod blocking;
mod clock;
mod drivers;
mod late;
mod local;
mod marks;
mod readers;
mod register;
mod sets;
mod told;
mod undriven;
mod ways;

pub use blocking::first_blocking;
pub use clock::has_clock;
pub use drivers::first_two_drivers;
pub use local::{LocalRule, first_local};
pub use register::registers;
pub use told::Told;
pub use undriven::first_undriven;
