//! Faults that are told of declarations and of the values that instances give parameters, by their kinds.
#![tactic(auto)]

mod declarations;
mod laws;
mod names;
mod outer;
mod settings;
mod walk;

pub use declarations::declaration_fault;
pub use laws::{sound_declarations_are_faultless, sound_settings_are_faultless};
pub use outer::Outer;
pub use settings::setting_fault;
