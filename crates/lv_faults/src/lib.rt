//! What is told of a scope: faults by kind, item by item and declaration by declaration.
#![tactic(auto)]

mod design_laws;
mod fault;
mod instance_laws;
mod laws;
mod node;

pub use design_laws::{
    faultless_designs, faultless_scopes, faultless_scopes_have_fixed_targets, faults_are_held,
};
pub use fault::{Fault, ScopeError};
pub use instance_laws::{
    inst_faults_are_told, inst_ports_are_told, instances_are_faultless, setting_faults_are_told,
};
pub use laws::{
    declaration_faults_are_told, direction_faults_are_told, faultless_items_and_declarations,
    item_faults_are_told,
};
pub use node::of_node;
