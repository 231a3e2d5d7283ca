//! Tests of products: goals of small tasks, by the simulator.
#![tactic(auto)]

#[cfg(test)]
mod building;
#[cfg(test)]
mod rows;
#[cfg(test)]
mod switches;
#[cfg(test)]
mod tasks;
