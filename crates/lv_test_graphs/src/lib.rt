//! Tests of words, graphs, simulation and circuits, and of goals through the solver.
#![tactic(auto)]

#[cfg(test)]
mod circuits;
#[cfg(test)]
mod gates;
#[cfg(test)]
mod goals;
#[cfg(test)]
mod graphs;
#[cfg(test)]
mod simulation;
#[cfg(test)]
mod words;
