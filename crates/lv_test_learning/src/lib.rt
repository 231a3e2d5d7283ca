//! Tests of the learner: what becomes of small tasks and of their certificates.
#![tactic(auto)]

#[cfg(test)]
mod building;
#[cfg(test)]
mod confirmed;
#[cfg(test)]
mod designs;
#[cfg(test)]
mod learnt;
#[cfg(test)]
mod tasks;
