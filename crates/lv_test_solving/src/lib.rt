//! Tests of clauses, unit steps, the checker, the solver and its sessions.
#![tactic(auto)]

#[cfg(test)]
mod asks;
#[cfg(test)]
mod checking;
#[cfg(test)]
mod clauses;
#[cfg(test)]
mod costs;
#[cfg(test)]
mod propagation;
#[cfg(test)]
mod session;
#[cfg(test)]
mod sets;
#[cfg(test)]
mod solving;
