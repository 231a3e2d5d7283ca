//! Tests of the rules on parts: orders of graphs, and of parts; rules that parts break.
#![tactic(auto)]

#[cfg(test)]
mod judgements;
#[cfg(test)]
mod orders;
#[cfg(test)]
mod schedules;
