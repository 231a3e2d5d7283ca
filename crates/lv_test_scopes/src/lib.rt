//! Tests of numbers, ranges, parameters, turns of loops, and names and modules by number, as rows of texts.
#![tactic(auto)]

#[cfg(test)]
mod lists;
#[cfg(test)]
mod rows;
#[cfg(test)]
mod texts;
