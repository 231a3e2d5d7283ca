//! Tests of constant expressions: widths, types, values and refusals, as rows of texts.
#![tactic(auto)]

#[cfg(test)]
mod rows;
