//! Tests of certificates: their text, read and written.
#![tactic(auto)]

#[cfg(test)]
mod rows;
