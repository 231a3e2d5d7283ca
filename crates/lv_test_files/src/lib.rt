//! Tests of files, of contract files, and of tokens and directives.
#![tactic(auto)]

#[cfg(test)]
mod contracts;
#[cfg(test)]
mod files;
#[cfg(test)]
mod tokens;
