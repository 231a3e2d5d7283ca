//! Tests of reading expressions and sources, and of their canonical texts.
#![tactic(auto)]

#[cfg(test)]
mod designs;
#[cfg(test)]
mod expressions;
#[cfg(test)]
mod printing;
#[cfg(test)]
mod rows;
#[cfg(test)]
mod shapes;
#[cfg(test)]
mod trees;
#[cfg(test)]
mod written;
