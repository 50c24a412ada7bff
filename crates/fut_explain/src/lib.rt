//! What a fault is, in words and lines.
#![tactic(auto)]

mod causes;
pub mod explained;
#[cfg(test)]
mod explained_tests;
pub mod kind;
pub mod lines;
pub mod mark;
pub mod standing;
#[cfg(test)]
mod standing_tests;
