//! The call of `./explain`: from the bytes of a source to what is told of them and how the process ends.
//!
//! A program's `main` calls `carry_out`, whose clause `EndsWith` is the theorem: the number that the process ends with and the text that
//! it wrote are those of a status whose causes hold.
#![tactic(auto)]

mod input;
pub mod line;
mod outcome;
pub mod process;
pub mod status;
#[cfg(test)]
mod tests;
