//! Flat code of any program, and the tasks that run it.
#![tactic(auto)]

pub mod code;
mod compile;
pub mod scope;
mod starting;
mod steps;
pub mod task;
#[cfg(test)]
mod tests;
