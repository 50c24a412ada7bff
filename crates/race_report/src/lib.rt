//! What a recorded run says of races: the plain search that finds each racing cell's first pair by paths, edge by edge, and
//! the brief text of a run.
//!
//! The layer above uses `found_of`, whose answer is the report of the history that it is given. By the law
//! `one_report` that history has no other report.
#![tactic(auto)]

mod brief;
mod edges;
mod found;
pub mod laws;
mod pairs;
mod search;
#[cfg(test)]
mod tests;

pub use brief::write_brief;
pub use found::found_of;
