//! Which accesses of a cell have to be remembered so that no race is missed.
//!
//! A `CellLog` keeps of one cell the last write and the reads after it that no later read is joined with, or the first
//! pair of places that race once there is one. The laws say that this is enough, over any kinds of access. Where the reads
//! come in the English order of one future, as in a serial run, each takes amortised constant time.
#![tactic(auto)]

mod finding;
mod kept;
pub mod laws;
mod log;
mod reading;
mod replacing;
mod run;
#[cfg(test)]
mod tests;

pub use kept::{Access, Accesses, Kept};
pub use log::CellLog;
