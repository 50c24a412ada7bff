//! Finds the races of a history while its entries come, on one thread.
//!
//! A `Finder` takes one entry after the other. It keeps the two orders of strands, of each task its strand with that
//! strand's table, and of each cell what has to be remembered of its accesses. `races` is then the report of the history
//! so far: the racing cells in order, each with its first pair.
#![tactic(auto)]

mod cells;
mod finder;
mod forks;
mod joins;
mod places;
#[cfg(test)]
mod tests;
mod track;
mod whole;

pub use finder::Finder;
pub use whole::races_of;
