//! Where two accesses part: the last entry of a history from whose strand paths lead to both.
//!
//! `Origins::make` goes once over a history, legal or not, and keeps its edges, in about the time of its length times the
//! logarithm of the number of its tasks. `Origins::parting` answers for two strands: in a legal history it goes four times over
//! the edges and once over the entries. `laws` says what the entry that it finds can be.
#![tactic(auto)]

mod edges;
pub mod laws;
mod marks;
pub mod origins;
mod tasks;
#[cfg(test)]
mod tests;
