//! The laws of strands: what the two orders and the tables say of paths, and which accesses of a cell have to be kept.
//!
//! Each law is a function without a body whose clause is a statement of `specs/`, over the definitions of `fut_base`.
//! The layers above cite a law's lemma in `proofs/`, or call the function. Lists of events have the newest one first.
#![tactic(auto)]

pub mod accesses;
pub mod laws;
