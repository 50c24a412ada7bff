//! The laws of histories without a race: where one whole run of a program has none, each other whole run ends with the same cells, and is the
//! same run up to the numbers of its tasks, futures and strands.
//!
//! The layer above uses `clean_all` and `clean_runs_are_same`, or their lemmas in `proofs/Clean`. Each law is a function without a body
//! whose clause is a statement of `specs/`. `rows` has programs with two whole runs: one of which the laws speak, and one with a race, whose runs
//! end differently.
#![tactic(auto)]

pub mod laws;
pub mod rows;
