//! The laws of legal histories: what the machine of a run and the structure of its history say of each other.
//!
//! Each law is a function without a body whose clause is a statement of `specs/`, over the definitions of `fut_base` and
//! `task_machine`. The layers above cite a law's lemma in `proofs/`, or call the function.
#![tactic(auto)]

pub mod laws;
