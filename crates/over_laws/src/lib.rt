//! What is known when a run is over.
#![tactic(auto)]

pub mod laws;
