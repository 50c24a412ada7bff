//! The words of the command line: which command they are, with its options; and the same read by `clap`.
#![tactic(auto)]

pub mod laws;
pub mod options;
pub mod reading;
pub mod words;
