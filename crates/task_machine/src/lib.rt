//! What a program means: values, states of tasks, steps, and which histories are legal and whole.
//! The layer above uses the definitions `IsStep`, `Leads`, `IsLegal`, `IsWhole` and `FinishHolds`, and the entries that one task
//! has made, `Trace`.
#![tactic(auto)]

pub mod laws;
#[cfg(test)]
mod tests;
pub mod trace;
