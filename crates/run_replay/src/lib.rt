//! The events of a run made one after the other: a run beside the machine of the definitions, and the serial run.
#![tactic(auto)]

pub mod laws;
pub mod line;
mod ready;
pub mod replay;
pub mod serial;
pub mod step;
mod table;
#[cfg(test)]
mod tests;
