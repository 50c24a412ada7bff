//! Places where tasks park: for a value that is put once, and for children that end.
//!
//! A `FutureCell` keeps those who wait for its value, in the order in which they came, and hands them out when the value
//! is put. A `Joining` counts children that run, and hands out the one who waits for them when the last has ended. The
//! layer above holds the lock; nothing here waits.
#![tactic(auto)]

pub mod cell;
pub mod joining;
#[cfg(test)]
mod tests;
