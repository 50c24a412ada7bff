//! Records checked: the entries are made again one by one, and the races and the finish compared. And what is accepted makes a
//! run text.
#![tactic(auto)]

pub mod checking;
mod ending;
pub mod laws;
mod same;
#[cfg(test)]
mod tests;
