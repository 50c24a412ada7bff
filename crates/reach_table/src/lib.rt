//! Whether any strand reaches any other, across futures, from the two orders and one small table a strand.
//!
//! The table of a strand has strands of other futures by which it is reached: of each future at most one, the last. A
//! strand of another future reaches v exactly where it is, or stands before in both orders, the strand of its future in
//! v's table (`laws`). `Reach` is such a table; tables of several strands share their memory.
#![tactic(auto)]

mod block;
mod group;
mod joining;
pub mod laws;
mod merging;
mod reach;
#[cfg(test)]
mod tests;

pub use reach::Reach;
