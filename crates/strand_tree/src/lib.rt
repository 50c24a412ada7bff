//! Strands of tasks, placed in the English and the Hebrew list as structural events make them.
//!
//! `spawn`, `create`, `sync` and `get` put new strands into the lists of any `Placer`: where these were the two orders
//! of some structural events, they are those of the events with one more. `precedes` tells from the sides of two strands
//! of one future whether a path inside that future leads from one to the other (SP-order, Bender and others 2004).
#![tactic(auto)]

mod placing;
mod strand;
#[cfg(test)]
mod tests;

pub use placing::{create, get, spawn, sync};
pub use strand::{Strand, precedes, root};
