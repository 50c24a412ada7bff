//! The name of a run. What comes out of a lock or a deque is known by its type alone, so the types of what workers share
//! have one parameter, the name, by which contracts know the run's clock, orders, code, limits and ledgers.
//!
//! A name is chosen where a run begins: a function that is generic in its name is called with `Brand`, and the call picks the
//! members (`Run`). Every value of the run has the same name. The three ledgers of a run are `Given`, `Taken` and `Paces`.
#![tactic(auto)]

mod ledgers;
mod run;

pub use ledgers::{Given, Paces, Taken};
pub use run::Run;
