//! What the container of a run's structural events counts with its workers. A job is a task that neither has ended nor waits
//! there; it is with some worker. Under a lock a job comes in, is decided of, and jobs go out; how many came in and went out
//! stands in two ledgers of std, of which each worker has a share in its hand (`Hand`). So when all hands come back, how many
//! jobs there are is known from what the hands say: none is lost.
//!
//! A third ledger bounds how often jobs come in with no event: a job has a pace (`Pace`) of 0 or 1, and goes to wait with a pace
//! of 1 only; when it goes on its pace is 0, until its next event. So no count comes near 2^64.
//!
//! `Counts` has a call for each way in which jobs come in and go out. None of them can be refused.
#![tactic(auto)]

mod books;
mod counts;
mod hand;
mod pace;
#[cfg(test)]
mod tests;

pub use counts::Counts;
pub use hand::Hand;
pub use pace::Pace;
