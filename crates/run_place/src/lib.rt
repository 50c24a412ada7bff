//! Where a task stands in a run on workers: its strand and the table of that strand, a pass that carries it from worker to
//! worker, and a reader of the orders.
//!
//! All four tell of one list of structural events, those that the pass knows of holder 0 (`book_of`). The strand is one of that
//! list, and the table is its table there; the reader's log gives the two orders of that list. This is the invariant of
//! `Place`, so it is known of a place wherever it comes from, and it stays when the place learns more (`Place::learn`).
//!
//! An event of a task at another holder goes so: `Place::split` gives a pass with the task and a reader, which the holder is
//! told; then the ticket is drawn; then a note of that holder comes back with the task, with a reader, to `learn`.
#![tactic(auto)]

mod place;
#[cfg(test)]
mod tests;

pub use place::Place;
