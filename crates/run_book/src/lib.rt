//! The container of a run's structural events. All spawns, creates, syncs, gets and ends go by it, under one lock: each is
//! decided by what the book has, drawn, and kept, so that it is one legal step at its ticket. Tasks that wait are parked here.
//!
//! A call takes a job whole, and answers what became of it (`Stepped`). It asks for all memory and decides; a sync or a get
//! decides when the book's holder was told what the job knows. Then it draws the ticket; from there on nothing can fail. No
//! call looks through the tasks of the run: each goes to the line of its own task, and on to those that this line names.
#![tactic(auto)]

pub mod book;
pub mod ending;
pub mod finishing;
pub mod forking;
pub mod going_on;
pub mod job;
pub mod line;
pub mod stepped;
