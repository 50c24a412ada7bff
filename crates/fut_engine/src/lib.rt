//! A run of a program on 1 to 64 workers that steal tasks from each other. All events are made behind one lock.
//!
//! `run` is what the layer above uses. A job of the pool is the number of a task. A worker's turn passes the gate, takes the
//! lock, and makes one event of its task by `Whole::event`; the tasks that go on are its next jobs. A task that has to wait
//! gives no job: it stands at a seat (`seat`), in that of the future whose value it wants or in its own where it waits for its
//! children, until the event that makes its wish allowed hands it out again. A turn that is spent, or finds no memory, stops
//! the workers. Whatever they leave, the caller makes the events that are left, the first task in English order always next
//! (`Whole::rest`): no run is stuck, so that goes on until every task has ended or an event is spent.
//!
//! What a worker saw under the lock is not known of the value behind it later. So that value's type says all that is known:
//! the history is legal, the machine and the races are those of the history, and each task that waits stands where it will
//! be woken. The type names the code and the limits of its run by a type parameter (`naming`); `run` picks both.
#![tactic(auto)]

pub mod laws;
pub mod made;
pub mod naming;
mod rest;
pub mod run;
mod seat;
mod seats;
mod shared;
mod sharing;
#[cfg(test)]
mod tests;
mod turn;
pub mod whole;
