//! A pool of workers that steal jobs from each other.
//!
//! `run_jobs` turns a first job, and all jobs that turns give, on 1 to 64 workers. What is done with a job is the caller's
//! `Body`; its member `turned` is the contract of a turn, and what `run_jobs` says of a run is said by it. A worker has a
//! value of its own, which is lent to each of its turns and comes back in the end. Each job is turned once; where a turn says
//! halt, all workers stop, and each job that is left comes back once.
//!
//! ```text
//! struct Countdown { alloc: Global }
//!
//! impl Body<u32, u64> for Countdown {
//!     ghost turned = { λ self worker own job more halt own'. (halt ≡ false) × (own' ≡ (own + job) % 2 ^ 64) };
//!
//!     fn turn<R: Wait>(&self, _rt: &R, _worker: u32, own: &mut u64, job: u32) -> Turned<u32> {
//!         *own = own.wrapping_add(job as u64);
//!         let mut more = Ready::make(self.alloc);
//!         if job > 0 { more.push(job - 1); }
//!         Turned { more, halt: false }
//!     }
//! }
//!
//! let left = run_jobs(rt, alloc, owns, 10, &Countdown { alloc })?;
//! ```
//!
//! The layer above uses `pool::run_jobs`, `Body` and `Turned`. Below it, for whoever wants deques without a pool, `thief`
//! has a worker's deque with its tokens to those of the others: a worker pushes at the end of its own deque, and takes the
//! first job of its own or of another's. In a run a worker goes on with the first job that its turn gave, and pushes the
//! others. `tally` has the rule that the deques keep, by which no job is lost; `sleep` says when workers sleep, wake and
//! stop, and why no wake-up is lost.
#![tactic(auto)]

pub mod deque;
mod gather;
pub mod pool;
mod sleep;
mod start;
pub mod tally;
pub mod thief;
mod work;
mod worker;

pub use work::{Body, Turned};

#[cfg(test)]
mod tests;
