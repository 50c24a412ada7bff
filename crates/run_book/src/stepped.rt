//! What became of a job.
use fut_base::ready::Ready;
use fut_base::record::Finish;

/// What an event of a job led to. In `Spent` and `NoMemory` the job is handed back.
#[derive(Drop)]
pub enum Stepped<T> {
    /// The event was made, and these go on.
    Went { jobs: Ready<T> },
    /// It waits in the book.
    Parked,
    /// The run is over its limits.
    Spent { job: T, finish: Finish },
    NoMemory { job: T },
}
