//! What the next event of a task is, or why there is none.
use fut_base::ready::Ready;
use fut_base::record::Finish;

/// What came of the turn of a task.
#[derive(Drop)]
pub enum Made {
    /// Its event was made, and these tasks go on: of a spawn or create the child and then its maker; of an end those waiting
    /// tasks whose wish it makes allowed, the parent first; of the other acts the task.
    Went { ready: Ready<u32> },
    /// It waits from now on.
    Parked,
    /// It does not exist, has ended or waits.
    Idle,
    Spent { finish: Finish },
    NoMemory,
}
