//! Turning a job and all that come of it on several workers.
ghost use Rattle.std.specs.Prelude.{◌≡◌, ℕ, ◌+◌, ◌-◌, ◌*◌, ◌<◌, ◌≤◌, [], ◌∷◌, length, map, All, IfOk, MatchBool, false, slice_index_or};
ghost use Rattle.std.specs.List.{list_any};
ghost use denote.Param.Send.{IsSync};
ghost use Rattle.steal_pool.specs.Workers.{Worked, LeavesOnlyIfStopped};
ghost use Rattle.steal_pool.specs.AllWorkers.{AllWorked, HaveAllPasses, RanAll, IsOver};
ghost use Rattle.steal_pool.specs.Runs.{TurnedOrLeft};

use crate::gather::{gather, has_stopped, left_jobs, return_owns};
use crate::sleep::Sleep;
use crate::start::start_workers;
use crate::work::{Body, turn_own, work};
use crate::worker::Worker;
use fut_base::list::NoMemory;
use fut_base::ready::Ready;
use std::alloc::Global;
use std::sync::Wait;
use std::thread;
use std::thread::Threads;

/// What a run leaves: the jobs that were not turned, and the workers' own values in their order.
#[derive(Drop)]
pub struct Left<J, W> {
    pub jobs: Ready<J>,
    pub owns: Ready<W>,
}

/// Turns the first job and all jobs that turns give, on as many workers as there are values in `owns`; each worker is
/// lent one of them in all its turns. All workers stop once a turn said halt or a push was refused.
///
/// Where the answer is `Ok`, each worker's value comes back as its last turn left it, and each job was turned once or
/// stands once in `jobs`; jobs are left only after a halt. The answer is `NoMemory` where the deques or the list of the
/// jobs that are left find no memory, and where a push was refused, whatever the deque's reason. Then all jobs that were
/// not turned and all values are dropped.
pub fn run_jobs<J: Send + Drop, W: Send + Drop, B: Body<J, W> + Sync, R: Threads + Wait + Sync>(
    rt: &R,
    alloc: Global,
    owns: Ready<W>,
    first: J,
    body: &B,
) -> Result<Left<J, W>, NoMemory>
    requires { (0 < length owns.items) × (length owns.items ≤ 64) }
    ensures { IfOk result (λ left. TurnedOrLeft (B.turned body.now) first owns.items left.jobs.items left.owns.items) }
{
    let mut owns = owns;
    let mut workers = start_workers(alloc, &mut owns, first)?;
    run_all(rt, alloc, body, workers.as_mut_slice());
    let jobs = left_jobs(rt, alloc, workers.as_mut_slice())?;
    return_owns(workers, &mut owns);
    Ok(Left { jobs, owns })
}

// Turns jobs on all workers until no job is left or one has stopped.
fn run_all<J: Send + Drop, W: Send, B: Body<J, W> + Sync, R: Threads + Wait + Sync>(
    rt: &R,
    alloc: Global,
    body: &B,
    workers: &mut [Worker<J, W>],
)
    requires { All LeavesOnlyIfStopped workers.old × HaveAllPasses workers.old }
    ensures ran { RanAll (B.turned body.now) workers.old workers.new }
    ensures over { IsOver workers.new }
{
    run_workers(rt, body, workers);
    gather(alloc, workers);
    turn_rest(rt, body, workers);
}

// All workers turn jobs, each in a thread of its own where one can be made.
fn run_workers<J: Send + Drop, W: Send, B: Body<J, W> + Sync, R: Threads + Wait + Sync>(
    rt: &R,
    body: &B,
    workers: &mut [Worker<J, W>],
)
    requires { All LeavesOnlyIfStopped workers.old }
    ensures worked { AllWorked (B.turned body.now) workers.old workers.new }
    ensures pushed { All LeavesOnlyIfStopped workers.new }
{
    let sleep = Sleep::make(workers.len() as u64);
    let sleep = &sleep;
    thread::for_each_mut(
        rt,
        workers,
        64,
        &|_, worker: &mut Worker<J, W>|
            requires { IsSync R.row × IsSync B.row × LeavesOnlyIfStopped worker.now }
            ensures { Worked (B.turned body.entry.now) worker.entry.now [] worker.exit.now [] × LeavesOnlyIfStopped worker.exit.now }
        { work(rt, sleep, body, worker) },
    );
}

// The caller turns what is left in the deques, one deque after the other, until a worker has stopped.
fn turn_rest<J: Drop, W, B: Body<J, W>, R: Wait>(rt: &R, body: &B, workers: &mut [Worker<J, W>])
    requires { All LeavesOnlyIfStopped workers.old }
    ensures worked { AllWorked (B.turned body.now) workers.old workers.new }
    ensures over { IsOver workers.new }
{
    for k in 0..workers.len() {
        if has_stopped(workers) {
            return;
        }
        turn_own(rt, body, &mut workers[k]);
    }
}
