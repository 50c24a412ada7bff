//! After a run: the passes come back to the workers whose deques they are to, and what is left is taken.
ghost use Rattle.std.specs.Prelude.{◌≡◌, ◌⊎◌, ◌+◌, ◌-◌, ◌*◌, ◌<◌, ◌≤◌, [], ◌∷◌, length, map, All, IfOk, None, true};
ghost use Rattle.std.specs.List.{list_any};
ghost use Rattle.std.specs.Option.{option_to_list};
ghost use Rattle.steal_pool.specs.Workers.{Moved, HasNothingLeft};
ghost use Rattle.steal_pool.specs.AllWorkers.{HaveAllPasses, AreGathered, Absorbs, IsReturned, AllMoved, IsWhole, IsOver, AreLeft, SomeStopped};

use crate::deque::Victim;
use crate::worker::Worker;
use fut_base::list::NoMemory;
use fut_base::ready::Ready;
use std::alloc::Global;
use std::mem;
use std::sync::Wait;

/// All passes come back, so that each worker has all parts of its own deque.
pub(crate) fn gather<J: Drop, W>(alloc: Global, workers: &mut [Worker<J, W>])
    requires { HaveAllPasses workers.old }
    ensures { AreGathered workers.old workers.new }
{
    for w in 0..workers.len() {
        let row = mem::replace(&mut workers[w].thief.victims, Vec::new(alloc));
        absorb_row(workers, row);
    }
}

// The passes of one worker come back.
fn absorb_row<J: Drop, W>(workers: &mut [Worker<J, W>], row: Vec<Victim<J>>)
    requires { IsReturned workers.old row.items }
    ensures { Absorbs workers.old row.items workers.new }
{
    let mut rest = row;
    while let Some(victim) = rest.pop() {
        workers[rest.len()].thief.own.absorb(victim);
    }
}

/// The jobs that are left: none, but where a turn said halt. `NoMemory` also where a push was refused.
pub(crate) fn left_jobs<J: Drop, W, R: Wait>(
    rt: &R,
    alloc: Global,
    workers: &mut [Worker<J, W>],
) -> Result<Ready<J>, NoMemory>
    requires { IsOver workers.old }
    ensures { IfOk result (λ jobs. AreLeft workers.old workers.new jobs.items) }
{
    if has_refused(workers) {
        return Err(NoMemory);
    }
    let mut jobs = Ready::make(alloc);
    if !has_halted(workers) {
        return Ok(jobs);
    }
    drain_all(rt, workers, &mut jobs)?;
    Ok(jobs)
}

// All jobs that the workers have in their deques, or were about to turn, or left.
fn drain_all<J: Drop, W, R: Wait>(
    rt: &R,
    workers: &mut [Worker<J, W>],
    jobs: &mut Ready<J>,
) -> Result<(), NoMemory>
    ensures { IfOk result (λ _. AllMoved workers.old jobs.old.items workers.new jobs.new.items × All HasNothingLeft workers.new) }
{
    for k in 0..workers.len() {
        drain(rt, &mut workers[k], jobs)?;
    }
    Ok(())
}

fn drain<J: Drop, W, R: Wait>(
    rt: &R,
    worker: &mut Worker<J, W>,
    jobs: &mut Ready<J>,
) -> Result<(), NoMemory>
    ensures { IfOk result (λ _. Moved worker.old jobs.old.items worker.new jobs.new.items × HasNothingLeft worker.new) }
{
    for _ in rt.forever() {
        let Some(job) = take_job(worker) else {
            return Ok(());
        };
        jobs.reserve()?;
        jobs.push(job);
    }
    unreachable!()
}

// A job that the worker was about to turn, or left, or the first of its deque.
fn take_job<J: Drop, W>(worker: &mut Worker<J, W>) -> Option<J>
    ensures moved { Moved worker.old [] worker.new (option_to_list result) }
    ensures none { result ≡ None → HasNothingLeft worker.new }
{
    if let Some(job) = worker.next.take() {
        return Some(job);
    }
    if let Some(job) = worker.left.pop() {
        return Some(job);
    }
    worker.thief.pop()
}

/// Whether a worker has stopped the run.
pub(crate) fn has_stopped<J, W>(workers: &[Worker<J, W>]) -> bool
    ensures { result ≡ true → SomeStopped workers.now }
{
    has_halted(workers) || has_refused(workers)
}

fn has_halted<J, W>(workers: &[Worker<J, W>]) -> bool
    ensures { result ≡ list_any (λ m. m.halted) workers.now }
{
    workers.iter().any(|m| m.halted)
}

fn has_refused<J, W>(workers: &[Worker<J, W>]) -> bool
    ensures { result ≡ list_any (λ m. m.refused) workers.now }
{
    workers.iter().any(|m| m.refused)
}

/// The values of the workers, in their order.
pub(crate) fn return_owns<J: Drop, W: Drop>(workers: Vec<Worker<J, W>>, owns: &mut Ready<W>)
    requires { (owns.old.items ≡ []) × (length workers.items ≤ owns.old.spare) }
    ensures { owns.new.items ≡ map (λ m. m.own) workers.items }
{
    let mut rest = workers.into_iter();
    while let Some(worker) = rest.next() {
        let Worker { own, .. } = worker;
        owns.push(own);
    }
}
