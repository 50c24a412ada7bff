//! What a worker does.
ghost use Rattle.std.specs.Prelude.{◌≡◌, ℕ, Bool, [], ◌∷◌, List, None, IfSome, ◌⊎◌, length, ◌≤◌};
ghost use Rattle.std.specs.Option.{option_to_list};
ghost use Rattle.steal_pool.specs.Thieves.{Transfers};
ghost use Rattle.steal_pool.specs.Balance.{WasEmpty};
ghost use Rattle.steal_pool.specs.Deques.{own_tally};
ghost use Rattle.steal_pool.specs.Workers.{Moved, Worked, LeavesOnlyIfStopped, IsStopped, IsFree, HasNothingLeft};

use crate::sleep::Sleep;
use crate::thief::Thief;
use crate::worker::Worker;
use crossbeam_utils::Backoff;
use fut_base::ready::Ready;
use std::sync::Wait;

/// What a turn gives: jobs, and whether the run is to stop.
pub struct Turned<J> {
    pub more: Ready<J>,
    pub halt: bool,
}

/// What is done with a job.
pub trait Body<J, W> {
    /// Of a worker's number, its own value before, the job, the jobs that it gives, whether it says halt, and the
    /// value after.
    ghost turned: { Self → ℕ → W → J → List J → Bool → W → Type 0 };

    /// One turn: worker `worker` does a job with its own value.
    fn turn<R: Wait>(&self, rt: &R, worker: u32, own: &mut W, job: J) -> Turned<J>
        ensures { turned self.now worker own.old job result.more.items result.halt own.new };
}

/// Turns jobs until no job is left or one worker has stopped all.
pub(crate) fn work<J: Drop, W, B: Body<J, W>, R: Wait>(
    rt: &R,
    sleep: &Sleep,
    body: &B,
    worker: &mut Worker<J, W>,
)
    requires { LeavesOnlyIfStopped worker.old }
    ensures worked { Worked (B.turned body.now) worker.old [] worker.new [] }
    ensures pushed { LeavesOnlyIfStopped worker.new }
{
    sleep.start();
    for _ in rt.forever() {
        let Some(job) = next_job(rt, sleep, worker) else {
            return;
        };
        turn_job(rt, sleep, body, worker, job);
    }
    unreachable!()
}

/// Turns the jobs of its own deque until that is empty or the worker has stopped. Nobody steals meanwhile.
pub(crate) fn turn_own<J: Drop, W, B: Body<J, W>, R: Wait>(
    rt: &R,
    body: &B,
    worker: &mut Worker<J, W>,
)
    requires { LeavesOnlyIfStopped worker.old }
    ensures worked { Worked (B.turned body.now) worker.old [] worker.new [] }
    ensures end { IsStopped worker.new ⊎ HasNothingLeft worker.new }
{
    let sleep = Sleep::make(1);
    for _ in rt.forever() {
        if worker.has_stopped() {
            return;
        }
        let Some(job) = own_job(worker) else {
            return;
        };
        turn_job(rt, &sleep, body, worker, job);
    }
    unreachable!()
}

// The job to turn next, its own or a stolen one; none once the worker or the run has stopped.
fn next_job<J: Drop, W, R: Wait>(rt: &R, sleep: &Sleep, worker: &mut Worker<J, W>) -> Option<J>
    requires { LeavesOnlyIfStopped worker.old }
    ensures moved { Moved worker.old [] worker.new (option_to_list result) }
    ensures same { (worker.new.left ≡ worker.old.left) × (worker.new.halted ≡ worker.old.halted) × (worker.new.refused ≡ worker.old.refused) }
    ensures free { IfSome result (λ _. IsFree worker.new) }
{
    if worker.has_stopped() || sleep.has_stopped() {
        return None;
    }
    if let Some(job) = own_job(worker) {
        return Some(job);
    }
    find_job(rt, sleep, &mut worker.thief, worker.number)
}

// The job to go on with, or the first of its own deque.
fn own_job<J: Drop, W>(worker: &mut Worker<J, W>) -> Option<J>
    ensures moved { Moved worker.old [] worker.new (option_to_list result) }
    ensures same { (worker.new.left ≡ worker.old.left) × (worker.new.halted ≡ worker.old.halted) × (worker.new.refused ≡ worker.old.refused) }
    ensures free { worker.new.next ≡ None }
    ensures none { result ≡ None → WasEmpty (own_tally worker.new.thief.own) }
{
    if let Some(job) = worker.next.take() {
        return Some(job);
    }
    worker.thief.pop()
}

// A job of another worker, or none once all stop.
fn find_job<J: Drop, R: Wait>(rt: &R, sleep: &Sleep, thief: &mut Thief<J>, number: u32) -> Option<J>
    ensures { Transfers thief.old thief.new [] (option_to_list result) }
{
    let backoff = Backoff::new();
    for _ in rt.forever() {
        if sleep.has_stopped() {
            return None;
        }
        if let Some(job) = steal_any(rt, thief, number) {
            return Some(job);
        }
        if !backoff.is_completed() {
            backoff.snooze();
            continue;
        }
        if let Some(job) = find_or_sleep(rt, sleep, thief, number) {
            return Some(job);
        }
        backoff.reset();
    }
    unreachable!()
}

// A job that the last look before a sleep finds; else none, after the sleep.
fn find_or_sleep<J: Drop, R: Wait>(
    rt: &R,
    sleep: &Sleep,
    thief: &mut Thief<J>,
    number: u32,
) -> Option<J>
    ensures { Transfers thief.old thief.new [] (option_to_list result) }
{
    let seen = sleep.announce();
    let job = steal_any(rt, thief, number);
    if job.is_some() {
        sleep.retract();
    } else {
        sleep.sleep(rt, seen);
    }
    job
}

// Steals from the workers with greater numbers, then from those with lesser ones.
fn steal_any<J: Drop, R: Wait>(rt: &R, thief: &mut Thief<J>, number: u32) -> Option<J>
    ensures { Transfers thief.old thief.new [] (option_to_list result) }
{
    let count = thief.count();
    let place = number.min(count);
    if let Some(job) = steal_among(rt, thief, place, count) {
        return Some(job);
    }
    steal_among(rt, thief, 0, place)
}

fn steal_among<J: Drop, R: Wait>(rt: &R, thief: &mut Thief<J>, from: u32, to: u32) -> Option<J>
    requires { to ≤ length thief.old.victims.items }
    ensures { Transfers thief.old thief.new [] (option_to_list result) }
{
    for victim in from..to {
        if let Some(job) = thief.steal(rt, victim) {
            return Some(job);
        }
    }
    None
}

// Turns a job, goes on with the first that the turn gives, and pushes the others.
fn turn_job<J: Drop, W, B: Body<J, W>, R: Wait>(
    rt: &R,
    sleep: &Sleep,
    body: &B,
    worker: &mut Worker<J, W>,
    job: J,
)
    requires { IsFree worker.old }
    ensures worked { Worked (B.turned body.now) worker.old (job ∷ []) worker.new [] }
    ensures pushed { LeavesOnlyIfStopped worker.new }
{
    let Turned { mut more, halt } = body.turn(rt, worker.number, &mut worker.own, job);
    if halt {
        worker.halted = true;
        worker.left = more;
        sleep.stop();
        return;
    }
    worker.next = more.pop();
    push_all(sleep, worker, more);
}

// Pushes the jobs. Where a push is refused they are left.
fn push_all<J: Drop, W>(sleep: &Sleep, worker: &mut Worker<J, W>, jobs: Ready<J>)
    requires { worker.old.left.items ≡ [] }
    ensures moved { Moved worker.old jobs.items worker.new [] }
    ensures pushed { LeavesOnlyIfStopped worker.new }
{
    let mut rest = jobs;
    while let Some(job) = rest.pop() {
        if let Err(back) = worker.thief.push(job) {
            rest.push(back);
            worker.left = rest;
            worker.refused = true;
            sleep.stop();
            return;
        }
        sleep.pushed();
    }
}
