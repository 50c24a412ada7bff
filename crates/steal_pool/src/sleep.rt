//! When the workers of a run sleep, wake and stop. Which jobs are turned does not hang on any of it.
//!
//! A worker that finds no job pauses for longer and longer, looking at all deques between (`Backoff`), and then goes to
//! sleep, so a job that runs for a long time keeps one core busy and no more.
//!
//! # What a turn costs
//!
//! A worker loads `stopped` before each turn, and `sleepers` after each push. As long as nobody goes to sleep or wakes,
//! nobody writes these words, so each core keeps its copy of them. The words that workers do write when they go to sleep
//! lie on cache lines of their own.
//!
//! # Why no wake-up is lost
//!
//! Whoever goes to sleep takes these steps, in this order:
//!
//! 1. it reads `pushes`;
//! 2. it adds one to `sleepers`;
//! 3. it looks at all deques once more;
//! 4. it parks, if `pushes` is still what it read. The operating system compares the two and puts the worker to sleep in
//!    one step.
//!
//! Whoever pushes a job takes these:
//!
//! 1. it pushes the job;
//! 2. it reads `sleepers`, and is done if there are none;
//! 3. it adds one to `pushes`;
//! 4. it wakes one of those who are parked.
//!
//! All of these steps are sequentially consistent, so they have one order. If the push comes before the look at that
//! deque, the sleeper finds the job, or another worker has taken it. Else the look comes before the push, and so does the
//! sleeper's step 2; then the pusher sees a sleeper and adds to `pushes`. That comes after the sleeper's step 1. So the
//! sleeper either doesn't park, or is among those of whom the pusher wakes one. Each push wakes one worker at least while
//! any is parked. (A worker would have to miss exactly 2^32 pushes between its steps 1 and 4 to take the count for
//! unchanged.)
//!
//! `stop` sets `stopped`, then adds to `pushes`, then wakes all. A sleeper reads `stopped` after `pushes`, so it sees that
//! all stop, or it doesn't park, or it is woken.
//!
//! # How workers learn that no job is left
//!
//! `idle` counts the workers that have looked at all deques, found them empty, and not woken since; a worker that has not
//! started counts too, so a run for which no thread can be started ends as well. A worker pushes to its own deque alone,
//! and goes to sleep only after it found that empty. So when all are idle no worker has a job and every deque is empty, but
//! for that of a worker that never started; its first job, if it had one, was found by whoever looked there. The worker
//! that makes the count full stops the run.
use crossbeam_utils::CachePadded;
use std::sync::Wait;
use std::sync::atomic::{AtomicU64, Ordering};

/// What the workers of a run tell each other.
#[derive(Drop)]
pub(crate) struct Sleep {
    workers: u64,
    stopped: CachePadded<AtomicU64>,
    sleepers: CachePadded<AtomicU64>,
    pushes: CachePadded<AtomicU64>,
    idle: CachePadded<AtomicU64>,
}

impl Sleep {
    /// No worker has started.
    pub(crate) fn make(workers: u64) -> Sleep {
        Sleep {
            workers,
            stopped: CachePadded::new(AtomicU64::new(0)),
            sleepers: CachePadded::new(AtomicU64::new(0)),
            pushes: CachePadded::new(AtomicU64::new(0)),
            idle: CachePadded::new(AtomicU64::new(workers)),
        }
    }

    /// A worker starts.
    pub(crate) fn start(&self) {
        self.idle.fetch_sub(1, Ordering::SeqCst);
    }

    /// Whether no worker is to begin another turn.
    pub(crate) fn has_stopped(&self) -> bool {
        self.stopped.load(Ordering::SeqCst) > 0
    }

    /// All workers stop before their next turn.
    pub(crate) fn stop(&self) {
        self.stopped.store(1, Ordering::SeqCst);
        self.pushes.fetch_add(1, Ordering::SeqCst);
        self.pushes.wake_all();
    }

    /// A job was pushed.
    pub(crate) fn pushed(&self) {
        if self.sleepers.load(Ordering::SeqCst) > 0 {
            self.pushes.fetch_add(1, Ordering::SeqCst);
            self.pushes.wake_one();
        }
    }

    /// A worker means to sleep. It is to look at all deques once more, and to hand on what this call answers.
    pub(crate) fn announce(&self) -> u32 {
        let seen = self.pushes.load(Ordering::SeqCst) & 0xffff_ffff;
        self.sleepers.fetch_add(1, Ordering::SeqCst);
        seen as u32
    }

    /// It found a job instead.
    pub(crate) fn retract(&self) {
        self.sleepers.fetch_sub(1, Ordering::SeqCst);
    }

    /// It found none. It sleeps until a job is pushed or all stop, but may wake for no reason.
    pub(crate) fn sleep<R: Wait>(&self, rt: &R, seen: u32) {
        if self.idle.fetch_add(1, Ordering::SeqCst).wrapping_add(1) == self.workers {
            self.stop();
        }
        if !self.has_stopped() {
            self.pushes.park(rt, seen);
        }
        self.idle.fetch_sub(1, Ordering::SeqCst);
        self.sleepers.fetch_sub(1, Ordering::SeqCst);
    }
}
