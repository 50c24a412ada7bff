//! The deques as a worker sees them: its own, and those of its victims.
//!
//! Each is a deque of `crossbeam_deque` with a permission token, which knows what its holder has put in and taken out
//! (`Tally`), and a count of the times at which the deque was found empty. The deque's view of its tokens stays as it is
//! where nothing is taken, so the count stands beside the token; nothing but `pop` and `steal` here raises it, and they do
//! where the deque told that it was empty at a moment of the call.
ghost use Rattle.std.specs.Prelude.{◌≡◌, ◌<◌};
ghost use Rattle.crossbeam_deque.specs.Handles.{view, IsPassOf, worker_view, worker_flavor, stealer_deque, stealer_flavor};

use crate::tally::{Balance, Merge, Puts, SplitOff, Takes, Tally};
use crossbeam_deque::{Pass, Steal, Stealer, Worker};
use crossbeam_utils::Backoff;
use fut_base::list::NoMemory;
use std::alloc::Global;
use std::sync::Wait;

// The slots of a deque at first.
const CAPACITY: usize = 64;

/// A worker's own deque, and how often it was found empty there.
#[derive(Drop)]
pub struct OwnDeque<J> {
    pub(crate) deque: Worker<J, Global, Tally<J>, Balance>,
    pub(crate) found_empty: u64,
    ghost fifo: { worker_flavor deque ≡ 0 },
    ghost part: { 0 < (worker_view deque).parts },
}

/// A deque that may be stolen from, and how often the deque was found empty there.
#[derive(Drop)]
pub struct Victim<J> {
    pub(crate) stealer: Stealer<J, Global, Tally<J>, Balance>,
    pub(crate) pass: Pass<J, Tally<J>, Global>,
    pub(crate) found_empty: u64,
    ghost fifo: { stealer_flavor stealer ≡ 0 },
    ghost table: { IsPassOf (stealer_deque stealer) pass },
    ghost part: { 0 < (view pass).parts },
}

impl<J: Drop> OwnDeque<J> {
    ghost use Rattle.std.specs.Prelude.{[], IfOk};
    ghost use Rattle.steal_pool.specs.Balance.{tally, joined};
    ghost use Rattle.steal_pool.specs.Deques.{own_tally, own_id, victim_tally, victim_id};

    /// An empty deque.
    pub(crate) fn make(alloc: Global) -> Result<OwnDeque<J>, NoMemory>
        ensures { IfOk result (λ o. (own_tally o ≡ tally 65 [] []) × (o.found_empty ≡ 0)) }
    {
        let deque = Worker::fifo_as(alloc, CAPACITY)?;
        Ok(OwnDeque {
            deque,
            found_empty: 0,
        })
    }

    /// What a pass knows is known here.
    pub(crate) fn absorb(&mut self, victim: Victim<J>)
        requires { victim_id victim ≡ own_id self.old }
        ensures same { (own_id self.new ≡ own_id self.old) × (self.new.found_empty ≡ self.old.found_empty) }
        ensures rule { own_tally self.new ≡ joined (own_tally self.old) (victim_tally victim) }
    {
        let Victim {
            stealer: _,
            pass,
            found_empty: _,
        } = victim;
        self.deque.absorb::<Merge>(pass);
    }
}

impl<J> OwnDeque<J> {
    ghost use Rattle.std.specs.Prelude.{IfOk};
    ghost use Rattle.steal_pool.specs.Deques.{own_tally, own_id, SplitsOff, PutLast, TookFirst};

    /// A new pass to this deque.
    pub(crate) fn victim(&mut self) -> Result<Victim<J>, NoMemory>
        requires { 1 < (own_tally self.old).parts }
        ensures same { (own_id self.new ≡ own_id self.old) × (self.new.found_empty ≡ self.old.found_empty) }
        ensures rule { IfOk result (SplitsOff self.old self.new) }
    {
        let stealer = self.deque.stealer()?;
        let pass = self.deque.another::<SplitOff>();
        Ok(Victim {
            stealer,
            pass,
            found_empty: 0,
        })
    }

    /// Adds the job at the end.
    pub fn push(&mut self, job: J) -> Result<(), J>
        ensures same { (own_id self.new ≡ own_id self.old) × (self.new.found_empty ≡ self.old.found_empty) }
        ensures rule { PutLast (own_tally self.old) job (own_tally self.new) result }
    {
        self.deque.push_as::<Puts>(job)
    }

    /// Takes the first job.
    pub fn pop(&mut self) -> Option<J>
        ensures same { own_id self.new ≡ own_id self.old }
        ensures rule { TookFirst (own_tally self.old) self.old.found_empty (own_tally self.new) self.new.found_empty result }
    {
        let job = self.deque.pop_as::<Takes>();
        if job.is_none() {
            self.found_empty = self.found_empty.saturating_add(1);
        }
        job
    }
}

impl<J> Victim<J> {
    ghost use Rattle.steal_pool.specs.Deques.{victim_tally, victim_id, TookFirst};

    /// Takes the first job; where the deque asks for another try, it tries again.
    pub fn steal<R: Wait>(&mut self, rt: &R) -> Option<J>
        ensures same { victim_id self.new ≡ victim_id self.old }
        ensures rule { TookFirst (victim_tally self.old) self.old.found_empty (victim_tally self.new) self.new.found_empty result }
    {
        let backoff = Backoff::new();
        for _ in rt.forever() {
            match self.stealer.steal_as::<Takes>(&mut self.pass) {
                Steal::Success(job) => return Some(job),
                Steal::Empty => {
                    self.found_empty = self.found_empty.saturating_add(1);
                    return None;
                }
                Steal::Retry => backoff.snooze(),
            }
        }
        unreachable!()
    }
}
