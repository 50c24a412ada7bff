//! What the workers share, and the turn of a worker.
ghost use Rattle.std.specs.Prelude.{◌≡◌};

use crate::made::Made;
use crate::naming::Naming;
use crate::whole::Whole;
use crossbeam_utils::Backoff;
use fut_base::gate::Gate;
use fut_base::ready::Ready;
use std::alloc::Global;
use std::marker::Model;
use std::sync::{Mutex, Wait};
use steal_pool::{Body, Turned};
use task_code::code::Code;

/// What lends code. The only one is code itself.
pub trait Lends {
    ghost use Rattle.task_code.specs.Flat.{Compiled};

    ghost lent: { Self → Compiled };

    fn lend(&self) -> &Code
        ensures { result.now ≡ lent self.now };
}

impl Lends for Code {
    ghost lent = { λ code. code };

    fn lend(&self) -> &Code {
        self
    }
}

/// The run behind its lock, with the code that it names, and the gate.
#[derive(Drop)]
pub struct Sharing<'a, J: Naming, C: Lends, G> {
    pub alloc: Global,
    pub whole: &'a Mutex<Whole<J>>,
    pub code: &'a C,
    pub gate: &'a G,
}

impl<'a, J: Naming, C: Lends, G> Model for Sharing<'a, J, C, G> {
    ghost use Rattle.std.specs.Prelude.{◌≡◌, ℕ};

    ghost Value = { ℕ };

    ghost view = { λ _. 0 };

    ghost invariant = { λ s. C.lent s.code.now ≡ J.code };
}

// How often a worker tries to take the lock before it may sleep for it.
const TRIES: u32 = 64;

/// The event of a task, made under the lock. An event takes less time than to put a worker to sleep and to wake it, so a
/// worker that finds the lock taken tries again for a while, with longer and longer pauses.
fn event<J: Naming, C: Lends, G, R: Wait>(
    rt: &R,
    sharing: &Sharing<'_, J, C, G>,
    task: u32,
) -> Made {
    let backoff = Backoff::new();
    for _try in 0..TRIES {
        if let Some(mut whole) = sharing.whole.try_lock() {
            return whole.event(sharing.code.lend(), task);
        }
        backoff.snooze();
    }
    sharing.whole.lock(rt).event(sharing.code.lend(), task)
}

// A worker's own value is the number of events that it has made.
impl<'a, J: Naming, C: Lends, G: Gate> Body<u32, u32> for Sharing<'a, J, C, G> {
    ghost turned = { λ s w o j m h n. Unit {0} };

    fn turn<R: Wait>(&self, rt: &R, worker: u32, own: &mut u32, job: u32) -> Turned<u32> {
        self.gate.pass(worker, *own);
        match event(rt, self, job) {
            Made::Went { ready } => {
                *own = own.wrapping_add(1);
                Turned {
                    more: ready,
                    halt: false,
                }
            }
            Made::Parked | Made::Idle => Turned {
                more: Ready::make(self.alloc),
                halt: false,
            },
            Made::Spent { .. } | Made::NoMemory => {
                let mut more = Ready::make(self.alloc);
                more.push(job);
                Turned { more, halt: true }
            }
        }
    }
}
