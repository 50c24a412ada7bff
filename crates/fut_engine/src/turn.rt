//! One turn of a task, on the parts of the value behind the lock.
ghost use Rattle.std.specs.Prelude.{◌≡◌, ◌≤◌, ◌<◌, [], IfOk, OnOk, vec_len, vec_capacity};
ghost use Rattle.fut_base.specs.Events.{events_of};
ghost use Rattle.fut_engine.specs.Turns.{KeepsTurning};
ghost use Rattle.fut_engine.specs.Wholes.{AlwaysHolds, IsNamed};

use crate::made::Made;
use crate::seat::Seat;
use crate::seats::{park, settle, wait_of};
use fut_base::list::NoMemory;
use fut_base::ready::Ready;
use fut_base::record::{History, Limits};
use run_replay::replay::{Next, Replay};
use std::alloc::Global;
use task_code::code::Code;

/// An empty list with room for two.
fn room_for_two(alloc: Global) -> Result<Ready<u32>, NoMemory>
    ensures { IfOk result (λ r. (r.items ≡ []) × (2 ≤ r.spare)) }
{
    let mut room = Ready::make(alloc);
    room.push(0u32);
    room.reserve()?;
    room.pop();
    Ok(room)
}

/// All memory that an event may need here: room for the tasks that go on, for the entry, and for the seat of a child.
fn make_room(
    alloc: Global,
    history: &mut History,
    seats: &mut Vec<Seat>,
) -> Result<Ready<u32>, NoMemory>
    ensures room { IfOk result (λ r. (r.items ≡ []) × (2 ≤ r.spare)) }
    ensures entry { OnOk result (1 ≤ history.new.spare) }
    ensures seat { OnOk result (vec_len seats.new < vec_capacity seats.new) }
    ensures same { (history.new.items ≡ history.old.items) × (seats.new.items ≡ seats.old.items) }
{
    history.reserve()?;
    seats.reserve(1)?;
    room_for_two(alloc)
}

/// The next event of a task is made, or the task goes to wait, or there is a reason why neither was done.
pub fn turn(
    alloc: Global,
    run: &mut Replay,
    history: &mut History,
    seats: &mut Vec<Seat>,
    code: &Code,
    limits: Limits,
    task: u32,
) -> Made
    requires name { IsNamed code.now limits }
    requires holds { AlwaysHolds code.now limits (events_of history.old) run.old seats.old.items }
    ensures { KeepsTurning code.now limits (events_of history.old) run.old seats.old.items task (events_of history.new) run.new seats.new.items result }
{
    if !run.runs(task) {
        return Made::Idle;
    }
    if wait_of(seats.as_slice(), task).is_some() {
        return Made::Idle;
    }
    let Ok(room) = make_room(alloc, history, seats) else {
        return Made::NoMemory;
    };
    match run.event(code, limits, task) {
        Next::Made { entry } => {
            let ready = settle(alloc, seats, task, &entry.act, room);
            history.push(entry);
            Made::Went { ready }
        }
        Next::Waits { future } => match park(seats, task, future) {
            Ok(()) => Made::Parked,
            Err(_) => Made::NoMemory,
        },
        Next::Idle => Made::Idle,
        Next::Spent { finish } => Made::Spent { finish },
        Next::NoMemory => Made::NoMemory,
    }
}
