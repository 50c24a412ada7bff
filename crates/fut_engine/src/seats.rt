//! The seats of all tasks by number.
ghost use Rattle.std.specs.Prelude.{◌≡◌, ◌≤◌, ◌<◌, [], ◌∷◌, None, OnOk, OnErr, is_some, slice_get, vec_len, vec_capacity};
ghost use Rattle.fut_base.specs.Events.{action_of};
ghost use Rattle.fut_engine.specs.declared.seat.Seat.{Seat as Seated};
ghost use Rattle.fut_engine.specs.Seats.{MayPark, MaySettle, Parks, Settles, SettlesEnd, TellsParent, CanTell, value_at, waits_for};

use crate::seat::{Seat, begin, go_for, go_on, put, seat_of, sit, tell, wait};
use fut_base::list::NoMemory;
use fut_base::ready::Ready;
use fut_base::record::{Act, Value};
use std::alloc::Global;

/// Whether a task has a value.
fn has_value(seats: &[Seat], task: u32) -> bool
    ensures { result ≡ is_some (value_at seats.now task) }
{
    match seats.get(task as usize) {
        Some(seat) => seat.awaited.look().is_some(),
        None => false,
    }
}

/// What a task waits for: its children, as `Some(None)`, or a future.
pub fn wait_of(seats: &[Seat], task: u32) -> Option<Option<u32>>
    ensures { result ≡ waits_for seats.now task }
{
    let seat = seats.get(task as usize)?;
    match seat.waits {
        None => None,
        Some(None) => {
            if seat.children.count() > 0 {
                Some(None)
            } else {
                None
            }
        }
        Some(Some(future)) => {
            if has_value(seats, future) {
                None
            } else {
                Some(Some(future))
            }
        }
    }
}

fn park_at(seats: &mut [Seat], task: u32, future: Option<u32>) -> Result<(), NoMemory>
    requires { MayPark seats.old task future }
    ensures parked { OnOk result (Parks seats.old task future seats.new) }
    ensures unchanged { OnErr result (seats.new ≡ seats.old) }
{
    match future {
        None => {
            sit(&mut seats[task as usize], task);
            Ok(())
        }
        Some(future) => {
            wait(&mut seats[future as usize], task)?;
            go_for(&mut seats[task as usize], future);
            Ok(())
        }
    }
}

/// A task goes to wait. `NoMemory` changes nothing.
pub fn park(seats: &mut Vec<Seat>, task: u32, future: Option<u32>) -> Result<(), NoMemory>
    requires { MayPark seats.old.items task future }
    ensures parked { OnOk result (Parks seats.old.items task future seats.new.items) }
    ensures unchanged { OnErr result (seats.new.items ≡ seats.old.items) }
{
    park_at(seats.as_mut_slice(), task, future)
}

/// A list of one task.
fn alone(room: Ready<u32>, task: u32) -> Ready<u32>
    requires { (room.items ≡ []) × (2 ≤ room.spare) }
    ensures { result.items ≡ task ∷ [] }
{
    let mut ready = room;
    ready.push(task);
    ready
}

/// A list of two tasks.
fn both(room: Ready<u32>, first: u32, second: u32) -> Ready<u32>
    requires { (room.items ≡ []) × (2 ≤ room.spare) }
    ensures { result.items ≡ first ∷ second ∷ [] }
{
    let mut ready = room;
    ready.push(first);
    ready.push(second);
    ready
}

/// The parent of a task that has ended is told so.
fn tell_parent(alloc: Global, seats: &mut [Seat], parent: u32) -> Ready<u32>
    requires { (q : Seated) × (slice_get seats.old parent ≡ Some q) × (0 < q.children.count) }
    ensures { TellsParent seats.old parent seats.new result.items }
{
    let mut ready = Ready::make(alloc);
    if let Some(task) = tell(&mut seats[parent as usize]) {
        ready.push(task);
    }
    ready
}

/// A task has ended. A spawned task has no handle, so nobody waits for its value where it has a parent.
fn end(alloc: Global, seats: &mut [Seat], task: u32, value: Value) -> Ready<u32>
    requires { (s : Seated) × (slice_get seats.old task ≡ Some s) × (s.awaited.value ≡ None) × CanTell seats.old task s.awaited.waiters s.parent }
    ensures { SettlesEnd seats.old task value seats.new result.items }
{
    let place = task as usize;
    let parent = seats[place].parent;
    let waiters = put(&mut seats[place], value);
    match parent {
        None => waiters,
        Some(parent) => tell_parent(alloc, seats, parent),
    }
}

/// What an act of a task changes. It takes no memory: there is a seat for a child, and room for two tasks that go on.
pub fn settle(
    alloc: Global,
    seats: &mut Vec<Seat>,
    task: u32,
    act: &Act,
    room: Ready<u32>,
) -> Ready<u32>
    requires room { (room.items ≡ []) × (2 ≤ room.spare) }
    requires spare { vec_len seats.old < vec_capacity seats.old }
    requires may { MaySettle seats.old.items task (action_of act.now) }
    ensures { Settles seats.old.items task (action_of act.now) seats.new.items result.items }
{
    let place = task as usize;
    match act {
        Act::Spawn { child, .. } => {
            begin(&mut seats[place]);
            seats.push_reserved(seat_of(alloc, Some(task)));
            both(room, *child, task)
        }
        Act::Create { child, .. } => {
            go_on(&mut seats[place]);
            seats.push_reserved(seat_of(alloc, None));
            both(room, *child, task)
        }
        Act::End { value } => end(alloc, seats.as_mut_slice(), task, *value),
        Act::Read { .. } | Act::Write { .. } | Act::Sync { .. } | Act::Get { .. } => {
            go_on(&mut seats[place]);
            alone(room, task)
        }
    }
}
