//! The seat of a task: where it waits for its children, and where others wait for its value.
ghost use Rattle.std.specs.Prelude.{◌≡◌, ◌-◌, ◌^◌, ◌<◌, None, OnOk, OnErr};
ghost use Rattle.fut_engine.specs.Seats.{awaited_by, begun, freed, gone_for, joined, new_seat, put_in, sits, told};

use fut_base::list::NoMemory;
use fut_base::ready::Ready;
use fut_base::record::Value;
use future_cell::cell::FutureCell;
use future_cell::joining::Joining;
use std::alloc::Global;

/// Of a task: the task that spawned it, none for `main` and a future; its value, with the tasks that wait for it; how many
/// children of its block have not ended, and itself while it waits for them; and what it went to wait for since its last
/// event, its children or a future.
#[derive(Drop)]
pub struct Seat {
    pub parent: Option<u32>,
    pub awaited: FutureCell<Value, u32>,
    pub children: Joining<u32>,
    pub waits: Option<Option<u32>>,
}

/// The seat of a task that begins.
pub fn seat_of(alloc: Global, parent: Option<u32>) -> Seat
    ensures { result ≡ new_seat parent }
{
    Seat {
        parent,
        awaited: FutureCell::make(alloc),
        children: Joining::make(),
        waits: None,
    }
}

/// The task makes an event.
pub fn go_on(seat: &mut Seat)
    ensures { seat.new ≡ freed seat.old }
{
    seat.waits = None;
}

/// The task spawns a child.
pub fn begin(seat: &mut Seat)
    requires { seat.old.children.count < 2 ^ 32 - 1 }
    ensures { seat.new ≡ begun seat.old }
{
    seat.children.begin();
    seat.waits = None;
}

/// The task ends with a value. Those who wait for it are handed out.
pub fn put(seat: &mut Seat, value: Value) -> Ready<u32>
    requires { seat.old.awaited.value ≡ None }
    ensures waiters { result.items ≡ seat.old.awaited.waiters }
    ensures ended { seat.new ≡ put_in value seat.old }
{
    seat.waits = None;
    seat.awaited.put(value)
}

/// A child of the task has ended. The task is handed out where it was the last and the task waits.
pub fn tell(seat: &mut Seat) -> Option<u32>
    requires { 0 < seat.old.children.count }
    ensures joined { result ≡ joined seat.old.children.count seat.old.children.waiter }
    ensures told { seat.new ≡ told seat.old }
{
    seat.children.done()
}

/// The task goes to wait for its children.
pub fn sit(seat: &mut Seat, task: u32)
    requires { (seat.old.children.waiter ≡ None) × (0 < seat.old.children.count) }
    ensures { seat.new ≡ sits task seat.old }
{
    seat.children.wait(task);
    seat.waits = Some(None);
}

/// Another task waits for the value of this one. `NoMemory` changes nothing.
pub fn wait(seat: &mut Seat, task: u32) -> Result<(), NoMemory>
    requires { seat.old.awaited.value ≡ None }
    ensures awaited { OnOk result (seat.new ≡ awaited_by task seat.old) }
    ensures unchanged { OnErr result (seat.new ≡ seat.old) }
{
    match seat.awaited.wait(task) {
        Ok(()) => Ok(()),
        Err(_) => Err(NoMemory),
    }
}

/// The task goes to wait for a future.
pub fn go_for(seat: &mut Seat, future: u32)
    ensures { seat.new ≡ gone_for future seat.old }
{
    seat.waits = Some(Some(future));
}
