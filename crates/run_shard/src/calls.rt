//! Reads and writes.
ghost use Rattle.std.specs.Prelude.{◌≡◌};
ghost use Rattle.run_shard.specs.Shards.{IsCellOf};
ghost use Rattle.run_shard.specs.Turns.{AreOfJob};
ghost use Rattle.run_shard.specs.Dids.{WishesRead, WishesWrite, HasRead, HasWritten};

use crate::access::access;
use crate::did::Did;
use crate::shard::{SHARDS, Shard};
use event_clock::clock::Clock;
use fut_base::record::{Act, Entry};
use order_query::Orders;
use run_names::Run;
use run_place::Place;
use std::sync::Wait;
use task_code::code::Code;
use task_code::task::Task;

impl<J: Run, const I: u32> Shard<J, I> {
    /// The task reads a cell. After `Spent` and `NoMemory` the task stands where it stood, and no value and nothing that is kept
    /// has changed.
    pub fn read<R: Wait>(
        &mut self,
        rt: &R,
        clock: &Clock,
        orders: &Orders,
        code: &Code,
        task: &mut Task,
        place: &mut Place<J>,
        cell: u32,
    ) -> Did
        requires run { (clock.now ≡ J.clock) × (orders.now ≡ J.orders) × (code.now ≡ J.code) }
        requires cell { IsCellOf J.code I cell }
        requires job { AreOfJob J.clock J.orders J.code task.old place.old }
        requires wish { WishesRead J.code task.old cell }
        ensures job { AreOfJob J.clock J.orders J.code task.new place.new }
        ensures did { HasRead J.clock.size.bound I cell self.old self.new task.old place.old task.new place.new result }
    {
        let at = (cell / SHARDS) as usize;
        let entry = Entry {
            task: task.number(),
            strand: place.at.number,
            act: Act::Read {
                cell,
                value: self.values[at],
            },
        };
        access(
            rt,
            clock,
            orders,
            code,
            &mut self.holder,
            &mut self.reader,
            &mut self.logs[at],
            task,
            place,
            entry,
        )
    }

    /// The task writes a value to a cell. After `Spent` and `NoMemory` the task stands where it stood, and no value and nothing
    /// that is kept has changed.
    pub fn write<R: Wait>(
        &mut self,
        rt: &R,
        clock: &Clock,
        orders: &Orders,
        code: &Code,
        task: &mut Task,
        place: &mut Place<J>,
        cell: u32,
        value: i64,
    ) -> Did
        requires run { (clock.now ≡ J.clock) × (orders.now ≡ J.orders) × (code.now ≡ J.code) }
        requires cell { IsCellOf J.code I cell }
        requires job { AreOfJob J.clock J.orders J.code task.old place.old }
        requires wish { WishesWrite J.code task.old cell value }
        ensures job { AreOfJob J.clock J.orders J.code task.new place.new }
        ensures did { HasWritten J.clock.size.bound I cell value self.old self.new task.old place.old task.new place.new result }
    {
        let here = (cell / SHARDS) as usize;
        let entry = Entry {
            task: task.number(),
            strand: place.at.number,
            act: Act::Write { cell, value },
        };
        let did = access(
            rt,
            clock,
            orders,
            code,
            &mut self.holder,
            &mut self.reader,
            &mut self.logs[here],
            task,
            place,
            entry,
        );
        if let Did::Done = did {
            self.values[here] = value;
        }
        did
    }
}
