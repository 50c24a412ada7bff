//! What the book has of one task.
ghost use Rattle.std.specs.Prelude.{◌≡◌, ◌-◌, ◌^◌, ◌<◌, ◌≤◌, [], ◌∷◌, ◌++◌, slice_get, None, Some, OnOk, IfErr, option_map};
ghost use Rattle.std.specs.Option.{option_copied, option_to_list};
ghost use Rattle.fut_base.specs.Dag.{Among};
ghost use Rattle.run_book.specs.Jobs.{JobNow};
ghost use Rattle.run_book.specs.Lines.{LineNow, new_line};
ghost use Rattle.run_book.specs.Turns.{change_at, AreSameLines, with_child, with_end, with_less};
ghost use Rattle.run_book.specs.Books.{waits_for_last};
ghost use Rattle.run_book.specs.Tabling.{end_in, first_end};

use crate::job::Job;
use fut_base::list::{Listing, NoMemory};
use fut_base::ready::Ready;
use fut_base::record::Value;
use future_cell::cell::{Back, FutureCell};
use future_cell::joining::Joining;
use reach_table::Reach;
use run_names::Run;
use std::alloc::Global;
use std::marker::Model;
use strand_tree::Strand;

/// The last strand of a task, with its table.
#[derive(Drop)]
pub struct Last {
    pub at: Strand,
    pub reach: Reach,
}

impl Model for Last {
    ghost use Rattle.run_book.specs.Lines.{Ended};

    ghost Value = { Ended };

    ghost view = { λ l. record { at = l.at; table = l.reach } };
}

/// Of a task: the task that spawned it, none for `main` and a future; the children that it has spawned since its last sync; how many
/// of them have not ended, and itself while it waits for them; its value, with the jobs that wait for it; and where it ended.
#[derive(Drop)]
pub struct Line<J: Run> {
    pub parent: Option<u32>,
    pub block: Listing<u32>,
    pub children: Joining<Job<J>>,
    pub awaited: FutureCell<Value, Job<J>>,
    pub last: Option<Last>,
}

impl<J: Run> Model for Line<J> {
    ghost use Rattle.run_book.specs.Lines.{LineNow};

    ghost Value = { LineNow };

    ghost view = { λ l. record {
      parent = l.parent;
      block = l.block.items;
      room = l.block.spare;
      count = l.children.count;
      waiter = l.children.waiter;
      value = l.awaited.value;
      waiters = l.awaited.waiters;
      last = l.last;
    } };
}

/// The line of a task that begins.
pub fn line_of<J: Run>(alloc: Global, parent: Option<u32>) -> Line<J>
    ensures { result ≡ new_line parent }
{
    Line {
        parent,
        block: Listing::make(alloc),
        children: Joining::make(),
        awaited: FutureCell::make(alloc),
        last: None,
    }
}

impl<J: Run> Line<J> {
    /// The task that spawned its task.
    pub fn parent(&self) -> Option<u32>
        ensures { result ≡ self.now.parent }
    {
        self.parent
    }

    /// The children of its task's block.
    pub fn block(&self) -> &[u32]
        ensures { result.now ≡ self.now.block }
    {
        self.block.as_slice()
    }

    /// How many of them have not ended.
    pub fn running(&self) -> u32
        ensures { result ≡ self.now.count }
    {
        self.children.count()
    }

    /// The value of its task, where it has ended.
    pub fn value(&self) -> Option<Value>
        ensures { result ≡ self.now.value }
    {
        self.awaited.look().copied()
    }

    /// Its task begins a new block.
    pub fn begin_block(&mut self, alloc: Global)
        ensures { self.new ≡ record self.old { block = []; room = 0 } }
    {
        self.block = Listing::make(alloc);
    }

    /// Makes room for one more child in the block.
    pub fn reserve(&mut self) -> Result<(), NoMemory>
        ensures same { self.new ≡ record self.old { room = self.new.room } }
        ensures room { OnOk result (1 ≤ self.new.room) }
    {
        self.block.reserve()
    }

    /// Its task spawns a child, for which there is room.
    pub fn begin_child(&mut self, child: u32)
        requires room { 1 ≤ self.old.room }
        requires few { self.old.count < 2 ^ 32 - 1 }
        ensures { self.new ≡ with_child child self.old }
    {
        self.children.begin();
        self.block.push(child);
    }

    /// A child of the block has ended. The job that waits for that is handed out, where it was the last that ran.
    pub fn end_child(&mut self) -> Option<Job<J>>
        requires { 0 < self.old.count }
        ensures line { self.new ≡ with_less self.old }
        ensures job { option_to_list result ≡ waits_for_last (Some self.old) }
    {
        self.children.done()
    }

    /// Its task has ended on a strand with a value. Those that wait for the value are handed out.
    pub fn end(&mut self, value: Value, last: Last) -> Ready<Job<J>>
        requires { self.old.value ≡ None }
        ensures line { self.new ≡ with_end value last self.old }
        ensures jobs { result.items ≡ self.old.waiters }
    {
        self.last = Some(last);
        self.awaited.put(value)
    }

    /// Its task's job waits for the children of the block.
    pub fn sit(&mut self, job: Job<J>)
        requires { (self.old.waiter ≡ None) × (0 < self.old.count) }
        ensures { self.new ≡ record self.old { waiter = Some job } }
    {
        self.children.wait(job);
    }

    /// The job that waits for the children of the block, where one does, no longer waits.
    pub fn unseat(&mut self) -> Option<Job<J>>
        ensures { (result ≡ self.old.waiter) × (self.new ≡ record self.old { waiter = None }) }
    {
        self.children.take()
    }

    /// The jobs that wait here: its own, and those that wait for its value in their order. It takes no memory.
    pub fn into_waiting(self, alloc: Global) -> (Option<Job<J>>, Ready<Job<J>>)
        requires { (j : JobNow) → Among j self.waiters → self.value ≡ None }
        ensures { (result.0 ≡ self.waiter) × (result.1.items ≡ self.waiters) }
    {
        let Line {
            mut children,
            mut awaited,
            ..
        } = self;
        let others = match awaited.look() {
            Some(_) => Ready::make(alloc),
            None => awaited.put(Value::Int(0)),
        };
        (children.take(), others)
    }

    /// A job waits for the value of its task. `Err` hands it back, for want of memory.
    pub fn wait(&mut self, job: Job<J>) -> Result<(), Job<J>>
        requires { self.old.value ≡ None }
        ensures kept { OnOk result (self.new ≡ record self.old { waiters = self.old.waiters ++ job ∷ [] }) }
        ensures back { IfErr result (λ back. (back ≡ job) × (self.new ≡ self.old)) }
    {
        match self.awaited.wait(job) {
            Ok(()) => Ok(()),
            Err(Back { waiter }) => Err(waiter),
        }
    }
}

/// The last strand of a task that has ended.
pub fn last_of<J: Run>(lines: &[Line<J>], task: u32) -> Option<&Last>
    ensures { option_copied result ≡ end_in lines.now task }
{
    let line = lines.get(task as usize)?;
    line.last.as_ref()
}

/// The last strand of the first of these tasks, which have ended.
pub fn first_last<J: Run>(lines: &[Line<J>], block: &[u32]) -> Option<Strand>
    ensures { result ≡ option_map (λ e. e.at) (first_end lines.now block.now) }
{
    let first = block.get(0)?;
    let last = last_of(lines, *first)?;
    Some(last.at)
}

/// Makes room for one more child in the block of a task, where it has a line.
pub fn room_for_child<J: Run>(lines: &mut [Line<J>], task: u32) -> Result<(), NoMemory>
    ensures same { AreSameLines lines.old lines.new }
    ensures room { OnOk result ((l : LineNow) → slice_get lines.new task ≡ Some l → 1 ≤ l.room) }
{
    let place = task as usize;
    if place < lines.len() {
        lines[place].reserve()
    } else {
        Ok(())
    }
}

/// A task spawns a child, for which there is room.
pub fn begin_child<J: Run>(lines: &mut [Line<J>], task: u32, child: u32)
    requires { (l : LineNow) × (slice_get lines.old task ≡ Some l) × (1 ≤ l.room) × (l.count < 2 ^ 32 - 1) }
    ensures { lines.new ≡ change_at task (with_child child) lines.old }
{
    lines[task as usize].begin_child(child);
}
