//! Ends.
ghost use Rattle.std.specs.Prelude.{◌≡◌, ◌≢◌, ℕ, ◌<◌, ◌≤◌, [], length, slice_get, Some, None};
ghost use Rattle.event_clock.specs.Views.{own_list};
ghost use Rattle.run_counts.specs.Moves.{woken};
ghost use Rattle.run_book.specs.Lines.{LineNow};
ghost use Rattle.run_book.specs.Turns.{change_at, with_less, parent_of, after_end};
ghost use Rattle.run_book.specs.Books.{waits_for_last, wait_for};
ghost use Rattle.run_book.specs.Steps.{AreWoken, EndsTask, WishesEnd};
ghost use Rattle.run_book.specs.Waking.{AreFreed, IsFirstFreed, AreOfBook, IsHolderStill, woken_by, handed, IsFirstWoken};

use crate::book::{Book, Held, entry_of, hold, release};
use crate::job::Job;
use crate::line::{Last, Line};
use crate::stepped::Stepped;
use event_clock::clock::{Clock, Drawn, Holder};
use fut_base::limits::MOST_LOCAL_STEPS;
use fut_base::ready::Ready;
use fut_base::record::{Act, Finish, Value};
use order_query::{Orders, Writer};
use run_counts::{Counts, Hand};
use run_names::Run;
use std::alloc::Global;
use task_code::code::Code;
use task_code::task::Wish;

/// A task has ended on a strand with a value. Those that waited for it are handed out: its parent, where it was the last child
/// of the block for which the parent waits, or else those that wait for its value.
fn settle<J: Run>(
    alloc: Global,
    lines: &mut [Line<J>],
    task: u32,
    value: Value,
    last: Last,
) -> Ready<Job<J>>
    requires line { (l : LineNow) × (slice_get lines.old task ≡ Some l) × (l.value ≡ None) × ((p : ℕ) → l.parent ≡ Some p → l.waiters ≡ []) }
    requires parent { (p : ℕ) → parent_of (slice_get lines.old task) ≡ Some p → (p ≢ task) × ((l : LineNow) × (slice_get lines.old p ≡ Some l) × (0 < l.count)) }
    ensures jobs { result.items ≡ wait_for lines.old task }
    ensures lines { lines.new ≡ after_end task value last lines.old }
{
    let line = &mut lines[task as usize];
    let parent = line.parent();
    let waiters = line.end(value, last);
    match parent {
        None => waiters,
        Some(parent) => tell_parent(alloc, lines, parent),
    }
}

/// A parent is told that a child has ended.
fn tell_parent<J: Run>(alloc: Global, lines: &mut [Line<J>], parent: u32) -> Ready<Job<J>>
    requires { (l : LineNow) × (slice_get lines.old parent ≡ Some l) × (0 < l.count) }
    ensures jobs { result.items ≡ waits_for_last (slice_get lines.old parent) }
    ensures lines { lines.new ≡ change_at parent with_less lines.old }
{
    let mut jobs = Ready::make(alloc);
    if let Some(job) = lines[parent as usize].end_child() {
        jobs.push(job);
    }
    jobs
}

/// The first of these goes on, and comes behind the others. It knows all that the book knows.
#[tactic(none)]
fn wake_first<J: Run>(
    clock: &Clock,
    orders: &Orders,
    holder: &mut Holder,
    writer: &mut Writer,
    counts: &mut Counts<J>,
    hand: &mut Hand<J>,
    jobs: &mut Ready<Job<J>>,
)
    requires run { (clock.now ≡ J.clock) × (orders.now ≡ J.orders) }
    requires book { AreOfBook J.clock J.orders J.code J.limits holder.old writer.old }
    requires freed { IsFirstFreed J.code (own_list holder.old.view) jobs.old.items }
    requires counted { 0 < counts.old.waiting }
    ensures jobs { IsFirstWoken jobs.old.items jobs.new.items }
    ensures holder { IsHolderStill holder.old holder.new }
    ensures writer { writer.new ≡ writer.old }
    ensures counts { counts.new ≡ woken counts.old }
    ensures hand { hand.new ≡ handed 1 hand.old }
{
    let Some(job) = jobs.pop() else {
        unreachable!()
    };
    let mut held = hold(clock, holder, job);
    counts.wake(hand, &mut held.pace);
    jobs.push(release(clock, orders, holder, writer, held));
}

/// These go on, one after the other, and know all that the book knows.
#[tactic(none)]
fn wake_all<J: Run>(
    clock: &Clock,
    orders: &Orders,
    holder: &mut Holder,
    writer: &mut Writer,
    counts: &mut Counts<J>,
    hand: &mut Hand<J>,
    waiting: Ready<Job<J>>,
) -> Ready<Job<J>>
    requires run { (clock.now ≡ J.clock) × (orders.now ≡ J.orders) }
    requires book { AreOfBook J.clock J.orders J.code J.limits holder.old writer.old }
    requires freed { AreFreed J.code (own_list holder.old.view) waiting.items }
    requires counted { length waiting.items ≤ counts.old.waiting }
    ensures jobs { AreWoken waiting.items result.items }
    ensures holder { IsHolderStill holder.old holder.new }
    ensures writer { writer.new ≡ writer.old }
    ensures counts { counts.new ≡ woken_by (length waiting.items) counts.old }
    ensures hand { hand.new ≡ handed (length waiting.items) hand.old }
{
    let mut jobs = waiting;
    for _job in 0..jobs.len() {
        wake_first(clock, orders, holder, writer, counts, hand, &mut jobs);
    }
    jobs
}

impl<J: Run> Book<J> {
    /// The job's task ends. The jobs that go on are those of the tasks whose wish is allowed by that.
    #[tactic(none)]
    pub fn end(
        &mut self,
        clock: &Clock,
        orders: &Orders,
        code: &Code,
        hand: &mut Hand<J>,
        job: Job<J>,
    ) -> Stepped<Job<J>>
        requires run { (clock.now ≡ J.clock) × (orders.now ≡ J.orders) × (code.now ≡ J.code) }
        requires wish { WishesEnd J.code job }
        ensures { EndsTask J.code J.limits.events self.old self.new hand.old hand.new job result }
    {
        let mut job = job;
        let Wish::End { value } = job.task.advance(code, MOST_LOCAL_STEPS) else {
            unreachable!()
        };
        // It can't be, as in `sync`.
        if self.counts.running() == 0 {
            return Stepped::NoMemory { job };
        }
        let Ok(()) = self.traces.reserve() else {
            return Stepped::NoMemory { job };
        };
        let Ok(()) = job.task.reserve() else {
            return Stepped::NoMemory { job };
        };
        let held = hold(clock, &mut self.holder, job);
        let entry = entry_of(&held, Act::End { value });
        let Drawn::At(ticket) = clock.draw(&mut self.holder, &entry) else {
            return Stepped::Spent {
                job: release(clock, orders, &mut self.holder, &mut self.writer, held),
                finish: Finish::Events {
                    bound: self.limits.events,
                },
            };
        };
        let Held {
            mut task,
            at,
            reach,
            reader: _,
            pace,
        } = held;
        task.feed(code, ticket, entry);
        self.counts.end(hand, pace);
        let number = task.number();
        self.traces.push(task.into_trace());
        let waiting = settle(
            self.alloc,
            self.lines.as_mut_slice(),
            number,
            value,
            Last { at, reach },
        );
        Stepped::Went {
            jobs: wake_all(
                clock,
                orders,
                &mut self.holder,
                &mut self.writer,
                &mut self.counts,
                hand,
                waiting,
            ),
        }
    }
}
