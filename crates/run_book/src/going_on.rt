//! Syncs and gets.
ghost use Rattle.std.specs.Prelude.{◌≡◌, ℕ, ◌<◌, List, [], ◌∷◌, ◌++◌, length, slice_get, None, Some, IfOk};
ghost use Rattle.task_machine.specs.State.{ToSync, ToGet};
ghost use Rattle.event_clock.specs.Views.{carries};
ghost use Rattle.strand_tree.specs.declared.strand.Strand.{Strand};
ghost use Rattle.reach_table.specs.Telling.{AllKnown};
ghost use Rattle.run_book.specs.Jobs.{JobNow, Stands};
ghost use Rattle.run_book.specs.Lines.{LineNow};
ghost use Rattle.run_book.specs.Steps.{Waits, GoesOrWaits, WishesSync, WishesGet};
ghost use Rattle.run_book.specs.Tabling.{end_in, IsKnownEnd, AreKnownEnds, MergesEnds, TablesGet};

use crate::book::{Book, entry_of, hold, next_strand, release};
use crate::job::Job;
use crate::line::{Line, first_last, last_of};
use crate::stepped::Stepped;
use event_clock::clock::{Clock, Drawn, Holder};
use fut_base::limits::MOST_LOCAL_STEPS;
use fut_base::list::NoMemory;
use fut_base::ready::Ready;
use fut_base::record::{Act, Finish};
use order_list::Still;
use order_query::{Orders, Placing};
use reach_table::Reach;
use run_counts::Hand;
use run_names::Run;
use strand_tree::{get, sync};
use task_code::code::Code;
use task_code::task::Wish;

/// A table with that of the last strand of one more task, where it has ended.
fn with_end<J: Run>(
    lines: &[Line<J>],
    lists: &Still,
    table: Reach,
    own: u32,
    task: u32,
) -> Result<Reach, NoMemory>
    requires known { AllKnown (length lists.now.english.order) table × IsKnownEnd (length lists.now.english.order) (end_in lines.now task) }
    ensures known { IfOk result (λ new. AllKnown (length lists.now.english.order) new) }
    ensures merges { IfOk result (λ new. (old : List Strand) (tasks : List ℕ) → MergesEnds lines.now lists.now old own tasks table
        → MergesEnds lines.now lists.now old own (tasks ++ task ∷ []) new) }
{
    match last_of(lines, task) {
        Some(last) => table.merged(&last.reach, own, None, lists),
        None => Ok(table),
    }
}

/// The table of a task's next strand after a sync: of its own, and of the last strands of these children, which have ended.
fn table_after_sync<J: Run>(
    lines: &[Line<J>],
    lists: &Still,
    reach: &Reach,
    own: u32,
    block: &[u32],
) -> Result<Reach, NoMemory>
    requires known { AllKnown (length lists.now.english.order) reach.now × AreKnownEnds (length lists.now.english.order) lines.now block.now }
    ensures { IfOk result (λ table. MergesEnds lines.now lists.now reach.now own block.now table) }
{
    let mut table = reach.share()?;
    for child in block {
        table = with_end(lines, lists, table, own, *child)?;
    }
    Ok(table)
}

/// The table of a task's next strand after a get of a future that has ended.
fn table_after_get<J: Run>(
    lines: &[Line<J>],
    lists: &Still,
    reach: &Reach,
    own: u32,
    future: u32,
) -> Result<Reach, NoMemory>
    requires known { AllKnown (length lists.now.english.order) reach.now × IsKnownEnd (length lists.now.english.order) (end_in lines.now future) }
    ensures { IfOk result (λ table. TablesGet lines.now lists.now reach.now own future table) }
{
    match last_of(lines, future) {
        Some(last) => reach.merged(&last.reach, own, Some(last.at), lists),
        None => reach.share(),
    }
}

/// No job waits at the line of a task that the holder has: no two jobs have one task.
fn nobody_sits<J: Run>(clock: &Clock, holder: &mut Holder, lines: &mut [Line<J>], task: u32)
    requires run { (clock.now ≡ J.clock) × (holder.old.clock ≡ J.clock.id) }
    requires line { (l : LineNow) × (slice_get lines.old task ≡ Some l) × ((j : JobNow) → l.waiter ≡ Some j → j.task.number ≡ task) }
    requires carried { 0 < carries task holder.old.view.tasks }
    ensures same { (holder.new ≡ holder.old) × (lines.new ≡ lines.old) }
    ensures nobody { (l : LineNow) → slice_get lines.old task ≡ Some l → l.waiter ≡ None }
{
    match lines[task as usize].unseat() {
        None => {}
        Some(other) => {
            hold(clock, holder, other);
            unreachable!()
        }
    }
}

impl<J: Run> Book<J> {
    /// The job's task waits for the children of its block.
    pub fn sync(
        &mut self,
        clock: &Clock,
        orders: &Orders,
        code: &Code,
        hand: &mut Hand<J>,
        job: Job<J>,
    ) -> Stepped<Job<J>>
        requires run { (clock.now ≡ J.clock) × (orders.now ≡ J.orders) × (code.now ≡ J.code) }
        requires wish { WishesSync J.code job }
        ensures { GoesOrWaits J.code J.limits.events self.old self.new hand.old hand.new job result }
    {
        let mut job = job;
        let Wish::Sync = job.task.advance(code, MOST_LOCAL_STEPS) else {
            unreachable!()
        };
        // It can't be: the job's own task runs. No proof says so, since jobs that wait are not known to be of different tasks.
        if self.counts.running() == 0 {
            return Stepped::NoMemory { job };
        }
        let Ok(()) = job.task.reserve() else {
            return Stepped::NoMemory { job };
        };
        let mut held = hold(clock, &mut self.holder, job);
        let task = held.task.number();
        if self.lines[task as usize].running() > 0 {
            nobody_sits(clock, &mut self.holder, self.lines.as_mut_slice(), task);
            let job = release(clock, orders, &mut self.holder, &mut self.writer, held);
            return self.sit(hand, job, task);
        }
        let Ok(table) = table_after_sync(
            self.lines.as_slice(),
            self.writer.lists(),
            &held.reach,
            held.at.future,
            self.lines[task as usize].block(),
        ) else {
            return Stepped::NoMemory {
                job: release(clock, orders, &mut self.holder, &mut self.writer, held),
            };
        };
        let act = Act::Sync {
            strand: next_strand(&self.writer),
        };
        let entry = entry_of(&held, act);
        let Drawn::At(ticket) = clock.draw(&mut self.holder, &entry) else {
            return Stepped::Spent {
                job: release(clock, orders, &mut self.holder, &mut self.writer, held),
                finish: Finish::Events {
                    bound: self.limits.events,
                },
            };
        };
        let first = first_last(self.lines.as_slice(), self.lines[task as usize].block());
        held.at = sync(
            &mut Placing {
                orders,
                writer: &mut self.writer,
            },
            held.at,
            first,
        );
        held.reach = table;
        self.lines[task as usize].begin_block(self.alloc);
        held.task.feed(code, ticket, entry);
        self.counts.go_on(hand, &mut held.pace);
        let mut jobs = Ready::make(self.alloc);
        jobs.push(release(clock, orders, &mut self.holder, &mut self.writer, held));
        Stepped::Went { jobs }
    }

    /// The job's task gets the value of a future.
    pub fn get(
        &mut self,
        clock: &Clock,
        orders: &Orders,
        code: &Code,
        hand: &mut Hand<J>,
        job: Job<J>,
    ) -> Stepped<Job<J>>
        requires run { (clock.now ≡ J.clock) × (orders.now ≡ J.orders) × (code.now ≡ J.code) }
        requires wish { WishesGet J.code job }
        ensures { GoesOrWaits J.code J.limits.events self.old self.new hand.old hand.new job result }
    {
        let mut job = job;
        let Wish::Get { future } = job.task.advance(code, MOST_LOCAL_STEPS) else {
            unreachable!()
        };
        // It can't be: the job's task runs. Nothing in the book says that the tasks of two waiting jobs differ, so there is no proof.
        if self.counts.running() == 0 {
            return Stepped::NoMemory { job };
        }
        let Ok(()) = job.task.reserve() else {
            return Stepped::NoMemory { job };
        };
        let mut held = hold(clock, &mut self.holder, job);
        let Some(value) = self.lines[future as usize].value() else {
            let job = release(clock, orders, &mut self.holder, &mut self.writer, held);
            return self.wait_for(hand, job, future);
        };
        let Ok(table) = table_after_get(
            self.lines.as_slice(),
            self.writer.lists(),
            &held.reach,
            held.at.future,
            future,
        ) else {
            return Stepped::NoMemory {
                job: release(clock, orders, &mut self.holder, &mut self.writer, held),
            };
        };
        let act = Act::Get {
            future,
            value,
            strand: next_strand(&self.writer),
        };
        let entry = entry_of(&held, act);
        let Drawn::At(ticket) = clock.draw(&mut self.holder, &entry) else {
            return Stepped::Spent {
                job: release(clock, orders, &mut self.holder, &mut self.writer, held),
                finish: Finish::Events {
                    bound: self.limits.events,
                },
            };
        };
        held.at = get(
            &mut Placing {
                orders,
                writer: &mut self.writer,
            },
            held.at,
        );
        held.reach = table;
        held.task.feed(code, ticket, entry);
        self.counts.go_on(hand, &mut held.pace);
        let mut jobs = Ready::make(self.alloc);
        jobs.push(release(clock, orders, &mut self.holder, &mut self.writer, held));
        Stepped::Went { jobs }
    }

    // The job waits for a future that has not ended.
    fn wait_for(&mut self, hand: &mut Hand<J>, job: Job<J>, future: u32) -> Stepped<Job<J>>
        requires line { (l : LineNow) × (slice_get self.old.lines future ≡ Some l) × (l.value ≡ None) × (l.parent ≡ None) }
        requires running { 0 < self.old.counts.running }
        requires job { (job.pace ≡ 1) × Stands J.code job.task (λ P w. w ≡ ToGet future) }
        ensures { Waits self.old self.new hand.old hand.new job result }
    {
        match self.lines[future as usize].wait(job) {
            Ok(()) => {
                self.counts.wait(hand);
                Stepped::Parked
            }
            Err(job) => Stepped::NoMemory { job },
        }
    }

    // The job of this task waits for the children of its block, of which some have not ended.
    fn sit(&mut self, hand: &mut Hand<J>, job: Job<J>, task: u32) -> Stepped<Job<J>>
        requires line { (l : LineNow) × (slice_get self.old.lines task ≡ Some l) × (l.waiter ≡ None) × (0 < l.count) }
        requires running { 0 < self.old.counts.running }
        requires job { (job.task.number ≡ task) × (job.pace ≡ 1) × Stands J.code job.task (λ P w. w ≡ ToSync) }
        ensures { Waits self.old self.new hand.old hand.new job result }
    {
        self.counts.wait(hand);
        self.lines[task as usize].sit(job);
        Stepped::Parked
    }
}
