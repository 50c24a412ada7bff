//! Spawns and creates.
ghost use Rattle.std.specs.Prelude.{◌≡◌, ℕ, ◌<◌, ◌≤◌, ◌^◌, false, List, [], length, slice_get, vec_len, vec_capacity, Some, IfOk, OnOk};
ghost use Rattle.fut_base.specs.declared.record.Value.{Value as Carried};
ghost use Rattle.fut_syntax.specs.Trees as tree;
ghost use Rattle.task_machine.specs.State.{TaskState, ToSpawn, ToCreate, start_state, wish_of};
ghost use Rattle.task_machine.specs.Runs.{StandsAt};
ghost use Rattle.task_types.specs.Typed.{ArgsFit, any_future};
ghost use Rattle.task_code.specs.Flat.{IsCodeOf};
ghost use Rattle.task_code.specs.Tasks.{IsTaskOf, IsStill};
ghost use Rattle.reach_table.specs.Tabled.{KidAfterCreate};
ghost use Rattle.run_book.specs.Lines.{LineNow};
ghost use Rattle.run_book.specs.Turns.{AreSameLines};
ghost use Rattle.run_book.specs.Jobs.{Stands};
ghost use Rattle.run_book.specs.Coming.{IsComing};
ghost use Rattle.run_book.specs.Steps.{Forks, AreCreated, IsSameTask, IsSpentAt, WishesSpawn, WishesCreate};

use crate::book::{Book, begin, entry_of, hold, next_strand, release, room_for_two};
use crate::job::Job;
use crate::line::{Line, begin_child, line_of, room_for_child};
use crate::stepped::Stepped;
use event_clock::clock::{Clock, Drawn};
use fut_base::limits::MOST_LOCAL_STEPS;
use fut_base::list::NoMemory;
use fut_base::ready::Ready;
use fut_base::record::{Act, Args, Finish};
use order_query::{Orders, Placing};
use reach_table::Reach;
use run_counts::Hand;
use run_names::Run;
use run_place::Place;
use std::alloc::Global;
use strand_tree::{create, spawn};
use task_code::code::Code;
use task_code::task::{Task, Wish};

/// What is made for a child before its parent's event: its task, its arguments and its table.
#[derive(Drop)]
struct Coming {
    which: u32,
    args: Args,
    task: Task,
    reach: Reach,
}

impl<J: Run> Book<J> {
    /// The job's task spawns a child. The jobs that go on are the child's and the parent's.
    pub fn spawn(
        &mut self,
        clock: &Clock,
        orders: &Orders,
        code: &Code,
        hand: &mut Hand<J>,
        job: Job<J>,
    ) -> Stepped<Job<J>>
        requires run { (clock.now ≡ J.clock) × (orders.now ≡ J.orders) × (code.now ≡ J.code) }
        requires wish { WishesSpawn J.code job }
        ensures { Forks J.code J.limits.events self.old self.new hand.old hand.new job result (λ back f. ⊥) }
    {
        let (job, asked) = asked_spawn(self.alloc, code, &mut self.lines, job);
        let Ok((coming, room)) = asked else {
            return Stepped::NoMemory { job };
        };
        let held = hold(clock, &mut self.holder, job);
        let child = self.lines.len() as u32;
        let kid = next_strand(&self.writer);
        let Coming {
            which,
            args,
            task,
            reach,
        } = coming;
        let act = Act::Spawn {
            code: which,
            child,
            kid,
            cont: kid + 1,
            args,
        };
        let entry = entry_of(&held, act);
        let Drawn::At(ticket) = clock.draw(&mut self.holder, &entry) else {
            return Stepped::Spent {
                job: release(clock, orders, &mut self.holder, &mut self.writer, held),
                finish: Finish::Events {
                    bound: self.limits.events,
                },
            };
        };
        let parent = held.task.number();
        let strands = spawn(
            &mut Placing {
                orders,
                writer: &mut self.writer,
            },
            held.at,
        );
        begin_child(self.lines.as_mut_slice(), parent, child);
        self.lines.push_reserved(line_of(self.alloc, Some(parent)));
        let mut held = held;
        held.task.feed(code, ticket, entry);
        let (first, second) = strands;
        held.at = second;
        let pace = self.counts.fork(hand, &mut held.pace);
        let mut jobs = room;
        jobs.push(begin(
            clock,
            orders,
            &mut self.holder,
            &mut self.writer,
            task,
            first,
            reach,
            pace,
        ));
        jobs.push(release(clock, orders, &mut self.holder, &mut self.writer, held));
        Stepped::Went { jobs }
    }

    /// The job's task creates a future. The jobs that go on are the child's and the parent's.
    pub fn create(
        &mut self,
        clock: &Clock,
        orders: &Orders,
        code: &Code,
        hand: &mut Hand<J>,
        job: Job<J>,
    ) -> Stepped<Job<J>>
        requires run { (clock.now ≡ J.clock) × (orders.now ≡ J.orders) × (code.now ≡ J.code) }
        requires wish { WishesCreate J.code job }
        ensures forks { Forks J.code J.limits.events self.old self.new hand.old hand.new job result (AreCreated J.limits.futures self.old self.new hand.old hand.new job) }
        ensures few { IsSpentAt J.limits.events result → self.old.creates < J.limits.futures }
    {
        if self.creates == self.limits.futures {
            let task = job.task.number();
            return Stepped::Spent {
                job,
                finish: Finish::Futures { task },
            };
        }
        let (job, asked) = asked_create(self.alloc, code, &mut self.lines, job);
        let Ok((coming, room)) = asked else {
            return Stepped::NoMemory { job };
        };
        let held = hold(clock, &mut self.holder, job);
        let child = self.lines.len() as u32;
        let kid = next_strand(&self.writer);
        let Coming {
            which,
            args,
            task,
            reach,
        } = coming;
        let act = Act::Create {
            code: which,
            child,
            kid,
            cont: kid + 1,
            args,
        };
        let entry = entry_of(&held, act);
        let Drawn::At(ticket) = clock.draw(&mut self.holder, &entry) else {
            return Stepped::Spent {
                job: release(clock, orders, &mut self.holder, &mut self.writer, held),
                finish: Finish::Events {
                    bound: self.limits.events,
                },
            };
        };
        let strands = create(
            &mut Placing {
                orders,
                writer: &mut self.writer,
            },
            held.at,
            child,
        );
        self.lines.push_reserved(line_of(self.alloc, None));
        self.creates += 1;
        let mut held = held;
        held.task.feed(code, ticket, entry);
        let (first, second) = strands;
        held.at = second;
        let pace = self.counts.fork(hand, &mut held.pace);
        let mut jobs = room;
        jobs.push(begin(
            clock,
            orders,
            &mut self.holder,
            &mut self.writer,
            task,
            first,
            reach,
            pace,
        ));
        jobs.push(release(clock, orders, &mut self.holder, &mut self.writer, held));
        Stepped::Went { jobs }
    }
}

/// A job's task comes to its spawn, and all memory for that is asked for: what is made for the child, and room for the two jobs that
/// go on.
fn asked_spawn<J: Run>(
    alloc: Global,
    code: &Code,
    lines: &mut Vec<Line<J>>,
    job: Job<J>,
) -> (Job<J>, Result<(Coming, Ready<Job<J>>), NoMemory>)
    requires code { code.now ≡ J.code }
    requires wish { WishesSpawn J.code job }
    requires few { vec_len lines.old < 2 ^ 32 }
    ensures task { IsSameTask job.task result.0.task }
    ensures place { (result.0.place ≡ job.place) × (result.0.pace ≡ job.pace) }
    ensures lines { AreSameLines lines.old.items lines.new.items }
    ensures space { IfOk result.1 (λ r. vec_len lines.new < vec_capacity lines.new) }
    ensures parent { IfOk result.1 (λ r. (l : LineNow) → slice_get lines.new.items job.task.number ≡ Some l → 1 ≤ l.room) }
    ensures child { IfOk result.1 (λ r. IsComing J.code result.0.task (length lines.old.items) r.0.which r.0.args.items r.0.task) }
    ensures answers { IfOk result.1 (λ r. Stands J.code job.task (λ P w. w ≡ ToSpawn r.0.which r.0.args.items)) }
    ensures stands { IfOk result.1 (λ r. Stands J.code result.0.task (λ P w. w ≡ ToSpawn r.0.which r.0.args.items)) }
    ensures reach { IfOk result.1 (λ r. r.0.reach ≡ job.place.table) }
    ensures room { IfOk result.1 (λ r. (r.1.items ≡ []) × (2 ≤ r.1.spare)) }
{
    let mut job = job;
    let Wish::Spawn { which } = job.task.advance(code, MOST_LOCAL_STEPS) else {
        unreachable!()
    };
    let Ok(coming) = spawned(alloc, code, lines, &mut job.task, &job.place, which) else {
        return (job, Err(NoMemory));
    };
    let (job, room) = room_for_two(alloc, job);
    match room {
        Ok(room) => (job, Ok((coming, room))),
        Err(NoMemory) => (job, Err(NoMemory)),
    }
}

/// A job's task comes to its create, and all memory for that is asked for: what is made for the child, and room for the two jobs that
/// go on.
fn asked_create<J: Run>(
    alloc: Global,
    code: &Code,
    lines: &mut Vec<Line<J>>,
    job: Job<J>,
) -> (Job<J>, Result<(Coming, Ready<Job<J>>), NoMemory>)
    requires code { code.now ≡ J.code }
    requires wish { WishesCreate J.code job }
    requires few { vec_len lines.old < 2 ^ 32 }
    ensures task { IsSameTask job.task result.0.task }
    ensures place { (result.0.place ≡ job.place) × (result.0.pace ≡ job.pace) }
    ensures lines { lines.new.items ≡ lines.old.items }
    ensures space { IfOk result.1 (λ r. vec_len lines.new < vec_capacity lines.new) }
    ensures child { IfOk result.1 (λ r. IsComing J.code result.0.task (length lines.old.items) r.0.which r.0.args.items r.0.task) }
    ensures answers { IfOk result.1 (λ r. Stands J.code job.task (λ P w. w ≡ ToCreate r.0.which r.0.args.items)) }
    ensures stands { IfOk result.1 (λ r. Stands J.code result.0.task (λ P w. w ≡ ToCreate r.0.which r.0.args.items)) }
    ensures reach { IfOk result.1 (λ r. KidAfterCreate job.place.table job.place.at r.0.reach) }
    ensures room { IfOk result.1 (λ r. (r.1.items ≡ []) × (2 ≤ r.1.spare)) }
{
    let mut job = job;
    let Wish::Create { which } = job.task.advance(code, MOST_LOCAL_STEPS) else {
        unreachable!()
    };
    let Ok(coming) = created(alloc, code, lines, &mut job.task, &job.place, which) else {
        return (job, Err(NoMemory));
    };
    let (job, room) = room_for_two(alloc, job);
    match room {
        Ok(room) => (job, Ok((coming, room))),
        Err(NoMemory) => (job, Err(NoMemory)),
    }
}

/// All memory for a spawn.
fn spawned<J: Run>(
    alloc: Global,
    code: &Code,
    lines: &mut Vec<Line<J>>,
    task: &mut Task,
    place: &Place<J>,
    which: u32,
) -> Result<Coming, NoMemory>
    requires running { task.old.spot.ended ≡ false }
    requires still { IsStill code.now task.old }
    requires few { vec_len lines.old < 2 ^ 32 }
    ensures task { (task.new.number ≡ task.old.number) × (task.new.which ≡ task.old.which) × (task.new.spot ≡ task.old.spot)
        × (task.new.held ≡ task.old.held) × (task.new.trace.items ≡ task.old.trace.items) }
    ensures room { OnOk result (1 ≤ task.new.trace.spare) }
    ensures lines { AreSameLines lines.old.items lines.new.items }
    ensures child { OnOk result ((l : LineNow) → slice_get lines.new.items task.old.number ≡ Some l → 1 ≤ l.room) }
    ensures space { OnOk result (vec_len lines.new < vec_capacity lines.new) }
    ensures args { (P : tree.Program) (given : List Carried) (s t : TaskState) (w : ℕ) (args : List Carried)
        → IsCodeOf P code.now → IsTaskOf P code.now given task.old s → StandsAt s t → wish_of P t ≡ ToSpawn w args → IfOk result (λ c. c.args.items ≡ args) }
    ensures begins { IfOk result (λ c. (c.which ≡ which) × (c.task.number ≡ length lines.old.items) × (c.task.which ≡ which) × (c.task.spot.ended ≡ false)
        × (c.task.trace.items ≡ [])) }
    ensures state { IfOk result (λ c. (P : tree.Program) → IsCodeOf P code.now → ArgsFit any_future P which c.args.items
        → IsTaskOf P code.now c.args.items c.task (start_state P which c.args.items)) }
    ensures reach { IfOk result (λ c. c.reach ≡ place.now.table) }
{
    lines.reserve(1)?;
    room_for_child(lines.as_mut_slice(), task.number())?;
    let (args, child) = begun(alloc, code, task, lines.len() as u32, which)?;
    let reach = place.reach.share()?;
    Ok(Coming {
        which,
        args,
        task: child,
        reach,
    })
}

/// All memory for a create.
fn created<J: Run>(
    alloc: Global,
    code: &Code,
    lines: &mut Vec<Line<J>>,
    task: &mut Task,
    place: &Place<J>,
    which: u32,
) -> Result<Coming, NoMemory>
    requires running { task.old.spot.ended ≡ false }
    requires still { IsStill code.now task.old }
    requires few { vec_len lines.old < 2 ^ 32 }
    ensures task { (task.new.number ≡ task.old.number) × (task.new.which ≡ task.old.which) × (task.new.spot ≡ task.old.spot)
        × (task.new.held ≡ task.old.held) × (task.new.trace.items ≡ task.old.trace.items) }
    ensures room { OnOk result (1 ≤ task.new.trace.spare) }
    ensures lines { lines.new.items ≡ lines.old.items }
    ensures space { OnOk result (vec_len lines.new < vec_capacity lines.new) }
    ensures args { (P : tree.Program) (given : List Carried) (s t : TaskState) (w : ℕ) (args : List Carried)
        → IsCodeOf P code.now → IsTaskOf P code.now given task.old s → StandsAt s t → wish_of P t ≡ ToCreate w args → IfOk result (λ c. c.args.items ≡ args) }
    ensures begins { IfOk result (λ c. (c.which ≡ which) × (c.task.number ≡ length lines.old.items) × (c.task.which ≡ which) × (c.task.spot.ended ≡ false)
        × (c.task.trace.items ≡ [])) }
    ensures state { IfOk result (λ c. (P : tree.Program) → IsCodeOf P code.now → ArgsFit any_future P which c.args.items
        → IsTaskOf P code.now c.args.items c.task (start_state P which c.args.items)) }
    ensures reach { IfOk result (λ c. KidAfterCreate place.now.table place.now.at c.reach) }
{
    lines.reserve(1)?;
    let (args, child) = begun(alloc, code, task, lines.len() as u32, which)?;
    let reach = place.reach.created(place.at)?;
    Ok(Coming {
        which,
        args,
        task: child,
        reach,
    })
}

/// Room in the trace of a task that stands at a spawn or a create, what it passes, and the child.
fn begun(
    alloc: Global,
    code: &Code,
    task: &mut Task,
    number: u32,
    which: u32,
) -> Result<(Args, Task), NoMemory>
    requires running { task.old.spot.ended ≡ false }
    requires still { IsStill code.now task.old }
    ensures task { (task.new.number ≡ task.old.number) × (task.new.which ≡ task.old.which) × (task.new.spot ≡ task.old.spot)
        × (task.new.held ≡ task.old.held) × (task.new.trace.items ≡ task.old.trace.items) }
    ensures room { OnOk result (1 ≤ task.new.trace.spare) }
    ensures spawn { (P : tree.Program) (given : List Carried) (s t : TaskState) (w : ℕ) (args : List Carried)
        → IsCodeOf P code.now → IsTaskOf P code.now given task.old s → StandsAt s t → wish_of P t ≡ ToSpawn w args → IfOk result (λ r. r.0.items ≡ args) }
    ensures create { (P : tree.Program) (given : List Carried) (s t : TaskState) (w : ℕ) (args : List Carried)
        → IsCodeOf P code.now → IsTaskOf P code.now given task.old s → StandsAt s t → wish_of P t ≡ ToCreate w args → IfOk result (λ r. r.0.items ≡ args) }
    ensures begins { IfOk result (λ r. (r.1.number ≡ number) × (r.1.which ≡ which) × (r.1.spot.ended ≡ false) × (r.1.trace.items ≡ [])) }
    ensures state { IfOk result (λ r. (P : tree.Program) → IsCodeOf P code.now → ArgsFit any_future P which r.0.items
        → IsTaskOf P code.now r.0.items r.1 (start_state P which r.0.items)) }
{
    task.reserve()?;
    let args = task.args(alloc, code)?;
    let child = Task::start(alloc, code, number, which, &args)?;
    Ok((args, child))
}
