//! Whether a run has ended in a given way.
ghost use Rattle.std.specs.Prelude.{◌≡◌, ◌↔◌, IsTrue, List};
ghost use Rattle.fut_base.specs.declared.event.Event.{Event};
ghost use Rattle.fut_base.specs.declared.record.Finish.TheVariants as finish;
ghost use Rattle.fut_syntax.specs.Trees as tree;
ghost use Rattle.task_machine.specs.Machine.{Machine, FinishHolds};
ghost use Rattle.task_code.specs.Flat.{Compiled};
ghost use Rattle.run_replay.specs.Next.{is_create};
ghost use Rattle.run_replay.specs.Replays.{IsReplayOf, IsSomeReplay};

use fut_base::limits::MOST_CREATES;
use fut_base::record::Finish;
use run_replay::replay::{Replay, is_long};
use task_code::code::Code;
use task_code::task::Wish;

fn is_to_create(wish: Wish) -> bool
    ensures { result ≡ is_create wish }
{
    match wish {
        Wish::Create { .. } => true,
        Wish::Read { .. }
        | Wish::Write { .. }
        | Wish::Spawn { .. }
        | Wish::Sync
        | Wish::Get { .. }
        | Wish::End { .. }
        | Wish::Long => false,
    }
}

/// Whether every task has ended.
fn is_whole(run: &Replay) -> bool
    ensures { (P : tree.Program) (code : Compiled) (h : List Event) (m : Machine) → IsReplayOf P code h run.now m
        → IsTrue result ↔ FinishHolds P h finish.Whole }
{
    run.next_ready().is_none()
}

/// Whether so many entries were made, and a task has not ended.
fn is_cut(run: &Replay, bound: u32) -> bool
    ensures { (P : tree.Program) (code : Compiled) (h : List Event) (m : Machine) → IsReplayOf P code h run.now m
        → IsTrue result ↔ FinishHolds P h (finish.Events bound) }
{
    if run.entries() != bound {
        return false;
    }
    !is_whole(run)
}

/// Whether this task has not ended, and is out of steps.
fn is_out_of_steps(run: &mut Replay, code: &Code, task: u32) -> bool
    requires known { IsSomeReplay code.now run.old }
    ensures { (P : tree.Program) (h : List Event) (m : Machine) → IsReplayOf P code.now h run.old m → IsTrue result ↔ FinishHolds P h (finish.Local task) }
{
    if !run.runs(task) {
        return false;
    }
    is_long(run.ask(code, task))
}

/// Whether 4,096 futures were created, and this task has not ended and wishes to create one.
fn is_out_of_futures(run: &mut Replay, code: &Code, task: u32) -> bool
    requires known { IsSomeReplay code.now run.old }
    ensures { (P : tree.Program) (h : List Event) (m : Machine) → IsReplayOf P code.now h run.old m → IsTrue result ↔ FinishHolds P h (finish.Futures task) }
{
    if run.creates() != MOST_CREATES {
        return false;
    }
    if !run.runs(task) {
        return false;
    }
    is_to_create(run.ask(code, task))
}

/// Whether the run has ended so.
pub fn has_ended(run: &mut Replay, code: &Code, end: Finish) -> bool
    requires known { IsSomeReplay code.now run.old }
    ensures { (P : tree.Program) (h : List Event) (m : Machine) → IsReplayOf P code.now h run.old m → IsTrue result ↔ FinishHolds P h end }
{
    match end {
        Finish::Whole => is_whole(run),
        Finish::Events { bound } => is_cut(run, bound),
        Finish::Local { task } => is_out_of_steps(run, code, task),
        Finish::Futures { task } => is_out_of_futures(run, code, task),
    }
}
