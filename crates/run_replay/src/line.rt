//! One task of a run.
ghost use Rattle.std.specs.Prelude.{◌≡◌, ◌<◌, ◌≤◌, false, IfOk, OnOk, option_to_list};
ghost use Rattle.fut_base.specs.Events.{action_of};
ghost use Rattle.fut_base.specs.Dag.{block_after};
ghost use Rattle.fut_base.specs.Sound.{value_by};
ghost use Rattle.task_machine.specs.Machine.{strand_after};
ghost use Rattle.task_code.specs.Tasks.{IsStill};
ghost use Rattle.run_replay.specs.Replays.{ActsAs, AreBegun, Begins, HasRoom, KeepsLine};

use fut_base::list::NoMemory;
use fut_base::record::{Act, Args, Entry, Value};
use std::alloc::Global;
use task_code::code::Code;
use task_code::task::Task;

/// A task of a run: its strand, its future, the children that it has spawned since its last sync, and the value with
/// which it has ended.
#[derive(Drop)]
pub struct TaskLine {
    pub task: Task,
    pub strand: u32,
    pub future: u32,
    pub block: Vec<u32>,
    pub value: Option<Value>,
}

/// The line of a task that begins.
pub fn begin(
    alloc: Global,
    code: &Code,
    number: u32,
    which: u32,
    args: &Args,
    strand: u32,
    future: u32,
) -> Result<TaskLine, NoMemory>
    ensures { IfOk result (λ line. Begins code.now which args.now.items strand future line) }
{
    let task = Task::start(alloc, code, number, which, args)?;
    Ok(TaskLine {
        task,
        strand,
        future,
        block: Vec::new(alloc),
        value: None,
    })
}

/// The line of the task that an act begins, by a task of this future.
pub fn begin_child(
    alloc: Global,
    code: &Code,
    future: u32,
    act: &Act,
) -> Result<Option<TaskLine>, NoMemory>
    ensures { IfOk result (λ child. AreBegun code.now future (action_of act.now) (option_to_list child)) }
{
    match act {
        Act::Spawn {
            code: which,
            child,
            kid,
            args,
            ..
        } => {
            let line = begin(alloc, code, *child, *which, args, *kid, future)?;
            Ok(Some(line))
        }
        Act::Create {
            code: which,
            child,
            kid,
            args,
            ..
        } => {
            let line = begin(alloc, code, *child, *which, args, *kid, *child)?;
            Ok(Some(line))
        }
        Act::Read { .. }
        | Act::Write { .. }
        | Act::Sync { .. }
        | Act::Get { .. }
        | Act::End { .. } => Ok(None),
    }
}

/// Makes room for one more entry.
pub fn make_room(line: &mut TaskLine, code: &Code) -> Result<(), NoMemory>
    ensures same { KeepsLine code.now line.old line.new }
    ensures still { IsStill code.now line.old.task → IsStill code.now line.new.task }
    ensures room { OnOk result (HasRoom line.new) }
{
    line.block.reserve(1)?;
    line.task.reserve()
}

/// What an act changes of the line of its task, its place in the text aside.
fn change(line: &mut TaskLine, act: &Act)
    requires room { HasRoom line.old }
    ensures task { line.new.task ≡ line.old.task }
    ensures strand { line.new.strand ≡ strand_after (action_of act.now) line.old.strand }
    ensures future { line.new.future ≡ line.old.future }
    ensures block { line.new.block.items ≡ block_after (action_of act.now) line.old.block.items }
    ensures value { line.new.value ≡ value_by (action_of act.now) line.old.value }
{
    match act {
        Act::Spawn { child, cont, .. } => {
            line.block.push_reserved(*child);
            line.strand = *cont;
        }
        Act::Create { cont, .. } => line.strand = *cont,
        Act::Sync { strand } => {
            line.block.clear();
            line.strand = *strand;
        }
        Act::Get { strand, .. } => line.strand = *strand,
        Act::End { value } => line.value = Some(*value),
        Act::Read { .. } | Act::Write { .. } => {}
    }
}

/// Takes an entry of the task.
pub fn act_as(line: &mut TaskLine, code: &Code, ticket: u32, entry: Entry)
    requires room { HasRoom line.old }
    ensures { ActsAs code.now line.old line.new (action_of entry.act) }
{
    change(line, &entry.act);
    line.task.feed(code, ticket, entry);
}
