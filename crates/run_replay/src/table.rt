//! The tasks of a run by number.
ghost use Rattle.std.specs.Prelude.{◌≡◌, ◌<◌, ◌≤◌, length, OnOk, option_to_list, vec_len, vec_capacity};
ghost use Rattle.fut_base.specs.Events.{action_of};
ghost use Rattle.fut_base.specs.Sound.{strands_by};
ghost use Rattle.task_machine.specs.Machine.{cells_after, creates};
ghost use Rattle.run_replay.specs.Replays.{ActsAt, creates_by, HasRoomAt, KeepsLineAt, StillAt};

use crate::line::{TaskLine, act_as, make_room};
use fut_base::list::NoMemory;
use fut_base::record::{Act, Entry};
use task_code::code::Code;

/// Makes room for one more entry of a task, and for one more task.
pub fn give_room(lines: &mut Vec<TaskLine>, code: &Code, place: usize) -> Result<(), NoMemory>
    requires exists { place < length lines.old.items }
    ensures same { KeepsLineAt code.now lines.old.items lines.new.items place }
    ensures still { StillAt code.now lines.old.items place → StillAt code.now lines.new.items place }
    ensures room { OnOk result (HasRoomAt lines.new.items place) }
    ensures spare { OnOk result (vec_len lines.new < vec_capacity lines.new) }
{
    lines.reserve(1)?;
    make_room(&mut lines[place], code)
}

/// Takes an entry of a task, and the task that it begins.
pub fn commit(
    lines: &mut Vec<TaskLine>,
    code: &Code,
    place: usize,
    ticket: u32,
    entry: Entry,
    child: Option<TaskLine>,
)
    requires exists { place < length lines.old.items }
    requires room { HasRoomAt lines.old.items place }
    requires spare { vec_len lines.old < vec_capacity lines.old }
    ensures { ActsAt code.now lines.old.items lines.new.items place (action_of entry.act) (option_to_list child) }
{
    act_as(&mut lines[place], code, ticket, entry);
    if let Some(child) = child {
        lines.push_reserved(child);
    }
}

/// What an act writes.
pub fn write(cells: &mut Vec<i64>, act: &Act)
    ensures { cells.new.items ≡ cells_after (action_of act.now) cells.old.items }
{
    if let Act::Write { cell, value } = act {
        if let Some(held) = cells.get_mut(*cell as usize) {
            *held = *value;
        }
    }
}

/// How many strands an act makes.
pub fn strands_of(act: &Act) -> u64
    ensures { result ≡ strands_by (action_of act.now) }
{
    match act {
        Act::Spawn { .. } | Act::Create { .. } => 2,
        Act::Sync { .. } | Act::Get { .. } => 1,
        Act::Read { .. } | Act::Write { .. } | Act::End { .. } => 0,
    }
}

/// How many creates an act is.
pub fn creates_of(act: &Act) -> u32
    ensures { result ≡ creates_by (creates (action_of act.now)) }
{
    match act {
        Act::Create { .. } => 1,
        Act::Spawn { .. }
        | Act::Sync { .. }
        | Act::Get { .. }
        | Act::Read { .. }
        | Act::Write { .. }
        | Act::End { .. } => 0,
    }
}
