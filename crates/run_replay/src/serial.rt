//! The serial run: a child runs to its end before its maker goes on.
ghost use Rattle.std.specs.Prelude.{◌≡◌, ◌≤◌, IfOk};
ghost use Rattle.fut_base.specs.declared.limits.TheConstants.{MOST_LOCAL_STEPS, MOST_ENTRIES, MOST_CREATES};
ghost use Rattle.fut_base.specs.Events.{events_of};
ghost use Rattle.fut_base.specs.Racing.{IsReport};
ghost use Rattle.fut_syntax.specs.Trees as tree;
ghost use Rattle.fut_check.specs.Items.{IsWellTyped};
ghost use Rattle.task_machine.specs.Machine.{Machine};
ghost use Rattle.task_code.specs.Flat.{Compiled, IsCodeOf};
ghost use Rattle.run_replay.specs.Replays.{IsReplayOf};
ghost use Rattle.run_replay.specs.Serials.{AlwaysRuns, HasTurned, IsNeverStuck, IsSerialRun};

use crate::replay::{Next, Replay};
use fut_base::list::NoMemory;
use fut_base::record::{Finish, History, Limits, Ran};
use std::alloc::Global;
use task_code::code::Code;

/// Makes the next event of the first task, or tells why there is none.
fn turn(
    run: &mut Replay,
    code: &Code,
    limits: Limits,
    history: &mut History,
) -> Result<Option<Finish>, NoMemory>
    requires program { (P : tree.Program) × IsWellTyped P × IsCodeOf P code.now }
    requires local { limits.local_steps ≡ MOST_LOCAL_STEPS }
    requires events { limits.events ≤ MOST_ENTRIES }
    requires runs { AlwaysRuns code.now limits (events_of history.old) run.old }
    ensures { IfOk result (λ finish. HasTurned code.now limits (events_of history.old) (events_of history.new) run.new finish) }
{
    history.reserve()?;
    match run.next_ready() {
        None => Ok(Some(Finish::Whole)),
        Some(task) => match run.event(code, limits, task) {
            Next::Made { entry } => {
                history.push(entry);
                Ok(None)
            }
            Next::Spent { finish } => Ok(Some(finish)),
            Next::NoMemory => Err(NoMemory),
            Next::Waits { .. } => unreachable!(),
            Next::Idle => unreachable!(),
        },
    }
}

/// The run with its races.
fn finished(alloc: Global, run: &Replay, history: History, finish: Finish) -> Result<Ran, NoMemory>
    requires known { (P : tree.Program) × (code : Compiled) × (m : Machine) × IsReplayOf P code (events_of history) run.now m }
    ensures run { IfOk result (λ ran. (events_of ran.history ≡ events_of history) × (ran.finish ≡ finish) × (ran.cells.items ≡ run.now.cells)) }
    ensures races { IfOk result (λ ran. IsReport (events_of ran.history) ran.races.items) }
{
    let races = run.races(alloc)?;
    let cells = run.cells(alloc)?;
    Ok(Ran {
        history,
        races,
        finish,
        cells,
    })
}

/// The run of a program in which the first task, in English order, of those that have not ended makes the next event. After
/// each of its entries all tasks have ended, or one that has not is out of steps or may go on.
///
/// It stops where all tasks have ended, or else by the first of these that holds of the first task: it is out of steps;
/// it wishes to create, and the history has `limits.futures` creates; the history has `limits.events` entries.
pub fn serial(alloc: Global, code: &Code, limits: Limits) -> Result<Ran, NoMemory>
    requires program { (P : tree.Program) × IsWellTyped P × IsCodeOf P code.now }
    requires local { limits.local_steps ≡ MOST_LOCAL_STEPS }
    requires events { limits.events ≤ MOST_ENTRIES }
    requires futures { limits.futures ≡ MOST_CREATES }
    ensures run { IfOk result (λ ran. (P : tree.Program) → IsWellTyped P → IsCodeOf P code.now
        → IsSerialRun P limits (events_of ran.history) ran.finish ran.cells.items) }
    ensures races { IfOk result (λ ran. IsReport (events_of ran.history) ran.races.items) }
    ensures never_stuck { IfOk result (λ ran. (P : tree.Program) → IsWellTyped P → IsCodeOf P code.now → IsNeverStuck P (events_of ran.history)) }
{
    let mut run = Replay::start(alloc, code)?;
    let mut history = History::make(alloc);
    for _made in 0..limits.events + 1 {
        if let Some(finish) = turn(&mut run, code, limits, &mut history)? {
            return finished(alloc, &run, history, finish);
        }
    }
    unreachable!()
}
