//! What is left of a run once its workers have ended.
ghost use Rattle.std.specs.Prelude.{◌≡◌, List, IfOk};
ghost use Rattle.fut_base.specs.declared.event.Event.{Event};
ghost use Rattle.fut_base.specs.Events.{events_of};
ghost use Rattle.fut_base.specs.Racing.{IsReport};
ghost use Rattle.fut_syntax.specs.Trees as tree;
ghost use Rattle.fut_check.specs.Items.{IsWellTyped};
ghost use Rattle.task_machine.specs.Machine.{Machine};
ghost use Rattle.task_code.specs.Flat.{Compiled, IsCodeOf};
ghost use Rattle.run_replay.specs.Replays.{IsReplayOf};
ghost use Rattle.run_replay.specs.Serials.{IsNeverStuck};
ghost use Rattle.fut_engine.specs.Going.{AlwaysGoes, GoesFirst, HasTurned};
ghost use Rattle.fut_engine.specs.Runs.{IsRun};
ghost use Rattle.fut_engine.specs.Wholes.{IsNamed};

use fut_base::list::NoMemory;
use fut_base::record::{Finish, History, Limits, Ran};
use run_replay::replay::{Next, Replay};
use std::alloc::Global;
use task_code::code::Code;

/// Makes the next event of the first task, or tells why there is none. `start` is the history with which the run went on
/// alone; no value of it is kept.
fn go_first(
    run: &mut Replay,
    code: &Code,
    limits: Limits,
    history: &mut History,
) -> Result<Option<Finish>, NoMemory>
    requires name { IsNamed code.now limits }
    requires goes { (start : List Event) × AlwaysGoes code.now limits start (events_of history.old) run.old }
    ensures { (start : List Event) → AlwaysGoes code.now limits start (events_of history.old) run.old
        → IfOk result (λ finish. HasTurned code.now limits start (events_of history.old) (events_of history.new) run.new finish) }
{
    history.reserve()?;
    match run.next_ready() {
        None => Ok(Some(Finish::Whole)),
        Some(task) => match run.event(code, limits, task) {
            Next::Made { entry } => {
                history.push(entry);
                Ok(None)
            }
            Next::Spent { finish } => Ok(Some(finish)),
            Next::NoMemory => Err(NoMemory),
            Next::Waits { .. } => unreachable!(),
            Next::Idle => unreachable!(),
        },
    }
}

/// The run with its races.
fn finished(alloc: Global, run: &Replay, history: History, finish: Finish) -> Result<Ran, NoMemory>
    requires known { (P : tree.Program) × (code : Compiled) × (m : Machine) × IsReplayOf P code (events_of history) run.now m }
    ensures run { IfOk result (λ ran. (events_of ran.history ≡ events_of history) × (ran.finish ≡ finish) × (ran.cells.items ≡ run.now.cells)) }
    ensures races { IfOk result (λ ran. IsReport (events_of ran.history) ran.races.items) }
{
    let races = run.races(alloc)?;
    let cells = run.cells(alloc)?;
    Ok(Ran {
        history,
        races,
        finish,
        cells,
    })
}

/// The first task makes the next event, again and again, until every task has ended or an event is spent. Each event adds
/// an entry, so there are at most `limits.events + 1` turns.
pub fn go_on_alone(
    alloc: Global,
    run: Replay,
    history: History,
    code: &Code,
    limits: Limits,
) -> Result<Ran, NoMemory>
    requires name { IsNamed code.now limits }
    requires goes { AlwaysGoes code.now limits (events_of history) (events_of history) run }
    ensures run { IfOk result
        (λ ran. (P : tree.Program) → IsWellTyped P → IsCodeOf P code.now → IsRun P limits (events_of ran.history) ran.finish ran.cells.items) }
    ensures goes { IfOk result (λ ran. (P : tree.Program) → IsWellTyped P → IsCodeOf P code.now → GoesFirst P (events_of history) (events_of ran.history)) }
    ensures races { IfOk result (λ ran. IsReport (events_of ran.history) ran.races.items) }
    ensures never_stuck { IfOk result (λ ran. (P : tree.Program) → IsWellTyped P → IsCodeOf P code.now → IsNeverStuck P (events_of ran.history)) }
{
    let mut run = run;
    let mut history = history;
    for _turn in 0..limits.events + 1 {
        if let Some(finish) = go_first(&mut run, code, limits, &mut history)? {
            return finished(alloc, &run, history, finish);
        }
    }
    unreachable!()
}
