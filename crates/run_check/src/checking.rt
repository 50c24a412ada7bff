//! A record checked against the program that it names.
ghost use Rattle.std.specs.Prelude.{◌<◌, ◌^◌, length, map};
ghost use Rattle.fut_base.specs.Events.{event_of, events_of};
ghost use Rattle.fut_syntax.specs.Trees as tree;
ghost use Rattle.fut_check.specs.Items.{IsWellTyped};
ghost use Rattle.task_code.specs.Flat.{IsCodeOf};
ghost use Rattle.run_check.specs.Checks.{IsChecked, IsReplayed};

use crate::ending::has_ended;
use crate::same::same_races;
use fut_base::record::Entry;
use run_record::record::RunText;
use run_replay::replay::Replay;
use run_replay::step::StepStop;
use std::alloc::Global;
use task_code::code::Code;

/// Why a record was not accepted.
#[derive(Clone, Copy, Debug, PartialEq, Eq, thiserror::Error)]
pub enum RunFault {
    /// The entries before this one are legal and it is not; or all are legal, this is their number, and the races or the finish
    /// are not those of the history.
    #[error("not legal {entry}")]
    NotLegal { entry: u32 },
    #[error("no memory")]
    NoMemory,
}

/// The run that has made these entries.
fn replay(alloc: Global, code: &Code, entries: &[Entry]) -> Result<Replay, RunFault>
    requires program { (P : tree.Program) × IsWellTyped P × IsCodeOf P code.now }
    requires few { length entries.now < 2 ^ 29 }
    ensures { (P : tree.Program) → IsWellTyped P → IsCodeOf P code.now → IsReplayed P code.now (map event_of entries.now) result }
{
    let Ok(mut run) = Replay::start(alloc, code) else {
        return Err(RunFault::NoMemory);
    };
    for entry in entries {
        match run.step(code, entry) {
            Ok(()) => {}
            Err(StepStop::NotLegal) => {
                return Err(RunFault::NotLegal {
                    entry: run.entries(),
                });
            }
            Err(StepStop::NoMemory) => return Err(RunFault::NoMemory),
        }
    }
    Ok(run)
}

/// Whether a record of fewer than 2^29 entries is one of this program: its entries are legal, its races are their report, and
/// its finish holds of them.
///
/// It stops at the first entry that is no step of the definition.
pub fn check_run(alloc: Global, code: &Code, run: &RunText) -> Result<(), RunFault>
    requires program { (P : tree.Program) × IsWellTyped P × IsCodeOf P code.now }
    requires few { length run.now.history.items < 2 ^ 29 }
    ensures { (P : tree.Program) → IsWellTyped P → IsCodeOf P code.now → IsChecked P (events_of run.now.history) run.now.races.items run.now.finish result }
{
    let mut made = replay(alloc, code, run.history.as_slice())?;
    let Ok(races) = made.races(alloc) else {
        return Err(RunFault::NoMemory);
    };
    let refused = Err(RunFault::NotLegal {
        entry: made.entries(),
    });
    if !same_races(races.as_slice(), run.races.as_slice()) {
        return refused;
    }
    if !has_ended(&mut made, code, run.finish) {
        return refused;
    }
    Ok(())
}
