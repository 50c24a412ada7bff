//! A record checked against the program that it names.
ghost use Rattle.std.specs.Prelude.{◌≡◌, ◌<◌, ◌^◌, length};
ghost use Rattle.fut_base.specs.Events.{events_of};
ghost use Rattle.run_record.specs.Records.{IsRunText};
ghost use Rattle.fut_syntax.specs.Trees as tree;
ghost use Rattle.task_code.specs.Flat.{IsCodeOf};
ghost use Rattle.fut_driver.specs.Verdict.{IsWellTypedText};
ghost use Rattle.fut_driver.specs.Outcomes.{IsOutcome};
ghost use Rattle.command_words.specs.declared.words.Command.TheVariants as command;

use crate::outcome::{Outcome, ending, legal_line};
use crate::program::code_for;
use crate::status::Status;
use run_check::checking::{RunFault, check_run};
use run_record::reader::read_run;
use run_record::record::{ReadFault, RunText};
use std::alloc::Global;
use task_code::code::Code;

/// What comes of the bytes of a record.
pub fn replay_text(alloc: Global, bytes: &[u8]) -> Outcome
    requires { length bytes.now < 2 ^ 32 }
    ensures { IsOutcome command.Replay bytes.now result.status (events_of result.history) result.text.items }
{
    match read_run(alloc, bytes) {
        Ok(run) => replay_program(alloc, bytes, run),
        Err(ReadFault::NotRun { byte }) => Outcome::bare(alloc, Status::NotRun { byte }),
        Err(ReadFault::NoMemory) => Outcome::bare(alloc, Status::NoMemory),
    }
}

/// What comes of a record of some program text.
fn replay_program(alloc: Global, bytes: &[u8], run: RunText) -> Outcome
    requires { IsRunText bytes.now run.program.items (events_of run.history) run.races.items run.finish }
    ensures { IsOutcome command.Replay bytes.now result.status (events_of result.history) result.text.items }
{
    match code_for(alloc, run.program.as_slice()) {
        Ok(code) => replay_code(alloc, bytes, &code, run),
        Err(refusal) => Outcome::refused(alloc, refusal),
    }
}

/// What comes of a record of a program that breaks no type rule.
fn replay_code(alloc: Global, bytes: &[u8], code: &Code, run: RunText) -> Outcome
    requires record { IsRunText bytes.now run.program.items (events_of run.history) run.races.items run.finish }
    requires program { (P : tree.Program) × IsWellTypedText run.program.items P × IsCodeOf P code.now }
    ensures { IsOutcome command.Replay bytes.now result.status (events_of result.history) result.text.items }
{
    match check_run(alloc, code, &run) {
        Ok(()) => {}
        Err(RunFault::NotLegal { entry }) => return Outcome::bare(
            alloc,
            Status::NotLegal { entry },
        ),
        Err(RunFault::NoMemory) => return Outcome::bare(alloc, Status::NoMemory),
    }
    match legal_line(alloc, run.history.len(), run.races.len()) {
        Ok(text) => Outcome {
            status: ending(run.finish, &run.races),
            history: run.history,
            text,
        },
        Err(_) => Outcome::bare(alloc, Status::NoMemory),
    }
}
