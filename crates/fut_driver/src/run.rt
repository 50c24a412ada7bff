//! A program printed, or run.
ghost use Rattle.std.specs.Prelude.{◌≡◌, ◌≤◌, ℕ, length, IfOk};
ghost use Rattle.fut_base.specs.Events.{events_of};
ghost use Rattle.fut_base.specs.Racing.{IsReport};
ghost use Rattle.fut_base.specs.declared.limits.TheConstants.{MOST_PROGRAM_BYTES};
ghost use Rattle.fut_syntax.specs.Trees as tree;
ghost use Rattle.task_code.specs.Flat.{IsCodeOf};
ghost use Rattle.fut_check.specs.Items.{IsWellTyped};
ghost use Rattle.command_words.specs.Asking.{AreWorkers, IsBound};
ghost use Rattle.run_replay.specs.Serials.{IsSerialRun};
ghost use Rattle.fut_engine.specs.Runs.{IsRun};
ghost use Rattle.fut_driver.specs.Verdict.{AsksRun, limits_of};
ghost use Rattle.fut_driver.specs.Due.{run_due};
ghost use Rattle.fut_driver.specs.Outcomes.{IsOutcome, IsPrepared, RanAs};
ghost use Rattle.command_words.specs.declared.words.Command.{Command};
ghost use Rattle.command_words.specs.declared.words.Command.TheVariants as command;

use crate::form::Form;
use crate::gathered::Gathered;
use crate::job::{Job, Prepared};
use crate::outcome::{Outcome, ending};
use crate::program::{code_for, printed};
use crate::status::Status;
use fut_base::bounds::{finish_has_bounds, history_has_bounds};
use fut_base::limits::{MOST_CREATES, MOST_LOCAL_STEPS};
use fut_base::list::NoMemory;
use fut_base::ports::Wrote;
use fut_base::record::{Limits, Ran};
use race_report::write_brief;
use run_record::run_text::write_run;
use run_replay::serial::serial;
use std::alloc::Global;
use task_code::code::Code;

/// What comes of a program text that is to be printed.
pub fn check_text(alloc: Global, text: &[u8]) -> Outcome
    requires { length text.now ≤ MOST_PROGRAM_BYTES }
    ensures { IsOutcome command.Check text.now result.status (events_of result.history) result.text.items }
{
    match printed(alloc, text) {
        Ok(printed) => {
            let mut outcome = Outcome::bare(alloc, Status::Accepted);
            match outcome.text.extend_from_slice(printed.as_slice()) {
                Ok(()) => outcome,
                Err(_) => Outcome::bare(alloc, Status::NoMemory),
            }
        }
        Err(refusal) => Outcome::refused(alloc, refusal),
    }
}

/// What comes of a program text that is to be run up to a number of entries: on one worker its serial run, on more a run that is due.
pub fn run_text(alloc: Global, text: Vec<u8>, events: u32, form: Form, workers: u32) -> Prepared
    requires short { length text.items ≤ MOST_PROGRAM_BYTES }
    requires bounded { IsBound events }
    requires workers { AreWorkers workers }
    ensures { (c : Command) → AsksRun c events form workers → IsPrepared c text.items result }
{
    let code = match code_for(alloc, text.as_slice()) {
        Ok(code) => code,
        Err(refusal) => return Prepared::Done(Outcome::refused(alloc, refusal)),
    };
    if workers != 1 {
        return Prepared::Due(Job {
            text,
            code,
            events,
            form,
            workers,
        });
    }
    match run_code(alloc, text.as_slice(), &code, events, form) {
        Ok(outcome) => Prepared::Done(outcome),
        Err(NoMemory) => Prepared::Done(Outcome::bare(alloc, Status::NoMemory)),
    }
}

/// The limits of a run of so many entries.
pub fn limits(bound: u32) -> Limits
    ensures { result ≡ limits_of bound }
{
    Limits {
        events: bound,
        local_steps: MOST_LOCAL_STEPS,
        futures: MOST_CREATES,
    }
}

/// Makes the serial run of the code of a text.
fn run_code(
    alloc: Global,
    text: &[u8],
    code: &Code,
    events: u32,
    form: Form,
) -> Result<Outcome, NoMemory>
    requires short { length text.now ≤ MOST_PROGRAM_BYTES }
    requires program { (P : tree.Program) × IsWellTyped P × IsCodeOf P code.now }
    requires bounded { IsBound events }
    ensures { IfOk result
        (λ o. (P : tree.Program) → IsWellTyped P → IsCodeOf P code.now → RanAs P 1 events form text.now o.status (events_of o.history) o.text.items) }
{
    let ran = serial(alloc, code, limits(events))?;
    let outcome = outcome_of_run(alloc, text, code, ran, events, form)?;
    Ok(outcome)
}

/// What comes of a run of the code of a text.
pub fn outcome_of_run(
    alloc: Global,
    text: &[u8],
    code: &Code,
    ran: Ran,
    events: u32,
    form: Form,
) -> Result<Outcome, NoMemory>
    requires short { length text.now ≤ MOST_PROGRAM_BYTES }
    requires bounded { IsBound events }
    requires races { IsReport (events_of ran.history) ran.races.items }
    ensures { IfOk result (λ o. (P : tree.Program) (workers : ℕ) → IsWellTyped P → IsCodeOf P code.now
        → IsRun P (limits_of events) (events_of ran.history) ran.finish ran.cells.items
        → (workers ≡ 1 → IsSerialRun P (limits_of events) (events_of ran.history) ran.finish ran.cells.items)
        → RanAs P workers events form text.now o.status (events_of o.history) o.text.items) }
{
    history_has_bounds(&ran.history);
    finish_has_bounds(ran.finish);
    let made = made(alloc, text, code, &ran, form)?;
    Ok(Outcome {
        status: ending(ran.finish, &ran.races),
        history: ran.history,
        text: made,
    })
}

/// The text of a run that is due.
fn made(alloc: Global, text: &[u8], code: &Code, ran: &Ran, form: Form) -> Result<Vec<u8>, NoMemory>
    ensures { IfOk result
        (λ t. t.items ≡ run_due form text.now code.now.arrays (events_of ran.now.history) ran.now.races.items ran.now.finish ran.now.cells.items) }
{
    let mut made = Gathered::make(alloc);
    let wrote = match form {
        Form::Record => write_run(&mut made, text, &ran.history, &ran.races, ran.finish),
        Form::Brief => write_brief(&mut made, code, ran, false),
        Form::Summed => write_brief(&mut made, code, ran, true),
    };
    match wrote {
        Wrote::All => Ok(made.bytes),
        Wrote::Failed => Err(NoMemory),
    }
}
