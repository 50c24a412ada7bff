//! What is due after the reading: how the call ends, or a run on several workers.
ghost use Rattle.std.specs.Prelude.{◌≡◌, ◌≢◌, IfOk};
ghost use Rattle.fut_base.specs.Events.{events_of};
ghost use Rattle.fut_syntax.specs.Trees as tree;
ghost use Rattle.fut_driver.specs.Given.{Asked};
ghost use Rattle.fut_driver.specs.Verdict.{IsVerdict};
ghost use Rattle.fut_driver.specs.Due.{due_text};
ghost use Rattle.fut_driver.specs.Outcomes.{IsJob, IsAsked, RanAs};
ghost use Rattle.fut_driver.specs.declared.status.Status.TheVariants as status;

use crate::form::Form;
use crate::outcome::Outcome;
use crate::run::{limits, outcome_of_run};
use crate::status::Status;
use fut_base::gate::Gate;
use fut_base::list::NoMemory;
use fut_engine::run::{Options, run};
use std::alloc::Global;
use std::sync::Wait;
use std::thread::Threads;
use task_code::code::Code;

/// What comes of the words and the source.
#[derive(Drop)]
pub enum Prepared {
    /// The call ends so.
    Done(Outcome),
    /// A run on several workers is due.
    Due(Job),
}

/// A run on several workers: of this code of this program text, up to so many entries, of which this text is due.
#[derive(Drop)]
pub struct Job {
    pub text: Vec<u8>,
    pub code: Code,
    pub events: u32,
    pub form: Form,
    pub workers: u32,
}

/// Makes the run, and what is due of it.
pub fn run_on_workers<R: Threads + Wait + Sync, G: Gate + Sync>(
    rt: &R,
    alloc: Global,
    job: &Job,
    gate: &G,
) -> Outcome
    requires { (P : tree.Program) × IsJob P job.now }
    ensures verdict { (a : Asked) → IsAsked a job.now → IsVerdict a result.status (events_of result.history) (due_text result.status result.text.items) }
    ensures no_usage { result.status ≢ status.Usage }
{
    match run_job(rt, alloc, job, gate) {
        Ok(outcome) => outcome,
        Err(NoMemory) => Outcome::bare(alloc, Status::NoMemory),
    }
}

/// Makes the run.
fn run_job<R: Threads + Wait + Sync, G: Gate + Sync>(
    rt: &R,
    alloc: Global,
    job: &Job,
    gate: &G,
) -> Result<Outcome, NoMemory>
    requires { (P : tree.Program) × IsJob P job.now }
    ensures { IfOk result
        (λ o. (P : tree.Program) → IsJob P job.now → RanAs P job.now.workers job.now.events job.now.form job.now.text.items o.status
        (events_of o.history) o.text.items) }
{
    let options = Options {
        workers: job.workers,
        limits: limits(job.events),
    };
    let ran = run(rt, alloc, &job.code, options, gate)?;
    outcome_of_run(
        alloc,
        job.text.as_slice(),
        &job.code,
        ran,
        job.events,
        job.form,
    )
}
