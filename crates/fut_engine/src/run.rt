//! A run on workers.
ghost use Rattle.std.specs.Prelude.{◌≡◌, ◌≤◌, length, IfOk};
ghost use Rattle.fut_base.specs.declared.limits.TheConstants.{MOST_CREATES, MOST_ENTRIES, MOST_LOCAL_STEPS, MOST_WORKERS};
ghost use Rattle.fut_base.specs.Events.{events_of};
ghost use Rattle.fut_base.specs.Racing.{IsReport};
ghost use Rattle.fut_syntax.specs.Trees as tree;
ghost use Rattle.fut_check.specs.Items.{IsWellTyped};
ghost use Rattle.task_code.specs.Flat.{IsCodeOf};
ghost use Rattle.run_replay.specs.Serials.{IsNeverStuck};
ghost use Rattle.fut_engine.specs.Runs.{IsRun};
ghost use Rattle.fut_engine.specs.Wholes.{IsNamed};

use crate::naming::Naming;
use crate::shared::may_share_code;
use crate::sharing::{Lends, Sharing};
use crate::whole::Whole;
use fut_base::gate::Gate;
use fut_base::list::NoMemory;
use fut_base::ready::Ready;
use fut_base::record::{Limits, Ran};
use std::alloc::Global;
use std::marker::Brand;
use std::sync::{Mutex, Wait};
use std::thread::Threads;
use steal_pool::pool::run_jobs;
use task_code::code::Code;

/// How many workers a run has, from 1 to 64, and its limits.
#[derive(Clone, Copy, Debug, PartialEq, Eq)]
pub struct Options {
    pub workers: u32,
    pub limits: Limits,
}

/// So many numbers, each 0.
fn zeros(alloc: Global, count: u32) -> Result<Ready<u32>, NoMemory>
    ensures { IfOk result (λ r. length r.items ≡ count) }
{
    let mut all = Ready::make(alloc);
    for _number in 0..count {
        all.reserve()?;
        all.push(0);
    }
    Ok(all)
}

/// The workers make events until no task may go on or one of them has halted.
fn work_all<J: Naming + Send + Sync, C: Lends + Sync, G: Gate + Sync, R: Threads + Wait + Sync>(
    rt: &R,
    alloc: Global,
    workers: u32,
    whole: &Mutex<Whole<J>>,
    code: &C,
    gate: &G,
) -> Result<(), NoMemory>
    requires code { C.lent code.now ≡ J.code }
    requires workers { (1 ≤ workers) × (workers ≤ MOST_WORKERS) }
{
    let owns = zeros(alloc, workers)?;
    let sharing = Sharing {
        alloc,
        whole,
        code,
        gate,
    };
    let _left = run_jobs(rt, alloc, owns, 0u32, &sharing)?;
    Ok(())
}

/// The workers make events, and then the caller makes those that are left.
fn run_named<J: Naming + Send + Sync, G: Gate + Sync, R: Threads + Wait + Sync>(
    rt: &R,
    alloc: Global,
    code: &Code,
    options: Options,
    gate: &G,
) -> Result<Ran, NoMemory>
    requires code { code.now ≡ J.code }
    requires limits { options.limits ≡ J.limits }
    requires name { IsNamed code.now options.limits }
    requires workers { (1 ≤ options.workers) × (options.workers ≤ MOST_WORKERS) }
    ensures run { IfOk result
        (λ ran. (P : tree.Program) → IsWellTyped P → IsCodeOf P code.now → IsRun P options.limits (events_of ran.history) ran.finish ran.cells.items) }
    ensures races { IfOk result (λ ran. IsReport (events_of ran.history) ran.races.items) }
    ensures never_stuck { IfOk result (λ ran. (P : tree.Program) → IsWellTyped P → IsCodeOf P code.now → IsNeverStuck P (events_of ran.history)) }
{
    let whole: Mutex<Whole<J>> = Mutex::new(Whole::make(alloc, code, options.limits)?);
    may_share_code(code);
    work_all(rt, alloc, options.workers, &whole, code, gate)?;
    whole.into_inner().rest(code)
}

/// Runs a program on workers. Which of its legal histories comes is left to their order.
pub fn run<G: Gate + Sync, R: Threads + Wait + Sync>(
    rt: &R,
    alloc: Global,
    code: &Code,
    options: Options,
    gate: &G,
) -> Result<Ran, NoMemory>
    requires program { (P : tree.Program) × IsWellTyped P × IsCodeOf P code.now }
    requires workers { (1 ≤ options.workers) × (options.workers ≤ MOST_WORKERS) }
    requires local { options.limits.local_steps ≡ MOST_LOCAL_STEPS }
    requires events { options.limits.events ≤ MOST_ENTRIES }
    requires futures { options.limits.futures ≡ MOST_CREATES }
    ensures run { IfOk result
        (λ ran. (P : tree.Program) → IsWellTyped P → IsCodeOf P code.now → IsRun P options.limits (events_of ran.history) ran.finish ran.cells.items) }
    ensures races { IfOk result (λ ran. IsReport (events_of ran.history) ran.races.items) }
    ensures never_stuck { IfOk result (λ ran. (P : tree.Program) → IsWellTyped P → IsCodeOf P code.now → IsNeverStuck P (events_of ran.history)) }
{
    run_named::<Brand, G, R>(rt, alloc, code, options, gate)
}
