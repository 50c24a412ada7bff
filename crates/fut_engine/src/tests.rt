//! Programs on 1 to 64 workers: each history is made again, entry by entry, and its races and cells compared.
ghost use Rattle.std.specs.Prelude.{◌+◌, ◌<◌, ◌≤◌, ◌^◌, length, IfOk};
ghost use Rattle.fut_syntax.specs.Trees as tree;
ghost use Rattle.fut_check.specs.Items.{IsWellTyped};
ghost use Rattle.task_code.specs.Flat.{IsCodeOf};
ghost use Rattle.run_replay.specs.Replays.{IsSomeReplay};

use crate::run::{Options, run};
use fut_base::gate::{FreeGate, Gate};
use fut_base::list::NoMemory;
use fut_base::record::{Entry, Finish, Limits, Ran};
use fut_check::check;
use fut_syntax::parse;
use run_replay::replay::Replay;
use run_replay::step::StepStop;
use std::alloc::Global;
use std::sync::Wait;
use std::sync::atomic::{AtomicU64, Ordering};
use std::test::Fail;
use std::thread;
use std::thread::Threads;
use task_code::code::Code;

/// The code of a well-typed text; of another one it is want of memory.
fn code_of(alloc: Global, text: &[u8]) -> Result<Code, NoMemory>
    requires { length text.now + 1 < 2 ^ 32 }
    ensures { IfOk result (λ code. (P : tree.Program) × IsWellTyped P × IsCodeOf P code) }
{
    match parse(alloc, text) {
        Ok(program) => match check(alloc, &program) {
            Ok(checked) => Code::of(alloc, &checked),
            Err(_) => Err(NoMemory),
        },
        Err(_) => Err(NoMemory),
    }
}

/// A run of at most 1,000,000 entries on 1 to 64 workers; for other numbers it is want of memory.
fn run_with<G: Gate + Sync, R: Threads + Wait + Sync>(
    rt: &R,
    alloc: Global,
    code: &Code,
    workers: u32,
    events: u32,
    gate: &G,
) -> Result<Ran, NoMemory>
    requires { (P : tree.Program) × IsWellTyped P × IsCodeOf P code.now }
{
    if workers == 0 || workers > 64 || events > 1_000_000 {
        return Err(NoMemory);
    }
    let limits = Limits {
        events,
        local_steps: 1_000_000,
        futures: 4096,
    };
    run(rt, alloc, code, Options { workers, limits }, gate)
}

/// What a run of fewer than 1,000,000 entries answers to an event.
fn answer(run: &mut Replay, code: &Code, entry: &Entry) -> Result<(), StepStop>
    requires { IsSomeReplay code.now run.old }
    ensures { IsSomeReplay code.now run.new }
{
    if run.entries() >= 1_000_000 {
        return Err(StepStop::NoMemory);
    }
    run.step(code, entry)
}

/// Makes these events; whether each was made.
fn make_all(run: &mut Replay, code: &Code, entries: &[Entry]) -> bool
    requires { IsSomeReplay code.now run.old }
    ensures { IsSomeReplay code.now run.new }
{
    for entry in entries {
        if answer(run, code, entry).is_err() {
            return false;
        }
    }
    true
}

/// Whether the entries of a run are steps, its races are those of the steps, and its cells what they leave.
fn is_replayed(alloc: Global, code: &Code, ran: &Ran) -> Result<bool, NoMemory>
    requires { (P : tree.Program) × IsWellTyped P × IsCodeOf P code.now }
{
    let mut again = Replay::start(alloc, code)?;
    if !make_all(&mut again, code, ran.history.as_slice()) {
        return Ok(false);
    }
    let races = again.races(alloc)?;
    let cells = again.cells(alloc)?;
    Ok(races.as_slice() == ran.races.as_slice() && cells.as_slice() == ran.cells.as_slice())
}

/// 511 tasks in a tree, whose leaves write a cell each; and the sum of what they wrote.
const TREE: &str =
    "cells a[256]; cells sum[1]; task node(i: int, n: int) int { if n < 2 { a[i] = i; return 0; } var h: int = n / 2; spawn node(i, h); spawn node(i + h, h); sync; return 0; } task main() int { spawn node(0, 256); sync; var k: int; var s: int; while k < 256 { var v: int = a[k]; s = s + v; k = k + 1; } sum[0] = s; return s; }";

/// 300 futures, each of which waits for the one before.
const CHAIN: &str =
    "cells sum[1]; task first() int { return 1; } task next(h: fut int) int { var v: int = get h; return v + 1; } task main() int { var h: fut int = create first(); var k: int; while k < 299 { h = create next(h); k = k + 1; } var v: int = get h; sum[0] = v; return v; }";

/// 200 children that wait for one future, and write a cell each.
const WAITERS: &str =
    "cells a[200]; cells sum[1]; task slow() int { var k: int; while k < 2000 { k = k + 1; } return 7; } task one(i: int, h: fut int) int { var v: int = get h; a[i] = v; return 0; } task main() int { var h: fut int = create slow(); var k: int; while k < 200 { spawn one(k, h); k = k + 1; } sync; k = 0; var s: int; while k < 200 { var v: int = a[k]; s = s + v; k = k + 1; } sum[0] = s; return s; }";

/// 400 children that add to one cell.
const RACY: &str =
    "cells sum[1]; task add_one() int { var v: int = sum[0]; sum[0] = v + 1; return 0; } task main() int { var k: int; while k < 400 { spawn add_one(); k = k + 1; } sync; return 0; }";

#[test]
fn whole_runs_replay(rt: HostRuntime) -> Result<(), Fail> {
    let alloc = rt.alloc();
    let cases = [
        (TREE, 511, Some(32640)),
        (CHAIN, 301, Some(300)),
        (WAITERS, 202, Some(1400)),
        (RACY, 401, None),
    ];
    for (text, ends, sum) in cases {
        let text = text.as_bytes();
        assert!(rt; text.len() < 8192);
        let code = code_of(alloc, text)?;
        for workers in [1u32, 2, 8, 64] {
            let ran = run_with(&rt, alloc, &code, workers, 1_000_000, &FreeGate)?;
            assert_eq!(rt; ran.finish, Finish::Whole);
            assert!(rt; is_replayed(alloc, &code, &ran)?);
            assert_eq!(rt; ran.races.len() == 0, sum.is_some());
            if let Some(sum) = sum {
                assert_eq!(rt; ran.cells.as_slice().last(), Some(&sum));
            }
            assert!(rt; ran.history.len() > ends);
        }
    }
    Ok(())
}

/// It creates futures without end.
const CREATES: &str =
    "task leaf() int { return 0; } task main() int { var k: int; while k < 5000 { var h: fut int = create leaf(); k = k + 1; } return 0; }";

/// A child goes on with local steps without end.
const SPINS: &str =
    "cells a[1]; task spin() int { while 1 { } return 0; } task main() int { spawn spin(); a[0] = 1; sync; return 0; }";

#[test]
fn budgets_end_runs(rt: HostRuntime) -> Result<(), Fail> {
    let alloc = rt.alloc();
    let cases = [
        (TREE, 100, Finish::Events { bound: 100 }),
        (RACY, 0, Finish::Events { bound: 0 }),
        (CHAIN, 301, Finish::Events { bound: 301 }),
        (CREATES, 1_000_000, Finish::Futures { task: 0 }),
        (SPINS, 1_000_000, Finish::Local { task: 1 }),
    ];
    for (text, events, finish) in cases {
        let text = text.as_bytes();
        assert!(rt; text.len() < 8192);
        let code = code_of(alloc, text)?;
        for workers in [1u32, 2, 8] {
            let ran = run_with(&rt, alloc, &code, workers, events, &FreeGate)?;
            assert_eq!(rt; ran.finish, finish);
            assert!(rt; is_replayed(alloc, &code, &ran)?);
        }
    }
    Ok(())
}

const PATIENCE: u32 = 20_000_000;

/// Holds the workers, from their tenth call on, until two are in a call at once, for a bounded time.
#[derive(Drop)]
struct Meeting {
    workers: u32,
    calls: AtomicU64,
    inside: AtomicU64,
    met: AtomicU64,
    strangers: AtomicU64,
}

impl Meeting {
    fn of(workers: u32) -> Meeting {
        Meeting {
            workers,
            calls: AtomicU64::new(0),
            inside: AtomicU64::new(0),
            met: AtomicU64::new(0),
            strangers: AtomicU64::new(0),
        }
    }

    /// Waits until two are inside.
    fn hold(&self) {
        for _ in 0..PATIENCE {
            if self.met.load(Ordering::SeqCst) > 0 {
                return;
            }
            if self.inside.load(Ordering::SeqCst) > 1 {
                self.met.store(1, Ordering::SeqCst);
                return;
            }
            thread::yield_now();
        }
    }
}

impl Gate for Meeting {
    fn pass(&self, worker: u32, _events: u32) {
        if worker >= self.workers {
            self.strangers.store(1, Ordering::SeqCst);
        }
        if self.calls.fetch_add(1, Ordering::SeqCst) < 10 {
            return;
        }
        self.inside.fetch_add(1, Ordering::SeqCst);
        self.hold();
        self.inside.fetch_sub(1, Ordering::SeqCst);
    }

    fn found(&self, _cell: u32) {}
}

#[test]
fn two_threads_run_at_once(rt: HostRuntime) -> Result<(), Fail> {
    let alloc = rt.alloc();
    let text = RACY.as_bytes();
    assert!(rt; text.len() < 8192);
    let code = code_of(alloc, text)?;
    let gate = Meeting::of(2);
    let ran = run_with(&rt, alloc, &code, 2, 1_000_000, &gate)?;
    assert_eq!(rt; ran.finish, Finish::Whole);
    assert_eq!(rt; gate.met.load(Ordering::SeqCst), 1);
    assert_eq!(rt; gate.strangers.load(Ordering::SeqCst), 0);
    // the workers, and not the caller after them, made the events
    assert!(rt; gate.calls.load(Ordering::SeqCst) >= ran.history.len() as u64);
    assert!(rt; is_replayed(alloc, &code, &ran)?);
    Ok(())
}
