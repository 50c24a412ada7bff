//! Given events: those of a run are made, and others are refused.
ghost use Rattle.std.specs.Prelude.{◌+◌, ◌<◌, ◌^◌, length, IfOk};
ghost use Rattle.fut_syntax.specs.Trees as tree;
ghost use Rattle.fut_check.specs.Items.{IsWellTyped};
ghost use Rattle.task_code.specs.Flat.{IsCodeOf};
ghost use Rattle.run_replay.specs.Replays.{IsSomeReplay};

use crate::replay::Replay;
use crate::serial::serial;
use crate::step::StepStop;
use fut_base::list::{Listing, NoMemory};
use fut_base::record::{Act, Entry, Limits, Value};
use fut_check::check;
use fut_syntax::parse;
use std::alloc::Global;
use std::test::Fail;
use task_code::code::Code;

/// A future and a child write a cell; `main` waits for the child, reads, and gets the future. Its serial run:
/// 0 t0 s0 create 0 t1 s1 s2 3, 1 t1 s1 write 0 3, 2 t1 s1 end 5, 3 t0 s2 spawn 0 t2 s3 s4 4, 4 t2 s3 write 0 4, 5 t2 s3 end 5,
/// 6 t0 s4 sync s5, 7 t0 s5 read 0 4, 8 t0 s5 get f1 5 s6, 9 t0 s6 end 5.
const TEXT: &str =
    "cells a[1]; task kid(n: int) int { a[0] = n; return 5; } task main() int { var h: fut int = create kid(3); spawn kid(4); sync; var x: int = a[0]; var y: int = get h; return y; }";

/// The code of a well-typed text; of another one it is want of memory.
fn code_of(alloc: Global, text: &[u8]) -> Result<Code, NoMemory>
    requires { length text.now + 1 < 2 ^ 32 }
    ensures { IfOk result (λ code. (P : tree.Program) × IsWellTyped P × IsCodeOf P code) }
{
    match parse(alloc, text) {
        Ok(program) => match check(alloc, &program) {
            Ok(checked) => Code::of(alloc, &checked),
            Err(_) => Err(NoMemory),
        },
        Err(_) => Err(NoMemory),
    }
}

/// What a run of fewer than 1,000 entries answers to an event.
fn answer(run: &mut Replay, code: &Code, entry: &Entry) -> Result<(), StepStop>
    requires { IsSomeReplay code.now run.old }
    ensures { IsSomeReplay code.now run.new }
{
    if run.entries() >= 1000 {
        return Err(StepStop::NoMemory);
    }
    run.step(code, entry)
}

/// Makes these events; whether each was made.
fn make_all(run: &mut Replay, code: &Code, entries: &[Entry]) -> bool
    requires { IsSomeReplay code.now run.old }
    ensures { IsSomeReplay code.now run.new }
{
    for entry in entries {
        if answer(run, code, entry).is_err() {
            return false;
        }
    }
    true
}

/// Makes the events before a place, tries another one, and makes those from the place on. How the other one was refused, where
/// all these were made.
fn refusal(
    alloc: Global,
    code: &Code,
    entries: &[Entry],
    place: usize,
    other: &Entry,
) -> Result<Option<StepStop>, NoMemory>
    requires { (P : tree.Program) × IsWellTyped P × IsCodeOf P code.now }
{
    if place > entries.len() {
        return Ok(None);
    }
    let mut run = Replay::start(alloc, code)?;
    let (before, later) = entries.split_at(place);
    let made = make_all(&mut run, code, before);
    let told = answer(&mut run, code, other);
    if made && make_all(&mut run, code, later) {
        return Ok(told.err());
    }
    Ok(None)
}

#[test]
fn other_events_are_refused(rt: HostRuntime) -> Result<(), Fail> {
    let alloc = rt.alloc();
    let text = TEXT.as_bytes();
    assert!(rt; text.len() < 8192);
    let code = code_of(alloc, text)?;
    let limits = Limits {
        events: 1000,
        local_steps: 1_000_000,
        futures: 4096,
    };
    let ran = serial(alloc, &code, limits)?;
    assert_eq!(rt; ran.history.len(), 10);
    let none = Listing::make(alloc);
    let get = |value| Act::Get {
        future: 1,
        value,
        strand: 6,
    };
    let end = Act::End {
        value: Value::Int(5),
    };
    let cases = [
        // another value read, written, got, or ended with
        (7, 0, 5, Act::Read { cell: 0, value: 3 }),
        (4, 2, 3, Act::Write { cell: 0, value: 3 }),
        (8, 0, 5, get(Value::Int(6))),
        (8, 0, 5, get(Value::Fut(5))),
        (
            9,
            0,
            6,
            Act::End {
                value: Value::Int(6),
            },
        ),
        // another strand, or another task
        (4, 2, 4, Act::Write { cell: 0, value: 4 }),
        (4, 1, 3, Act::Write { cell: 0, value: 4 }),
        (4, 3, 3, Act::Write { cell: 0, value: 4 }),
        // other arguments
        (
            3,
            0,
            2,
            Act::Spawn {
                code: 0,
                child: 2,
                kid: 3,
                cont: 4,
                args: none,
            },
        ),
        // before the child has ended
        (5, 0, 4, Act::Sync { strand: 5 }),
        // before the write, and before the read
        (4, 2, 3, end),
        (7, 0, 5, get(Value::Int(5))),
    ];
    for (place, task, strand, act) in cases {
        let other = Entry { task, strand, act };
        let told = refusal(alloc, &code, ran.history.as_slice(), place, &other)?;
        assert_eq!(rt; told, Some(StepStop::NotLegal), "{place}");
    }
    Ok(())
}

const MOST: Limits = Limits {
    events: 1_000_000,
    local_steps: 1_000_000,
    futures: 4096,
};

/// A future writes a cell and ends with 7, and `main` gets it. The serial run: 0 t0 s0 create 0 t1 s1 s2, 1 t1 s1 write 0 1,
/// 2 t1 s1 end 7, 3 t0 s2 get f1 7 s3, 4 t0 s3 write 0 7, 5 t0 s3 end 0.
const GOT: &str =
    "cells a[1]; task f() int { a[0] = 1; return 7; } task main() int { var h: fut int = create f(); var x: int = get h; a[0] = x; return 0; }";

/// The first unended task in English order after so many of these entries; `None` also where one of them was not made.
fn first_task(
    alloc: Global,
    code: &Code,
    entries: &[Entry],
    count: usize,
) -> Result<Option<u32>, NoMemory>
    requires { (P : tree.Program) × IsWellTyped P × IsCodeOf P code.now }
{
    if count > entries.len() {
        return Ok(None);
    }
    let mut run = Replay::start(alloc, code)?;
    if !make_all(&mut run, code, &entries[..count]) {
        return Ok(None);
    }
    Ok(run.next_ready())
}

#[test]
fn first_tasks_are_named(rt: HostRuntime) -> Result<(), Fail> {
    let alloc = rt.alloc();
    let text = GOT.as_bytes();
    assert!(rt; text.len() < 8192);
    let code = code_of(alloc, text)?;
    let ran = serial(alloc, &code, MOST)?;
    let entries = ran.history.as_slice();
    assert_eq!(rt; entries.len(), 6);
    let firsts = [
        (0, Some(0)),
        (1, Some(1)),
        (2, Some(1)),
        (3, Some(0)),
        (4, Some(0)),
        (5, Some(0)),
        (6, None),
    ];
    for (count, first) in firsts {
        assert_eq!(rt; first_task(alloc, &code, entries, count)?, first, "{count}");
    }
    let get = Entry {
        task: 0,
        strand: 2,
        act: Act::Get {
            future: 1,
            value: Value::Int(7),
            strand: 3,
        },
    };
    // the future has not ended: the get is refused, and the run goes on as if it had not been tried
    for place in [1, 2] {
        let told = refusal(alloc, &code, entries, place, &get)?;
        assert_eq!(rt; told, Some(StepStop::NotLegal), "{place}");
    }
    Ok(())
}

/// Three children end with 2, while `main` waits for them.
const THREE: &str =
    "cells a[1]; task kid() int { return 2; } task main() int { spawn kid(); spawn kid(); spawn kid(); sync; return 0; }";

fn entry(task: u32, strand: u32, act: Act) -> Entry {
    Entry { task, strand, act }
}

fn spawn(alloc: Global, child: u32, kid: u32, cont: u32) -> Act {
    Act::Spawn {
        code: 0,
        child,
        kid,
        cont,
        args: Listing::make(alloc),
    }
}

fn end(value: i64) -> Act {
    Act::End {
        value: Value::Int(value),
    }
}

/// A legal run of it in which the second child ends first, then the third, and then the first.
fn first_ends_last(alloc: Global) -> [Entry; 8] {
    [
        entry(0, 0, spawn(alloc, 1, 1, 2)),
        entry(0, 2, spawn(alloc, 2, 3, 4)),
        entry(0, 4, spawn(alloc, 3, 5, 6)),
        entry(2, 3, end(2)),
        entry(3, 5, end(2)),
        entry(1, 1, end(2)),
        entry(0, 6, Act::Sync { strand: 7 }),
        entry(0, 7, end(0)),
    ]
}

#[test]
fn tasks_leave_the_order(rt: HostRuntime) -> Result<(), Fail> {
    let alloc = rt.alloc();
    let text = THREE.as_bytes();
    assert!(rt; text.len() < 8192);
    let code = code_of(alloc, text)?;
    let entries = first_ends_last(alloc);
    let firsts = [
        (0, Some(0)),
        (1, Some(1)),
        (2, Some(1)),
        (3, Some(1)),
        (4, Some(1)),
        (5, Some(1)),
        (6, Some(0)),
        (7, Some(0)),
        (8, None),
    ];
    for (count, first) in firsts {
        assert_eq!(rt;
            first_task(alloc, &code, &entries, count)?,
            first,
            "{count}"
        );
    }
    Ok(())
}
