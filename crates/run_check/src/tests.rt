//! Records: those of serial runs are accepted, and changed ones refused.
ghost use Rattle.std.specs.Prelude.{◌+◌, ◌<◌, ◌^◌, length, IfOk};
ghost use Rattle.fut_syntax.specs.Trees as tree;
ghost use Rattle.fut_check.specs.Items.{IsWellTyped};
ghost use Rattle.task_code.specs.Flat.{IsCodeOf};

use crate::checking::{RunFault, check_run};
use fut_base::acts::copy_of;
use fut_base::list::{Listing, NoMemory};
use fut_base::record::{Act, Entry, Finish, History, Limits, Race, Value};
use fut_check::check;
use fut_syntax::parse;
use run_record::record::RunText;
use run_replay::serial::serial;
use std::alloc::Global;
use std::test::Fail;
use task_code::code::Code;

const MOST: Limits = Limits {
    events: 1_000_000,
    local_steps: 1_000_000,
    futures: 4096,
};

/// The code of a well-typed text; of another one it is want of memory.
fn code_of(alloc: Global, text: &[u8]) -> Result<Code, NoMemory>
    requires { length text.now + 1 < 2 ^ 32 }
    ensures { IfOk result (λ code. (P : tree.Program) × IsWellTyped P × IsCodeOf P code) }
{
    match parse(alloc, text) {
        Ok(program) => match check(alloc, &program) {
            Ok(checked) => Code::of(alloc, &checked),
            Err(_) => Err(NoMemory),
        },
        Err(_) => Err(NoMemory),
    }
}

/// A future and a child write two cells; `main` waits for the child, reads, and gets the future. The serial run: 0 t0 s0 create 0 t1 s1 s2 3, 1 t1 s1 write 0
/// 3,
/// 2 t1 s1 write 1 3, 3 t1 s1 end 5, 4 t0 s2 spawn 0 t2 s3 s4 4, 5 t2 s3 write 0 4, 6 t2 s3 write 1 4, 7 t2 s3 end 5,
/// 8 t0 s4 sync s5, 9 t0 s5 read 0 4, 10 t0 s5 get f1 5 s6, 11 t0 s6 end 5. Its races: cell 0 at 1 and 5, cell 1 at 2 and 6.
const RACES: &str =
    "cells a[2]; task kid(n: int) int { a[0] = n; a[1] = n; return 5; } task main() int { var h: fut int = create kid(3); spawn kid(4); sync; var x: int = a[0]; var y: int = get h; return y; }";

/// `main` is out of steps.
const ENDLESS: &str = "task main() int { while 1 { } return 0; }";

/// `main` wishes to create a future after 4,096 creates.
const FUTURES: &str =
    "task kid() int { return 0; } task main() int { while 1 { var h: fut int = create kid(); } return 0; }";

/// What is changed of the entries of a record.
#[derive(Clone, Copy, Debug)]
enum Change {
    Nothing,
    /// Entry 9 reads another value.
    Read,
    /// Entry 10 gets another value.
    Got,
    /// Entry 1 stands twice.
    Doubled,
    /// Entries 1 and 2 stand in the other order.
    Swapped,
}

/// The place of the entry that a changed record has at a place.
fn source(change: Change, place: usize) -> usize {
    match change {
        Change::Doubled if place > 1 => place - 1,
        Change::Swapped if place == 1 => 2,
        Change::Swapped if place == 2 => 1,
        _ => place,
    }
}

/// The entry of a changed record at a place.
fn changed(alloc: Global, change: Change, place: usize, entry: &Entry) -> Result<Entry, NoMemory> {
    let act = match change {
        Change::Read if place == 9 => Act::Read { cell: 0, value: 3 },
        Change::Got if place == 10 => Act::Get {
            future: 1,
            value: Value::Int(6),
            strand: 6,
        },
        _ => return copy_of(alloc, entry.task, entry.strand, &entry.act),
    };
    copy_of(alloc, entry.task, entry.strand, &act)
}

/// So many entries of a changed record.
fn entries_of(
    alloc: Global,
    entries: &[Entry],
    change: Change,
    count: usize,
) -> Result<History, NoMemory> {
    let mut history = History::make(alloc);
    for place in 0..count {
        let Some(entry) = entries.get(source(change, place)) else {
            return Err(NoMemory);
        };
        let copy = changed(alloc, change, place, entry)?;
        history.reserve()?;
        history.push(copy);
    }
    Ok(history)
}

/// The entry at which a record of fewer than 100,000 entries, with these races and finish, is refused; `None` where it is accepted.
fn refused(
    alloc: Global,
    code: &Code,
    history: History,
    races: &[Race],
    finish: Finish,
) -> Result<Option<u32>, NoMemory>
    requires { (P : tree.Program) × IsWellTyped P × IsCodeOf P code.now }
{
    if history.len() >= 100_000 {
        return Err(NoMemory);
    }
    let run = RunText {
        program: Listing::make(alloc),
        history,
        races: Listing::from_vec(Vec::from_slice(alloc, races)?),
        finish,
    };
    match check_run(alloc, code, &run) {
        Ok(()) => Ok(None),
        Err(RunFault::NotLegal { entry }) => Ok(Some(entry)),
        Err(RunFault::NoMemory) => Err(NoMemory),
    }
}

/// How the serial run of a text has ended, and where its record is refused.
fn serial_refused(alloc: Global, text: &[u8]) -> Result<(Finish, Option<u32>), NoMemory>
    requires { length text.now + 1 < 2 ^ 32 }
{
    let code = code_of(alloc, text)?;
    let ran = serial(alloc, &code, MOST)?;
    let finish = ran.finish;
    let told = refused(alloc, &code, ran.history, ran.races.as_slice(), finish)?;
    Ok((finish, told))
}

#[test]
fn serial_records_are_accepted(rt: HostRuntime) -> Result<(), Fail> {
    let cases = [
        (RACES, Finish::Whole),
        (ENDLESS, Finish::Local { task: 0 }),
        (FUTURES, Finish::Futures { task: 0 }),
    ];
    for (text, finish) in cases {
        let bytes = text.as_bytes();
        assert!(rt; bytes.len() < 8192);
        let told = serial_refused(rt.alloc(), bytes)?;
        assert_eq!(rt; told, (finish, None));
    }
    Ok(())
}

#[test]
fn other_records_are_refused(rt: HostRuntime) -> Result<(), Fail> {
    let alloc = rt.alloc();
    let text = RACES.as_bytes();
    assert!(rt; text.len() < 8192);
    let code = code_of(alloc, text)?;
    let ran = serial(alloc, &code, MOST)?;
    let race = |cell, first, second| Race {
        cell,
        first,
        second,
    };
    let three = [race(0, 1, 5), race(1, 2, 6), race(2, 2, 6)];
    let (one, _) = three.split_at(1);
    let (both, _) = three.split_at(2);
    let (none, all) = three.split_at(0);
    let turned = [race(1, 2, 6), race(0, 1, 5)];
    let cases = [
        // beginnings
        (Change::Nothing, 5, none, Finish::Events { bound: 5 }, None),
        (Change::Nothing, 6, one, Finish::Events { bound: 6 }, None),
        // another value read or got, an entry twice, and two in the other order
        (Change::Read, 12, both, Finish::Whole, Some(9)),
        (Change::Got, 12, both, Finish::Whole, Some(10)),
        (Change::Doubled, 6, none, Finish::Whole, Some(2)),
        (Change::Swapped, 6, none, Finish::Whole, Some(1)),
        // a race left out, one too many, and the other order
        (Change::Nothing, 12, one, Finish::Whole, Some(12)),
        (Change::Nothing, 12, all, Finish::Whole, Some(12)),
        (Change::Nothing, 12, &turned, Finish::Whole, Some(12)),
        // another end
        (Change::Nothing, 5, none, Finish::Whole, Some(5)),
        (
            Change::Nothing,
            5,
            none,
            Finish::Events { bound: 6 },
            Some(5),
        ),
        (
            Change::Nothing,
            12,
            both,
            Finish::Events { bound: 12 },
            Some(12),
        ),
        (Change::Nothing, 5, none, Finish::Local { task: 0 }, Some(5)),
        (
            Change::Nothing,
            5,
            none,
            Finish::Futures { task: 0 },
            Some(5),
        ),
    ];
    for (change, count, races, finish, expected) in cases {
        let history = entries_of(alloc, ran.history.as_slice(), change, count)?;
        let told = refused(alloc, &code, history, races, finish)?;
        assert_eq!(rt; told, expected, "{change:?} {count} {finish:?}");
    }
    Ok(())
}
