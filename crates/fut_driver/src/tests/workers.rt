//! Runs on several workers.
use crate::status::Status;
use crate::tests::{CROSSED, RACE, REPLAY, SYNC, ask};
use crate::top::forder;
use command_words::words::Words;
use fut_base::gate::Gate;
use fut_base::memory::{MemSink, MemSource};
use fut_base::record::{Act, Entry};
use run_record::reader::read_run;
use std::sync::atomic::{AtomicU64, Ordering};
use std::test::Fail;
use std::thread;

/// Futures that are got by others, and children that make futures.
const WIDE: &str =
    "cells a[64];\ntask leaf(n: int) int { a[n] = n; return n; }\ntask both(l: fut int, r: fut int) int { var x: int = get l; var y: int = get r; return x + y; }\ntask tree(n: int, at: int) int { if n == 0 { return at; } var l: fut int = create tree(n - 1, at * 2); var r: fut int = create tree(n - 1, (at * 2) + 1); var b: fut int = create both(l, r); var x: int = get b; spawn leaf(at); sync; return x; }\ntask main() int { var x: int = 0; var h: fut int = create tree(5, 1); x = get h; var i: int = 0; while i < 64 { spawn leaf(i); i = i + 1; } sync; return x; }\n";

/// All tasks write one cell.
const RACY: &str =
    "cells a[1];\ntask t(n: int) int { a[0] = n; if n > 0 { spawn t(n - 1); spawn t(n - 1); } return 0; }\ntask main() int { spawn t(6); sync; return 0; }\n";

/// Many children, each with a cell of its own.
const KIDS: &str =
    "cells a[300];\ntask kid(i: int) int { a[i] = i; return 0; }\ntask main() int { var i: int; while i < 300 { spawn kid(i); i = i + 1; } sync; return 0; }\n";

/// Thousands of children, each with a cell of its own.
const THOUSANDS: &str =
    "cells a[5000];\ntask kid(i: int) int { a[i] = i; return 0; }\ntask main() int { var i: int; while i < 5000 { spawn kid(i); i = i + 1; } sync; return 0; }\n";

/// A grid of futures, of which one forgets to get the one above it.
pub const FORGOTTEN: &str =
    "cells a[64];\ntask corner() int { a[0] = 1; return 0; }\ntask top(j: int, left: fut int) int {\n  var g: int = get left;\n  var q: int = a[j - 1];\n  a[j] = q + 1;\n  return 0;\n}\ntask side(i: int, up: fut int) int {\n  var g: int = get up;\n  var p: int = a[(i - 1) * 8];\n  a[i * 8] = p + 1;\n  return 0;\n}\ntask inner(i: int, j: int, up: fut int, left: fut int) int {\n  var g: int; if ((i * 8) + j) != 36 { g = get up; }\n  g = get left;\n  var p: int = a[((i - 1) * 8) + j];\n  var q: int = a[(i * 8) + (j - 1)];\n  a[(i * 8) + j] = (p + q) + 1;\n  return 0;\n}\ntask main() int {\n  var h: fut int = create corner();\n  var row: fut int[8] = h;\n  var up: fut int = h;\n  var i: int = 1;\n  var j: int = 1;\n  while j < 8 { h = create top(j, h); row[j] = h; j = j + 1; }\n  while i < 8 {\n    up = row[0];\n    h = create side(i, up);\n    row[0] = h;\n    j = 1;\n    while j < 8 {\n      up = row[j];\n      h = create inner(i, j, up, h);\n      row[j] = h;\n      j = j + 1;\n    }\n    i = i + 1;\n  }\n  var x: int = get h;\n  return x;\n}\n";

/// A run on so many workers ends so, and a replay of its record says the same.
#[test]
fn records_of_runs_on_workers_are_legal(rt: HostRuntime) -> Result<(), Fail> {
    let cases: [(&str, Status); 4] = [
        (RACE, Status::Raced),
        (SYNC, Status::Clean),
        (WIDE, Status::Clean),
        (RACY, Status::Raced),
    ];
    for (text, status) in cases {
        for workers in ["1", "2", "5", "64"] {
            let words = ["run", "--workers", workers];
            let run = ask(&rt, &words, text.as_bytes())?;
            assert_eq!(rt; run.status, status);
            let replayed = ask(&rt, &REPLAY, run.text.as_slice())?;
            assert_eq!(rt; replayed.status, status);
            assert_eq!(rt; replayed.entries, run.entries);
        }
    }
    Ok(())
}

/// The budgets of a run on workers.
#[test]
fn runs_on_workers_are_bounded(rt: HostRuntime) -> Result<(), Fail> {
    let cases: [(&str, &str, &str); 3] = [
        (
            "task main() int { spawn main(); return 0; }",
            "12",
            "finish events 12\nend\n",
        ),
        (
            "task main() int { while 1 { } return 0; }",
            "12",
            "finish local 0\nend\n",
        ),
        (
            "task f() int { return 0; } task main() int { while 1 { var h: fut int = create f(); } return 0; }",
            "1000000",
            "finish futures 0\nend\n",
        ),
    ];
    for (text, events, end) in cases {
        let words = ["run", "--workers", "3", "--events", events];
        let run = ask(&rt, &words, text.as_bytes())?;
        assert_eq!(rt; run.status.number(), 4);
        assert!(rt; run.ends_in(end));
        let replayed = ask(&rt, &REPLAY, run.text.as_slice())?;
        assert_eq!(rt; replayed.status.number(), 4);
    }
    Ok(())
}

/// What every run of a text gives.
#[test]
fn brief_texts_of_runs_on_workers(rt: HostRuntime) -> Result<(), Fail> {
    let cases: [(&str, &str); 3] = [
        (
            THOUSANDS,
            "tasks 5001\nfutures 0\nevents 15002\nraces 0\nfinish whole\n",
        ),
        (
            CROSSED,
            "tasks 5\nfutures 4\nevents 23\nraces 0\nfinish whole\n",
        ),
        (
            KIDS,
            "tasks 301\nfutures 0\nevents 902\nraces 0\nfinish whole\n",
        ),
    ];
    for (text, due) in cases {
        for workers in ["1", "3", "8", "64"] {
            let words = ["run", "--workers", workers, "--brief"];
            let run = ask(&rt, &words, text.as_bytes())?;
            assert_eq!(rt; run.status, Status::Clean);
            assert_eq!(rt; run.text.as_slice(), due.as_bytes());
        }
    }
    Ok(())
}

/// Whether an entry is a write of a task, or a read.
fn is_access(entry: Option<&Entry>, task: u32, writes: bool) -> bool {
    match entry {
        Some(found) => match found.act {
            Act::Write { .. } => writes && found.task == task,
            Act::Read { .. } => !writes && found.task == task,
            _ => false,
        },
        None => false,
    }
}

/// In every run one cell races, by these two accesses, of which the first is a write.
#[test]
fn races_of_runs_on_workers(rt: HostRuntime) -> Result<(), Fail> {
    let cases: [(&str, u32, u32, u32, bool, usize); 2] = [
        (RACE, 0, 1, 0, true, 6),
        (FORGOTTEN, 28, 29, 37, false, 417),
    ];
    for (text, cell, writer, other, writes, entries) in cases {
        for workers in ["4", "8"] {
            let words = ["run", "--workers", workers];
            let run = ask(&rt, &words, text.as_bytes())?;
            assert_eq!(rt; run.status, Status::Raced);
            assert_eq!(rt; run.entries, entries);
            assert!(rt; run.text.len() < 100_000);
            let record = read_run(rt.alloc(), run.text.as_slice())?;
            assert_eq!(rt; record.races.len(), 1);
            for race in record.races.as_slice() {
                assert_eq!(rt; race.cell, cell);
                let first = record.history.at(race.first as usize);
                let second = record.history.at(race.second as usize);
                let in_order = is_access(first, writer, true) && is_access(second, other, writes);
                let turned = is_access(first, other, writes) && is_access(second, writer, true);
                assert!(rt; in_order || turned);
            }
        }
    }
    Ok(())
}

/// How often a held worker looks, at most.
const PATIENCE: u32 = 50_000_000;

/// Holds the worker that makes the first event, before its third, until another one has made an event.
#[derive(Drop)]
struct Holding {
    /// The worker of the first event, counted from one.
    first: AtomicU64,
    others: AtomicU64,
    held: AtomicU64,
    gave_up: AtomicU64,
}

impl Holding {
    fn new() -> Holding {
        Holding {
            first: AtomicU64::new(0),
            others: AtomicU64::new(0),
            held: AtomicU64::new(0),
            gave_up: AtomicU64::new(0),
        }
    }

    fn hold(&self) {
        self.held.store(1, Ordering::SeqCst);
        for _ in 0..PATIENCE {
            if self.others.load(Ordering::SeqCst) > 0 {
                return;
            }
            thread::yield_now();
        }
        self.gave_up.store(1, Ordering::SeqCst);
    }
}

impl Gate for Holding {
    fn pass(&self, worker: u32, events: u32) {
        let me = worker as u64 + 1;
        // there is one task at first, so nobody else calls before its first event
        if self.first.load(Ordering::SeqCst) == 0 {
            self.first.store(me, Ordering::SeqCst);
        }
        if self.first.load(Ordering::SeqCst) != me {
            if events > 0 {
                self.others.store(1, Ordering::SeqCst);
            }
        } else if events == 2 {
            self.hold();
        }
    }

    fn found(&self, _cell: u32) {}
}

/// The place of the spawn of a task.
fn spawn_of(entries: &[Entry], task: u32) -> Option<usize> {
    for place in 0..entries.len() {
        if let Act::Spawn { child, .. } = &entries[place].act {
            if *child == task {
                return Some(place);
            }
        }
    }
    None
}

/// The place of the end of a task.
fn end_of(entries: &[Entry], task: u32) -> Option<usize> {
    for place in 0..entries.len() {
        if let Act::End { .. } = &entries[place].act {
            if entries[place].task == task {
                return Some(place);
            }
        }
    }
    None
}

/// While one worker is held before the end of task 1, the other one spawns task 2.
#[test]
fn two_workers_make_events(rt: HostRuntime) -> Result<(), Fail> {
    let alloc = rt.alloc();
    let mut words = Words::make(alloc);
    for word in ["run", "--workers", "2"] {
        words.push(word)?;
    }
    let mut source = MemSource::make(alloc, KIDS.as_bytes(), 4096, &[])?;
    let mut out = MemSink::make(alloc, 1_000_000, 4096, &[])?;
    let gate = Holding::new();
    let ended = forder(&rt, alloc, &words, &mut source, &mut out, &gate);
    assert_eq!(rt; ended.status, Status::Clean);
    assert_eq!(rt; gate.held.load(Ordering::SeqCst), 1);
    assert_eq!(rt; gate.gave_up.load(Ordering::SeqCst), 0);
    let entries = ended.history.as_slice();
    let spawn = spawn_of(entries, 2);
    let end = end_of(entries, 1);
    assert!(rt; spawn.is_some() && end.is_some());
    assert!(rt; spawn < end);
    Ok(())
}
