//! Runs with as many events, futures, readers and workers as may come.
use crate::status::Status;
use crate::tests::{CROSSED, REPLAY, SERIAL, ask};
use fut_base::record::Finish;
use std::process::Abort;
use std::sync::Wait;
use std::test::Fail;
use std::thread::Threads;

/// All futures that a run may create, on several workers.
#[test]
fn the_last_create_on_workers(rt: HostRuntime) -> Result<(), Fail> {
    let text =
        "task f() int { return 0; }\ntask main() int { var h: fut int = create f(); while 1 { h = create f(); } return 0; }\n";
    for workers in ["8", "64"] {
        let words = ["run", "--workers", workers];
        let run = ask(&rt, &words, text.as_bytes())?;
        assert_eq!(rt;
            run.status,
            Status::Spent {
                finish: Finish::Futures { task: 0 }
            },
            "{workers}"
        );
        assert!(rt; run.ends_in("races 0\nfinish futures 0\nend\n"));
        let replayed = ask(&rt, &REPLAY, run.text.as_slice())?;
        assert_eq!(rt; replayed.status, run.status);
    }
    Ok(())
}

/// A cell that two hundred children read before another one writes it.
#[test]
fn many_readers(rt: HostRuntime) -> Result<(), Fail> {
    let alloc = rt.alloc();
    let mut text = String::from_str(
        alloc,
        "cells a[1]; task rd() int { var x: int = a[0]; return x; } task wr() int { a[0] = 1; return 0; } task main() int { ",
    )?;
    for _ in 0..200 {
        text.push_str("spawn rd(); ")?;
    }
    text.push_str("spawn wr(); sync; return 0; }")?;
    let run = ask(&rt, &SERIAL, text.as_bytes())?;
    assert_eq!(rt; run.status, Status::Raced);
    assert!(rt; run.ends_in("races 1\nrace 0 598 601\nfinish whole\nend\n"));
    for workers in ["2", "64"] {
        let words = ["run", "--workers", workers];
        let many = ask(&rt, &words, text.as_bytes())?;
        assert_eq!(rt; many.status, Status::Raced, "{workers}");
        assert_eq!(rt; many.entries, run.entries);
        let replayed = ask(&rt, &REPLAY, many.text.as_slice())?;
        assert_eq!(rt; replayed.status, Status::Raced);
    }
    Ok(())
}

/// Tasks that go on for ever, so that a run makes as many events as it may.
const ENDLESS: &str =
    "cells a[64]; task kid(i: int) int { while 1 { a[i] = i; } return 0; } task main() int { var i: int; while i < 64 { spawn kid(i); i = i + 1; } sync; return 0; }";

#[test]
fn a_million_events(rt: HostRuntime) -> Result<(), Fail> {
    let serial: [&str; 4] = ["serial", "--events", "1000000", "--brief"];
    let many: [&str; 6] = ["run", "--workers", "64", "--events", "1000000", "--brief"];
    for words in [serial.as_slice(), many.as_slice()] {
        let run = ask(&rt, words, ENDLESS.as_bytes())?;
        assert_eq!(rt;
            run.status,
            Status::Spent {
                finish: Finish::Events { bound: 1_000_000 }
            }
        );
        assert_eq!(rt; run.entries, 1_000_000);
        assert!(rt; run.ends_in("futures 0\nevents 1000000\nraces 0\nfinish events 1000000\n"));
    }
    Ok(())
}

/// The number of events of a whole run of that text.
const CROSSED_EVENTS: u32 = 23;

/// Asserts that a run of that text with these words stops so, after so many entries, and that a replay of its record says the same.
fn assert_stops<R: Abort + AllocGlobal + Threads + Wait + Sync>(
    rt: &R,
    words: &[&str],
    due: Status,
    bound: u32,
) -> Result<(), Fail> {
    let run = ask(rt, words, CROSSED.as_bytes())?;
    assert_eq!(rt; run.status, due, "{bound}");
    assert_eq!(rt; run.entries, bound as usize);
    let replayed = ask(rt, &REPLAY, run.text.as_slice())?;
    assert_eq!(rt; replayed.status, due, "{bound}");
    assert_eq!(rt; replayed.entries, bound as usize);
    Ok(())
}

/// A run stops at its bound exactly, whichever event comes next.
#[test]
fn bounds_at_each_event(rt: HostRuntime) -> Result<(), Fail> {
    let alloc = rt.alloc();
    for bound in 1..CROSSED_EVENTS + 1 {
        let number = format!(in alloc; "{bound}")?;
        let due = if bound < CROSSED_EVENTS {
            Status::Spent {
                finish: Finish::Events { bound },
            }
        } else {
            Status::Clean
        };
        let serial = ["serial", "--events", number.as_str()];
        assert_stops(&rt, &serial, due, bound)?;
        let four = ["run", "--workers", "4", "--events", number.as_str()];
        assert_stops(&rt, &four, due, bound)?;
    }
    Ok(())
}
