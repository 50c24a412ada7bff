//! Worked runs and checks.
use crate::status::Status;
use crate::tests::{CHECK, CROSSED, RACE, RACE_RECORD, RUN, SERIAL, SYNC, SYNC_RECORD, ask};
use fut_base::record::Finish;
use race_report::found_of;
use run_record::reader::read_run;
use std::process::Abort;
use std::sync::Wait;
use std::test::Fail;
use std::thread::Threads;

const ONE_RECORD: &str =
    "forder 1\nprogram 29\ntask main() int { return 0; }\nentries 1\n0 t0 s0 end 0\nraces 0\nfinish whole\nend\n";

const COMMENT_RECORD: &str =
    "forder 1\nprogram 42\ntask main() int { return 0; } // a comment\nentries 1\n0 t0 s0 end 0\nraces 0\nfinish whole\nend\n";

#[test]
fn records_of_runs(rt: HostRuntime) -> Result<(), Fail> {
    let cases = [
        ("task main() int { return 0; }", Status::Clean, ONE_RECORD),
        (RACE, Status::Raced, RACE_RECORD),
        (SYNC, Status::Clean, SYNC_RECORD),
        (
            "task main() int { return 0; } // a comment",
            Status::Clean,
            COMMENT_RECORD,
        ),
        (
            "task main() int { return x; }",
            Status::IllTyped {
                rule: 1,
                line: 1,
                column: 26,
            },
            "type 1 1:26\n",
        ),
        (
            "task main() int { retrun 0; }",
            Status::Syntax {
                line: 1,
                column: 26,
            },
            "syntax 1:26\n",
        ),
    ];
    for (text, status, record) in cases {
        let answer = ask(&rt, &RUN, text.as_bytes())?;
        assert_eq!(rt; answer.status, status, "{text}");
        assert_eq!(rt; answer.text.as_slice(), record.as_bytes(), "{text}");
    }
    Ok(())
}

/// Asserts that the races of a run of so many entries, at most 15, are after each of them those that a search for paths finds.
fn assert_races_as_searched<R: Abort + AllocGlobal + Threads + Wait + Sync>(
    rt: &R,
    text: &str,
    entries: usize,
) -> Result<(), Fail> {
    let alloc = rt.alloc();
    assert!(rt; entries < 16);
    for events in 1..entries as u32 + 1 {
        let number = format!(in alloc; "{events}")?;
        let words = ["serial", "--events", number.as_str()];
        let answer = ask(rt, &words, text.as_bytes())?;
        assert!(rt; answer.text.len() < 100_000);
        let run = read_run(alloc, answer.text.as_slice())?;
        assert!(rt; run.history.len() <= 16);
        let found = found_of(alloc, &run.history)?;
        assert!(rt;
            found.as_slice() == run.races.as_slice(),
            "{text}, {events} entries"
        );
    }
    Ok(())
}

#[test]
fn worked_runs(rt: HostRuntime) -> Result<(), Fail> {
    let cases = [
        // a sync joins no future
        (
            "cells a[1]; task f() int { a[0] = 1; return 7; } task main() int { var h: fut int = create f(); sync; a[0] = 2; return 0; }",
            "entries 6\n0 t0 s0 create 0 t1 s1 s2\n1 t1 s1 write 0 1\n2 t1 s1 end 7\n3 t0 s2 sync s3\n4 t0 s3 write 0 2\n5 t0 s3 end 0\nraces 1\nrace 0 1 4\nfinish whole\nend\n",
        ),
        (
            "cells a[1]; task f() int { a[0] = 1; return 7; } task main() int { var h: fut int = create f(); var x: int = get h; a[0] = x; return 0; }",
            "entries 6\n0 t0 s0 create 0 t1 s1 s2\n1 t1 s1 write 0 1\n2 t1 s1 end 7\n3 t0 s2 get f1 7 s3\n4 t0 s3 write 0 7\n5 t0 s3 end 0\nraces 0\nfinish whole\nend\n",
        ),
        // a path through two futures' ends
        (
            "cells a[1]; task one() int { a[0] = 1; return 1; } task two(h: fut int) int { var x: int = get h; return x; } task main() int { var h: fut int = create one(); var k: fut int = create two(h); var y: int = get k; a[0] = 2; return y; }",
            "entries 9\n0 t0 s0 create 0 t1 s1 s2\n1 t1 s1 write 0 1\n2 t1 s1 end 1\n3 t0 s2 create 1 t2 s3 s4 f1\n4 t2 s3 get f1 1 s5\n5 t2 s5 end 1\n6 t0 s4 get f2 1 s6\n7 t0 s6 write 0 2\n8 t0 s6 end 1\nraces 0\nfinish whole\nend\n",
        ),
        // a future returns a handle
        (
            "task leaf() int { return 5; } task mid() fut int { var h: fut int = create leaf(); return h; } task main() int { var g: fut fut int = create mid(); var h: fut int = get g; var x: int = get h; return x; }",
            "entries 7\n0 t0 s0 create 1 t1 s1 s2\n1 t1 s1 create 0 t2 s3 s4\n2 t2 s3 end 5\n3 t1 s4 end f2\n4 t0 s2 get f1 f2 s5\n5 t0 s5 get f2 5 s6\n6 t0 s6 end 5\nraces 0\nfinish whole\nend\n",
        ),
        // the latest partner
        (
            "cells a[1]; task rd() int { var x: int = a[0]; return x; } task wr() int { a[0] = 1; return 0; } task main() int { spawn rd(); spawn rd(); spawn rd(); spawn wr(); sync; return 0; }",
            "13 t0 s9 end 0\nraces 1\nrace 0 7 10\nfinish whole\nend\n",
        ),
        (
            "cells a[1]; task rd() int { var x: int = a[0]; sync; x = a[0]; return x; } task wr() int { a[0] = 1; return 0; } task main() int { spawn rd(); spawn wr(); sync; return 0; }",
            "races 1\nrace 0 3 6\nfinish whole\nend\n",
        ),
        // one strand
        (
            "cells a[1]; task main() int { a[0] = 1; a[0] = 2; var x: int = a[0]; return x; }",
            "entries 4\n0 t0 s0 write 0 1\n1 t0 s0 write 0 2\n2 t0 s0 read 0 2\n3 t0 s0 end 2\nraces 0\nfinish whole\nend\n",
        ),
        // division by zero, the least number, indexes below 0 and beyond the end
        (
            "cells a[4]; task main() int { a[-1] = 7 / 0; var m: int = -9223372036854775807 - 1; a[4] = m / -1; a[1] = m % -1; return 0; }",
            "entries 4\n0 t0 s0 write 3 0\n1 t0 s0 write 0 -9223372036854775808\n2 t0 s0 write 1 0\n3 t0 s0 end 0\nraces 0\nfinish whole\nend\n",
        ),
        // endless local steps
        (
            "task main() int { while 1 { } return 0; }",
            "entries 0\nraces 0\nfinish local 0\nend\n",
        ),
        // a body without `return` ends with 0
        (
            "task main() int { var i: int; while i < 3 { i = i + 1; } }",
            "entries 1\n0 t0 s0 end 0\nraces 0\nfinish whole\nend\n",
        ),
    ];
    for (text, tail) in cases {
        let answer = ask(&rt, &SERIAL, text.as_bytes())?;
        assert!(rt; answer.ends_in(tail), "{text}");
        assert_races_as_searched(&rt, text, answer.entries)?;
    }
    Ok(())
}

#[test]
fn bounded_runs(rt: HostRuntime) -> Result<(), Fail> {
    let text = "cells a[1]; task main() int { while 1 { a[0] = 1; } return 0; }";
    let cases: [(&[&str], usize, &str); 3] = [
        (
            &["serial", "--events", "100"],
            100,
            "99 t0 s0 write 0 1\nraces 0\nfinish events 100\nend\n",
        ),
        (
            &["serial", "--events", "99"],
            99,
            "98 t0 s0 write 0 1\nraces 0\nfinish events 99\nend\n",
        ),
        (
            &["run", "--workers", "1", "--events", "100"],
            100,
            "99 t0 s0 write 0 1\nraces 0\nfinish events 100\nend\n",
        ),
    ];
    for (words, entries, tail) in cases {
        let answer = ask(&rt, words, text.as_bytes())?;
        assert!(rt; answer.ends_in(tail));
        assert_eq!(rt; answer.entries, entries);
    }
    Ok(())
}

#[test]
fn a_run_that_is_spent(rt: HostRuntime) -> Result<(), Fail> {
    let alloc = rt.alloc();
    let text = "task main() int { spawn main(); return 0; }";
    let mut record = String::from_str(alloc, "forder 1\nprogram 43\n")?;
    record.push_str(text)?;
    record.push_str("\nentries 1000\n0 t0 s0 spawn 0 t1 s1 s2\n")?;
    for k in 1u64..1000 {
        let line = format!(in alloc;
            "{k} t{k} s{} spawn 0 t{} s{} s{}\n",
            2 * k - 1,
            k + 1,
            2 * k + 1,
            2 * k + 2
        )?;
        record.push_str(line.as_str())?;
    }
    record.push_str("races 0\nfinish events 1000\nend\n")?;
    let words = ["run", "--workers", "1", "--events", "1000"];
    let answer = ask(&rt, &words, text.as_bytes())?;
    assert_eq!(rt;
        answer.status,
        Status::Spent {
            finish: Finish::Events { bound: 1000 }
        }
    );
    assert_eq!(rt; answer.entries, 1000);
    assert_eq!(rt; answer.text.as_slice(), record.as_bytes());
    Ok(())
}

#[test]
fn brief_texts(rt: HostRuntime) -> Result<(), Fail> {
    let race = "tasks 2\nfutures 0\nevents 6\nraces 1\nrace a[0] 1 3\nfinish whole\n";
    let sync = "tasks 2\nfutures 0\nevents 6\nraces 0\nfinish whole\n";
    let spent = "tasks 2\nfutures 0\nevents 2\nraces 0\nfinish events 2\n";
    let bound = Status::Spent {
        finish: Finish::Events { bound: 2 },
    };
    let twice = "tasks 5\nfutures 4\nevents 23\nraces 0\nfinish whole\n";
    let cases: [(&[&str], &str, Status, &str); 7] = [
        (&["serial", "--brief"], CROSSED, Status::Clean, twice),
        (&["serial", "--brief"], RACE, Status::Raced, race),
        (&["run", "--brief"], RACE, Status::Raced, race),
        (
            &["run", "--brief", "--workers", "1"],
            SYNC,
            Status::Clean,
            sync,
        ),
        (
            &["run", "--workers", "1", "--brief", "--events", "6"],
            RACE,
            Status::Raced,
            race,
        ),
        (&["serial", "--events", "2", "--brief"], RACE, bound, spent),
        (
            &["serial", "--brief"],
            "task main() int { return x; }",
            Status::IllTyped {
                rule: 1,
                line: 1,
                column: 26,
            },
            "type 1 1:26\n",
        ),
    ];
    for (words, text, status, due) in cases {
        let answer = ask(&rt, words, text.as_bytes())?;
        assert_eq!(rt; answer.status, status);
        assert_eq!(rt; answer.text.as_slice(), due.as_bytes());
    }
    Ok(())
}

#[test]
fn answers_of_check(rt: HostRuntime) -> Result<(), Fail> {
    let cases = [
        (
            "task main() int { return 0; }",
            "task main ( ) int { return 0 ; }\n",
        ),
        ("", "syntax 1:1\n"),
        (
            "task main() int { var x: int; var y: int = get x; return y; }",
            "type 4 1:48\n",
        ),
        ("task main() int { return 1 + 1 + 1; }", "syntax 1:32\n"),
        ("task main() int { x = 1; return 0; }", "type 1 1:19\n"),
        (
            "task f() fut int { return 0; } task main() int { return 0; }",
            "type 8 1:27\n",
        ),
        ("cells a[0]; task main() int { return 0; }", "type 12 1:9\n"),
        ("task f() int { return 0; }", "type 9 1:27\n"),
        // a program cut after so many bytes
        ("tas", "syntax 1:1\n"),
        ("task", "syntax 1:5\n"),
        ("task main", "syntax 1:10\n"),
        ("task main() in", "syntax 1:13\n"),
        ("task main() int { return 0; ", "syntax 1:29\n"),
    ];
    for (text, answer) in cases {
        let given = ask(&rt, &CHECK, text.as_bytes())?;
        assert_eq!(rt; given.text.as_slice(), answer.as_bytes(), "{text}");
        assert_eq!(rt; given.entries, 0);
    }
    Ok(())
}

#[test]
fn deep_brackets(rt: HostRuntime) -> Result<(), Fail> {
    let alloc = rt.alloc();
    for (depth, status) in [
        (63, Status::Accepted),
        (
            64,
            Status::Syntax {
                line: 1,
                column: 89,
            },
        ),
    ] {
        let mut text = String::from_str(alloc, "task main() int { return ")?;
        for _ in 0..depth {
            text.push_str("(")?;
        }
        text.push_str("0")?;
        for _ in 0..depth {
            text.push_str(")")?;
        }
        text.push_str("; }")?;
        let answer = ask(&rt, &CHECK, text.as_str().as_bytes())?;
        assert_eq!(rt; answer.status, status, "{depth}");
    }
    Ok(())
}
