//! Records that are replayed.
use crate::status::Status;
use crate::tests::{RACE, RACE_RECORD, REPLAY, SYNC, ask, call_forder};
use fut_base::record::Finish;
use std::alloc::Global;
use std::test::Fail;

/// A record with one part written otherwise.
fn altered(alloc: Global, record: &str, part: &str, other: &str) -> Result<String, Fail> {
    let mut text = String::from_str(alloc, "")?;
    match record.split_once(part) {
        Some((head, tail)) => {
            text.push_str(head)?;
            text.push_str(other)?;
            text.push_str(tail)?;
        }
        None => {}
    }
    Ok(text)
}

#[test]
fn records_of_serial_runs_are_legal(rt: HostRuntime) -> Result<(), Fail> {
    let alloc = rt.alloc();
    let events = Status::Spent {
        finish: Finish::Events { bound: 3 },
    };
    let local = Status::Spent {
        finish: Finish::Local { task: 0 },
    };
    let cases: [(&str, &[&str], Status, &str); 9] = [
        (
            RACE,
            &["serial"],
            Status::Raced,
            "legal entries 6 races 1\n",
        ),
        (
            SYNC,
            &["serial"],
            Status::Clean,
            "legal entries 6 races 0\n",
        ),
        (
            RACE,
            &["serial", "--events", "3"],
            events,
            "legal entries 3 races 0\n",
        ),
        (
            "task main() int { while 1 { } return 0; }",
            &["serial"],
            local,
            "legal entries 0 races 0\n",
        ),
        (
            "task main() int { return 0; }",
            &["serial"],
            Status::Clean,
            "legal entries 1 races 0\n",
        ),
        (
            "cells a[1]; task f() int { a[0] = 1; return 7; } task main() int { var h: fut int = create f(); sync; a[0] = 2; return 0; }",
            &["serial"],
            Status::Raced,
            "legal entries 6 races 1\n",
        ),
        (
            "cells a[1]; task one() int { a[0] = 1; return 1; } task two(h: fut int) int { var x: int = get h; return x; } task main() int { var h: fut int = create one(); var k: fut int = create two(h); var y: int = get k; a[0] = 2; return y; }",
            &["serial"],
            Status::Clean,
            "legal entries 9 races 0\n",
        ),
        (
            "task leaf() int { return 5; } task mid() fut int { var h: fut int = create leaf(); return h; } task main() int { var g: fut fut int = create mid(); var h: fut int = get g; var x: int = get h; return x; }",
            &["serial"],
            Status::Clean,
            "legal entries 7 races 0\n",
        ),
        (
            "cells a[1]; task rd() int { var x: int = a[0]; sync; x = a[0]; return x; } task wr() int { a[0] = 1; return 0; } task main() int { spawn rd(); spawn wr(); sync; return 0; }",
            &["serial"],
            Status::Raced,
            "legal entries 10 races 1\n",
        ),
    ];
    for (text, words, status, due) in cases {
        let run = ask(&rt, words, text.as_bytes())?;
        assert_eq!(rt; run.status, status, "{text}");
        let answer = ask(&rt, &REPLAY, run.text.as_slice())?;
        assert_eq!(rt; answer.status, status, "{text}");
        assert_eq!(rt; answer.text.as_slice(), due.as_bytes(), "{text}");
        assert_eq!(rt; answer.entries, run.entries, "{text}");
    }
    Ok(())
}

/// A future writes, and what was got of it is written and read.
const GET_RECORD: &str =
    "forder 1\nprogram 147\ncells a[1]; task f() int { a[0] = 1; return 7; } task main() int { var h: fut int = create f(); var x: int = get h; a[0] = x; x = a[0]; return 0; }\nentries 7\n0 t0 s0 create 0 t1 s1 s2\n1 t1 s1 write 0 1\n2 t1 s1 end 7\n3 t0 s2 get f1 7 s3\n4 t0 s3 write 0 7\n5 t0 s3 read 0 7\n6 t0 s3 end 0\nraces 0\nfinish whole\nend\n";

/// The same without the read.
const SHORT_RECORD: &str =
    "forder 1\nprogram 137\ncells a[1]; task f() int { a[0] = 1; return 7; } task main() int { var h: fut int = create f(); var x: int = get h; a[0] = x; return 0; }\nentries 6\n0 t0 s0 create 0 t1 s1 s2\n1 t1 s1 write 0 1\n2 t1 s1 end 7\n3 t0 s2 get f1 7 s3\n4 t0 s3 write 0 7\n5 t0 s3 end 0\nraces 0\nfinish whole\nend\n";

#[test]
fn records_that_are_not_legal(rt: HostRuntime) -> Result<(), Fail> {
    let alloc = rt.alloc();
    let answer = ask(&rt, &REPLAY, GET_RECORD.as_bytes())?;
    assert_eq!(rt; answer.status, Status::Clean);
    let answer = ask(&rt, &REPLAY, SHORT_RECORD.as_bytes())?;
    assert_eq!(rt; answer.status, Status::Clean);
    assert_eq!(rt;
        answer.text.as_slice(),
        b"legal entries 6 races 0\n".as_slice()
    );
    let cases = [
        (SHORT_RECORD, "get f1 7 s3", "get f1 8 s3", 3),
        (SHORT_RECORD, "finish whole", "finish events 6", 6),
        (RACE_RECORD, "1 t1 s1 write 0 1", "1 t1 s1 write 0 2", 1),
        (RACE_RECORD, "2 t1 s1 end 0", "2 t1 s1 end 1", 2),
        (RACE_RECORD, "4 t0 s2 sync s3", "4 t0 s2 sync s4", 4),
        (RACE_RECORD, "races 1\nrace 0 1 3\n", "races 0\n", 6),
        (RACE_RECORD, "race 0 1 3", "race 0 1 2", 6),
        (RACE_RECORD, "finish whole", "finish events 6", 6),
        (RACE_RECORD, "finish whole", "finish local 0", 6),
        (
            RACE_RECORD,
            "spawn kid(); a[0] = 2; sync;",
            "sync; spawn kid(); a[0] = 2;",
            0,
        ),
        (GET_RECORD, "get f1 7", "get f1 8", 3),
        (GET_RECORD, "read 0 7", "read 0 1", 5),
        (GET_RECORD, "finish whole", "finish futures 0", 7),
    ];
    for (record, part, other, entry) in cases {
        let text = altered(alloc, record, part, other)?;
        let answer = ask(&rt, &REPLAY, text.as_str().as_bytes())?;
        let due = format!(in alloc; "not legal {entry}\n")?;
        assert_eq!(rt; answer.status, Status::NotLegal { entry }, "{other}");
        assert_eq!(rt; answer.text.as_slice(), due.as_str().as_bytes(), "{other}");
        assert_eq!(rt; answer.entries, 0);
    }
    Ok(())
}

#[test]
fn a_sink_that_fails_at_a_replay(rt: HostRuntime) -> Result<(), Fail> {
    for call in 0..2 {
        let record = RACE_RECORD.as_bytes();
        let answer = call_forder(&rt, &REPLAY, record, 16, &[], &[call])?;
        assert_eq!(rt; answer.status, Status::WriteFault);
        assert_eq!(rt; answer.entries, 6);
        assert!(rt;
            b"legal entries 6 races 1\n"
                .as_slice()
                .starts_with(answer.text.as_slice())
        );
    }
    Ok(())
}
