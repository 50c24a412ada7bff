//! Texts that are no run texts, and records of no programs.
use crate::status::Status;
use crate::tests::{RACE_RECORD, REPLAY, ask};
use std::test::Fail;

#[test]
fn cut_records(rt: HostRuntime) -> Result<(), Fail> {
    let alloc = rt.alloc();
    let record = RACE_RECORD.as_bytes();
    for k in 0..record.len() {
        let answer = ask(&rt, &REPLAY, &record[..k])?;
        let due = format!(in alloc; "not a run {k}\n")?;
        assert_eq!(rt; answer.status, Status::NotRun { byte: k as u32 });
        assert_eq!(rt; answer.text.as_slice(), due.as_str().as_bytes());
        assert_eq!(rt; answer.entries, 0);
    }
    Ok(())
}

#[test]
fn texts_that_are_no_records(rt: HostRuntime) -> Result<(), Fail> {
    let cases = [
        // a program text, a byte behind the end, a wrong place
        ("task main() int { return 0; }", "not a run 0\n"),
        ("forder 2\n", "not a run 7\n"),
        (
            "forder 1\nprogram 29\ntask main() int { return 0; }\nentries 1\n0 t0 s0 end 0\nraces 0\nfinish whole\n",
            "not a run 95\n",
        ),
        (
            "forder 1\nprogram 29\ntask main() int { return 0; }\nentries 1\n0 t0 s0 end 0\nraces 0\nfinish whole\nend\n\n",
            "not a run 99\n",
        ),
        (
            "forder 1\nprogram 0\n\nentries 0\nraces 0\nfinish whole\nend\n\n",
            "not a run 55\n",
        ),
        (
            "forder 1\nprogram 0\n\nentries 1\n1 t0 s0 end 0\nraces 0\nfinish whole\nend\n",
            "not a run 30\n",
        ),
    ];
    for (text, due) in cases {
        let answer = ask(&rt, &REPLAY, text.as_bytes())?;
        assert_eq!(rt; answer.text.as_slice(), due.as_bytes(), "{text}");
    }
    Ok(())
}

#[test]
fn records_of_no_programs(rt: HostRuntime) -> Result<(), Fail> {
    let cases = [
        (
            "forder 1\nprogram 0\n\nentries 0\nraces 0\nfinish whole\nend\n",
            Status::Syntax { line: 1, column: 1 },
            "syntax 1:1\n",
        ),
        (
            "forder 1\nprogram 29\ntask main() int { retrun 0; }\nentries 1\n0 t0 s0 end 0\nraces 0\nfinish whole\nend\n",
            Status::Syntax {
                line: 1,
                column: 26,
            },
            "syntax 1:26\n",
        ),
        (
            "forder 1\nprogram 29\ntask main() int { return x; }\nentries 1\n0 t0 s0 end 0\nraces 0\nfinish whole\nend\n",
            Status::IllTyped {
                rule: 1,
                line: 1,
                column: 26,
            },
            "type 1 1:26\n",
        ),
    ];
    for (text, status, due) in cases {
        let answer = ask(&rt, &REPLAY, text.as_bytes())?;
        assert_eq!(rt; answer.status, status, "{text}");
        assert_eq!(rt; answer.text.as_slice(), due.as_bytes(), "{text}");
        assert_eq!(rt; answer.entries, 0);
    }
    Ok(())
}
