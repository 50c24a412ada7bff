//! What the process ends with.
use crate::process::carry_out;
use crate::tests::{RACE, RACE_RECORD};
use fut_base::gate::FreeGate;
use fut_base::memory::{MemSink, MemSource};
use std::alloc::Global;
use std::env::Args;
use std::io;
use std::process::ExitCode;
use std::sync::Wait;
use std::test::Fail;
use std::thread::Threads;

/// The command line with these words.
fn line(alloc: Global, words: &[&str]) -> Result<Args, Fail> {
    let mut all = Vec::new(alloc);
    for word in words {
        all.push(String::from_str(alloc, word)?)?;
    }
    Ok(all.into_iter())
}

/// The number that the process ends with, and what it wrote. Takes and puts fail at these calls.
fn ended<R: AllocGlobal + Threads + Wait + Sync>(
    rt: &R,
    given: io::Result<Args>,
    text: &str,
    take_fails: &[u64],
    put_fails: &[u64],
) -> Result<(ExitCode, Vec<u8>), Fail> {
    let alloc = rt.alloc();
    let mut source = MemSource::make(alloc, text.as_bytes(), 4096, take_fails)?;
    let mut out = MemSink::make(alloc, 1000, 1000, put_fails)?;
    let code = carry_out(rt, alloc, given, &mut source, &mut out, &FreeGate);
    Ok((code, Vec::from_slice(alloc, out.bytes())?))
}

#[test]
fn numbers_of_statuses(rt: HostRuntime) -> Result<(), Fail> {
    let alloc = rt.alloc();
    let cases: [(&[&str], &str, u8); 11] = [
        (&["forder", "check"], "task main() int { return 0; }", 0),
        (&["forder", "serial"], "task main() int { return 0; }", 0),
        (&["forder", "serial"], RACE, 1),
        (&["forder", "check"], "task", 2),
        (&["forder", "check"], "task main() int { return x; }", 3),
        (&["forder", "serial", "--events", "3"], RACE, 4),
        (&["forder", "replay"], RACE, 5),
        (&["forder", "replay"], RACE_RECORD, 1),
        (&["forder"], RACE, 9),
        (&["serial"], RACE, 9),
        (&[], RACE, 9),
    ];
    for (words, text, number) in cases {
        let answer = ended(&rt, Ok(line(alloc, words)?), text, &[], &[])?;
        assert_eq!(rt; answer.0, ExitCode::from(number));
    }
    let words = ["forder", "serial"];
    let answer = ended(&rt, Ok(line(alloc, &words)?), RACE, &[0], &[])?;
    assert_eq!(rt; answer.0, ExitCode::from(6));
    let answer = ended(&rt, Ok(line(alloc, &words)?), RACE, &[], &[0])?;
    assert_eq!(rt; answer.0, ExitCode::from(7));
    Ok(())
}

#[test]
fn command_lines_without_words(rt: HostRuntime) -> Result<(), Fail> {
    let cases = [
        (
            io::ErrorKind::InvalidData,
            9,
            "usage: forder run, serial, replay, check or load\n",
            7,
        ),
        (io::ErrorKind::OutOfMemory, 8, "no memory\n", 7),
    ];
    for (kind, number, text, cut_off) in cases {
        // the source fails at its first call, and the answer shows that there was none
        let answer = ended(&rt, Err(io::Error::from(kind)), RACE, &[0], &[])?;
        assert_eq!(rt; answer.0, ExitCode::from(number));
        assert_eq!(rt; answer.1.as_slice(), text.as_bytes());
        let answer = ended(&rt, Err(io::Error::from(kind)), RACE, &[], &[0])?;
        assert_eq!(rt; answer.0, ExitCode::from(cut_off));
        assert_eq!(rt; answer.1.len(), 0);
    }
    Ok(())
}
