//! Words, and sources and sinks that fail.
use crate::status::Status;
use crate::tests::{RACE, RACE_RECORD, REPLAY, RUN, SERIAL, ask, call_forder};
use crate::top::plain;
use command_words::words::Words;
use fut_base::memory::{MemSink, MemSource};
use fut_base::ports::{Put, Sink, Source, Took};
use fut_base::standard::{StdSink, StdSource};
use std::test::Fail;

#[test]
fn other_words_read_nothing(rt: HostRuntime) -> Result<(), Fail> {
    let usage = "usage: forder run, serial, replay, check or load\n";
    let cases: [&[&str]; 49] = [
        &[],
        &[""],
        &["help"],
        &["--help"],
        &["-h"],
        &["--version"],
        &["--"],
        &["--", "serial"],
        &["serial", "--"],
        &["serial", "serial"],
        &["Serial"],
        &["load"],
        &["load", "0"],
        &["load", "65"],
        &["load", "08"],
        &["load", "+8"],
        &["load", "eight"],
        &["load", "8", "8"],
        &["load", "8", "--brief"],
        &["load", "8", "--workers"],
        &["load", "8", "--workers", "65"],
        &["load", "8", "--workers=4"],
        &["load", "--workers", "8"],
        &["load", "--events", "0", "8"],
        &["load", "--events", "8", "--events", "8", "8"],
        &["load", "--", "8"],
        &["help", "serial"],
        &["run", "--workers"],
        &["run", "--workers", "0"],
        &["run", "--workers", "65"],
        &["run", "--workers", "01"],
        &["run", "--workers=1"],
        &["run", "--workers", "1", "1"],
        &["run", "--workers", "1", "--workers", "1"],
        &["run", "--workers", "1", "--events"],
        &["serial", "--workers", "1"],
        &["serial", "--events", "0"],
        &["serial", "--events", "1000001"],
        &["serial", "--events", "0100"],
        &["serial", "--events", "+100"],
        &["serial", "--events", "99999999999999999999"],
        &["serial", "--events", "1", "--events"],
        &["serial", "--events", "1", "--events", "1"],
        &["serial", "--events=1"],
        &["serial", "--brief", "--brief"],
        &["serial", "--brie"],
        &["check", "--events", "1"],
        &["check", "--brief"],
        &["replay", "--brief"],
    ];
    for words in cases {
        // the source fails at its first call, and the answer shows that there was none
        let answer = call_forder(&rt, words, RACE.as_bytes(), 16, &[0], &[])?;
        assert_eq!(rt; answer.status, Status::Usage);
        assert_eq!(rt; answer.text.as_slice(), usage.as_bytes());
        assert_eq!(rt; answer.entries, 0);
    }
    Ok(())
}

#[test]
fn words_of_the_form_are_taken(rt: HostRuntime) -> Result<(), Fail> {
    let cases: [&[&str]; 14] = [
        &["serial"],
        &["run"],
        &["run", "--workers", "2"],
        &["run", "--workers", "64"],
        &["run", "--workers", "1"],
        &["run", "--events", "6"],
        &["run", "--events", "1000000", "--workers", "1"],
        &["run", "--workers", "1", "--events", "100000"],
        &["run", "--brief", "--events", "7", "--workers", "1"],
        &["run", "--workers", "1", "--brief", "--events", "7"],
        &["run", "--events", "7", "--workers", "1", "--brief"],
        &["serial", "--brief"],
        &["serial", "--brief", "--events", "10"],
        &["serial", "--events", "10", "--brief"],
    ];
    for words in cases {
        let answer = ask(&rt, words, RACE.as_bytes())?;
        assert_eq!(rt; answer.status, Status::Raced);
        assert_eq!(rt; answer.entries, 6);
    }
    Ok(())
}

#[test]
fn a_source_that_fails(rt: HostRuntime) -> Result<(), Fail> {
    // 110 bytes by 16 a call: seven calls, and one more that answers the end
    for call in 0..8 {
        for words in [SERIAL.as_slice(), RUN.as_slice(), REPLAY.as_slice()] {
            let answer = call_forder(&rt, words, RACE.as_bytes(), 16, &[call], &[])?;
            assert_eq!(rt; answer.status, Status::ReadFault, "call {call}");
            assert_eq!(rt; answer.text.as_slice(), b"read fault\n".as_slice());
            assert_eq!(rt; answer.entries, 0);
        }
    }
    let answer = call_forder(&rt, &RUN, RACE.as_bytes(), 16, &[8], &[])?;
    assert_eq!(rt; answer.status, Status::Raced);
    Ok(())
}

#[test]
fn a_sink_that_fails(rt: HostRuntime) -> Result<(), Fail> {
    // the text is put at once, so that each call takes 16 bytes of it
    let calls = RACE_RECORD.len().div_ceil(16);
    for words in [SERIAL.as_slice(), RUN.as_slice()] {
        let mut wrote = 0;
        for call in 0..calls {
            let answer = call_forder(&rt, words, RACE.as_bytes(), 16, &[], &[call as u64])?;
            assert_eq!(rt; answer.status, Status::WriteFault, "call {call}");
            assert_eq!(rt; answer.entries, 6);
            assert_eq!(rt; answer.text.len(), wrote);
            assert!(rt;
                RACE_RECORD.as_bytes().starts_with(answer.text.as_slice()),
                "call {call}"
            );
            wrote = answer.text.len().saturating_add(16);
        }
        let answer = call_forder(&rt, words, RACE.as_bytes(), 16, &[], &[calls as u64])?;
        assert_eq!(rt; answer.status, Status::Raced);
        assert_eq!(rt; answer.text.as_slice(), RACE_RECORD.as_bytes());
    }
    Ok(())
}

#[test]
fn plain_makes_no_runs_on_workers(rt: HostRuntime) -> Result<(), Fail> {
    let alloc = rt.alloc();
    let cases: [(&[&str], Status); 4] = [
        (&["check"], Status::Accepted),
        (&["serial"], Status::Clean),
        (&["run"], Status::Usage),
        (&["load", "8"], Status::Usage),
    ];
    for (asked, status) in cases {
        let mut words = Words::make(alloc);
        for word in asked {
            words.push(word)?;
        }
        let mut source = MemSource::make(alloc, b"task main() int { return 0; }", 16, &[])?;
        let mut out = MemSink::make(alloc, 1000, 16, &[])?;
        let answer = plain(alloc, &words, &mut source, &mut out);
        assert_eq!(rt; answer.status, status);
    }
    Ok(())
}

#[test]
fn standard_streams(rt: HostRuntime) -> Result<(), Fail> {
    let alloc = rt.alloc();
    let mut source = StdSource::make(b"abc".as_slice());
    let mut buffer = [0u8; 2];
    assert!(rt; matches!(source.take(&mut buffer), Took::Bytes(2)));
    assert_eq!(rt; buffer.as_slice(), b"ab".as_slice());
    assert!(rt; matches!(source.take(&mut buffer), Took::Bytes(1)));
    assert!(rt; matches!(source.take(&mut buffer), Took::End));
    let mut bytes = Vec::new(alloc);
    let mut out = StdSink::make(&mut bytes);
    assert!(rt; matches!(out.put(b"ab"), Put::Took(2)));
    assert_eq!(rt; bytes.as_slice(), b"ab".as_slice());
    // a writer with room for two bytes
    let mut room = [0u8; 2];
    let mut short = room.as_mut_slice();
    let mut out = StdSink::make(&mut short);
    assert!(rt; matches!(out.put(b"abc"), Put::Took(2)));
    assert!(rt; matches!(out.put(b"c"), Put::Failed));
    Ok(())
}
