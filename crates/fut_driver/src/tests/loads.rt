//! Runs of a grid of futures, which read nothing.
use super::{CHECK, ask, call_forder};
use crate::load::load_text;
use crate::status::Status;
use crate::tests::workers::FORGOTTEN;
use std::test::Fail;

/// What every run of a grid of that side gives.
const GRIDS: [(&str, &str); 5] = [
    (
        "1",
        "tasks 2\nfutures 1\nevents 5\nraces 0\nfinish whole\nsum 1\n",
    ),
    (
        "2",
        "tasks 5\nfutures 4\nevents 22\nraces 0\nfinish whole\nsum 10\n",
    ),
    (
        "3",
        "tasks 10\nfutures 9\nevents 53\nraces 0\nfinish whole\nsum 53\n",
    ),
    (
        "8",
        "tasks 65\nfutures 64\nevents 418\nraces 0\nfinish whole\nsum 48538\n",
    ),
    (
        "16",
        "tasks 257\nfutures 256\nevents 1730\nraces 0\nfinish whole\nsum 2333605930\n",
    ),
];

#[test]
fn brief_texts_of_grids(rt: HostRuntime) -> Result<(), Fail> {
    for (side, due) in GRIDS {
        for workers in ["1", "2", "4", "64"] {
            let words = ["load", side, "--workers", workers];
            // the source fails at its first call, and the answer shows that there was none
            let answer = call_forder(&rt, &words, b"", 4096, &[0], &[])?;
            assert_eq!(rt; answer.status, Status::Clean, "{side} {workers}");
            assert_eq!(rt; answer.text.as_slice(), due.as_bytes(), "{side} {workers}");
        }
    }
    Ok(())
}

/// The number of ways to choose so many of so many, modulo 2^64, by Pascal's rule.
fn chosen(all: usize, some: usize) -> u64 {
    let mut row = [0u64; 131];
    row[0] = 1;
    for _ in 0..all {
        let mut left = 0u64;
        for at in 0..131usize {
            let here = row[at];
            row[at] = left.wrapping_add(here);
            left = here;
        }
    }
    row[some.min(130)]
}

/// Each place of the largest grid counts the ways that lead to it, so that their sum is a binomial coefficient, less what is
/// counted too often.
#[test]
fn the_largest_grid(rt: HostRuntime) -> Result<(), Fail> {
    let alloc = rt.alloc();
    let sum = chosen(130, 65).wrapping_sub(65 * 65 + 1).cast_signed();
    let due = format!(in alloc;
        "tasks 4097\nfutures 4096\nevents 28418\nraces 0\nfinish whole\nsum {sum}\n"
    )?;
    for workers in ["1", "4"] {
        let answer = ask(&rt, &["load", "64", "--workers", workers], b"")?;
        assert_eq!(rt; answer.status, Status::Clean);
        assert_eq!(rt; answer.text.as_slice(), due.as_bytes());
    }
    Ok(())
}

#[test]
fn a_number_and_options_in_any_order(rt: HostRuntime) -> Result<(), Fail> {
    let cases: [&[&str]; 9] = [
        &["load", "2"],
        &["load", "2", "--workers", "2"],
        &["load", "--workers", "64", "2"],
        &["load", "2", "--events", "22"],
        &["load", "--events", "1000000", "2"],
        &["load", "2", "--events", "22", "--workers", "1"],
        &["load", "2", "--workers", "1", "--events", "22"],
        &["load", "--events", "22", "2", "--workers", "3"],
        &["load", "--workers", "3", "--events", "22", "2"],
    ];
    for words in cases {
        let answer = ask(&rt, words, b"")?;
        assert_eq!(rt; answer.status, Status::Clean);
        assert!(rt; answer.ends_in("finish whole\nsum 10\n"));
        assert_eq!(rt; answer.entries, 22);
    }
    for workers in ["1", "4"] {
        let words = ["load", "2", "--events", "21", "--workers", workers];
        let answer = ask(&rt, &words, b"")?;
        assert_eq!(rt; answer.status.number(), 4);
        assert!(rt; answer.ends_in("events 21\nraces 0\nfinish events 21\nsum 10\n"));
        assert_eq!(rt; answer.entries, 21);
    }
    Ok(())
}

/// What the clauses of `load` leave open: its text is a program that breaks no type rule, whatever the side.
#[test]
fn texts_of_all_grids_are_programs(rt: HostRuntime) -> Result<(), Fail> {
    for side in 1..65u32 {
        let text = load_text(rt.alloc(), side)?;
        let answer = ask(&rt, &CHECK, text.as_slice())?;
        assert_eq!(rt; answer.status, Status::Accepted, "{side}");
    }
    Ok(())
}

#[test]
fn the_text_of_a_grid(rt: HostRuntime) -> Result<(), Fail> {
    let alloc = rt.alloc();
    let whole = FORGOTTEN.replace(
        alloc,
        "var g: int; if ((i * 8) + j) != 36 { g = get up; }",
        "var g: int = get up;",
    )?;
    let text = load_text(alloc, 8)?;
    assert_eq!(rt; text.as_slice(), whole.as_bytes());
    Ok(())
}
