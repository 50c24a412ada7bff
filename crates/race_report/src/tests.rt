//! The worked runs, written down entry by entry.
use crate::found::found_of;
use fut_base::list::{Listing, NoMemory};
use fut_base::record::{Act, Entry, History, Race, Value};
use std::alloc::Global;
use std::process::Abort;
use std::test::Fail;

fn entry(task: u32, strand: u32, act: Act) -> Entry {
    Entry { task, strand, act }
}

fn read() -> Act {
    Act::Read { cell: 0, value: 0 }
}

fn write() -> Act {
    write_to(0)
}

fn write_to(cell: u32) -> Act {
    Act::Write { cell, value: 1 }
}

fn spawn(alloc: Global, child: u32, kid: u32, cont: u32) -> Act {
    Act::Spawn {
        code: 0,
        child,
        kid,
        cont,
        args: Listing::make(alloc),
    }
}

fn create(alloc: Global, child: u32, kid: u32, cont: u32) -> Act {
    Act::Create {
        code: 0,
        child,
        kid,
        cont,
        args: Listing::make(alloc),
    }
}

fn sync(strand: u32) -> Act {
    Act::Sync { strand }
}

fn get(future: u32, strand: u32) -> Act {
    Act::Get {
        future,
        value: Value::Int(1),
        strand,
    }
}

fn end() -> Act {
    Act::End {
        value: Value::Int(0),
    }
}

fn history_of(alloc: Global, entries: Vec<Entry>) -> Result<History, NoMemory> {
    let mut history = Listing::make(alloc);
    for entry in entries {
        history.reserve()?;
        history.push(entry);
    }
    Ok(history)
}

// A child writes, and then its parent, before or after the sync.
fn spawn_run(alloc: Global, synced: bool) -> Result<Vec<Entry>, Fail> {
    let mut entries = vec![in alloc;
        entry(0, 0, spawn(alloc, 1, 1, 2)),
        entry(1, 1, write()),
        entry(1, 1, end()),
    ]?;
    if synced {
        entries.push(entry(0, 2, sync(3)))?;
        entries.push(entry(0, 3, write()))?;
    } else {
        entries.push(entry(0, 2, write()))?;
        entries.push(entry(0, 2, sync(3)))?;
    }
    entries.push(entry(0, 3, end()))?;
    Ok(entries)
}

// A future, which the sync does not join.
fn future_run(alloc: Global) -> Result<Vec<Entry>, Fail> {
    Ok(vec![in alloc;
        entry(0, 0, create(alloc, 1, 1, 2)),
        entry(1, 1, write()),
        entry(1, 1, end()),
        entry(0, 2, sync(3)),
        entry(0, 3, write()),
        entry(0, 3, end()),
    ]?)
}

// A path through the ends of two futures.
fn chain_run(alloc: Global) -> Result<Vec<Entry>, Fail> {
    Ok(vec![in alloc;
        entry(0, 0, create(alloc, 1, 1, 2)),
        entry(1, 1, write()),
        entry(1, 1, end()),
        entry(0, 2, create(alloc, 2, 3, 4)),
        entry(2, 3, get(1, 5)),
        entry(2, 5, end()),
        entry(0, 4, get(2, 6)),
        entry(0, 6, write()),
        entry(0, 6, end()),
    ]?)
}

// Three children read and one writes.
fn readers_run(alloc: Global) -> Result<Vec<Entry>, Fail> {
    Ok(vec![in alloc;
        entry(0, 0, spawn(alloc, 1, 1, 2)),
        entry(1, 1, read()),
        entry(1, 1, end()),
        entry(0, 2, spawn(alloc, 2, 3, 4)),
        entry(2, 3, read()),
        entry(2, 3, end()),
        entry(0, 4, spawn(alloc, 3, 5, 6)),
        entry(3, 5, read()),
        entry(3, 5, end()),
        entry(0, 6, spawn(alloc, 4, 7, 8)),
        entry(4, 7, write()),
        entry(4, 7, end()),
        entry(0, 8, sync(9)),
        entry(0, 9, end()),
    ]?)
}

// One child reads on two strands, and then another writes.
fn twice_run(alloc: Global) -> Result<Vec<Entry>, Fail> {
    Ok(vec![in alloc;
        entry(0, 0, spawn(alloc, 1, 1, 2)),
        entry(1, 1, read()),
        entry(1, 1, sync(3)),
        entry(1, 3, read()),
        entry(1, 3, end()),
        entry(0, 2, spawn(alloc, 2, 4, 5)),
        entry(2, 4, write()),
        entry(2, 4, end()),
        entry(0, 5, sync(6)),
        entry(0, 6, end()),
    ]?)
}

// Two cells race, the one with the greater number first.
fn cells_run(alloc: Global) -> Result<Vec<Entry>, Fail> {
    Ok(vec![in alloc;
        entry(0, 0, spawn(alloc, 1, 1, 2)),
        entry(1, 1, write_to(5)),
        entry(1, 1, write_to(2)),
        entry(0, 2, write_to(5)),
        entry(0, 2, write_to(2)),
    ]?)
}

fn expect_races(
    rt: &impl Abort,
    alloc: Global,
    name: &str,
    entries: Vec<Entry>,
    want: &[Race],
) -> Result<(), Fail> {
    let history = history_of(alloc, entries)?;
    assert!(rt; history.len() < 100);
    let races = found_of(alloc, &history)?;
    assert_eq!(rt; races.as_slice(), want, "in the run {name}");
    Ok(())
}

fn race(cell: u32, first: u32, second: u32) -> Race {
    Race {
        cell,
        first,
        second,
    }
}

#[test]
fn worked_runs(rt: HostRuntime) -> Result<(), Fail> {
    let alloc = rt.alloc();
    expect_races(
        &rt,
        alloc,
        "spawn",
        spawn_run(alloc, false)?,
        &[race(0, 1, 3)],
    )?;
    expect_races(&rt, alloc, "sync", spawn_run(alloc, true)?, &[])?;
    expect_races(&rt, alloc, "future", future_run(alloc)?, &[race(0, 1, 4)])?;
    expect_races(&rt, alloc, "chain", chain_run(alloc)?, &[])?;
    expect_races(
        &rt,
        alloc,
        "readers",
        readers_run(alloc)?,
        &[race(0, 7, 10)],
    )?;
    expect_races(&rt, alloc, "twice", twice_run(alloc)?, &[race(0, 3, 6)])?;
    expect_races(
        &rt,
        alloc,
        "cells",
        cells_run(alloc)?,
        &[race(2, 2, 4), race(5, 1, 3)],
    )?;
    Ok(())
}
