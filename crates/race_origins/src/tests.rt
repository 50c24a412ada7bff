//! Histories written down entry by entry, and where their strands part.
use crate::origins::Origins;
use fut_base::list::{Listing, NoMemory};
use fut_base::record::{Act, Entry, History, Value};
use std::alloc::Global;
use std::process::Abort;
use std::test::Fail;

fn entry(task: u32, strand: u32, act: Act) -> Entry {
    Entry { task, strand, act }
}

fn write() -> Act {
    Act::Write { cell: 0, value: 1 }
}

fn spawn(alloc: Global, child: u32, kid: u32, cont: u32) -> Act {
    Act::Spawn {
        code: 0,
        child,
        kid,
        cont,
        args: Listing::make(alloc),
    }
}

fn create(alloc: Global, child: u32, kid: u32, cont: u32) -> Act {
    Act::Create {
        code: 0,
        child,
        kid,
        cont,
        args: Listing::make(alloc),
    }
}

fn sync(strand: u32) -> Act {
    Act::Sync { strand }
}

fn get(future: u32, strand: u32) -> Act {
    Act::Get {
        future,
        value: Value::Int(1),
        strand,
    }
}

fn end() -> Act {
    Act::End {
        value: Value::Int(1),
    }
}

// A child is joined, and then a second one writes beside its parent.
fn spawn_run(alloc: Global) -> Result<Vec<Entry>, Fail> {
    Ok(vec![in alloc;
        entry(0, 0, spawn(alloc, 1, 1, 2)),
        entry(1, 1, end()),
        entry(0, 2, sync(3)),
        entry(0, 3, spawn(alloc, 2, 4, 5)),
        entry(0, 5, write()),
        entry(2, 4, write()),
    ]?)
}

// A child and its parent both get the future 1, which ends after the spawn.
fn future_run(alloc: Global) -> Result<Vec<Entry>, Fail> {
    Ok(vec![in alloc;
        entry(0, 0, create(alloc, 1, 1, 2)),
        entry(0, 2, spawn(alloc, 2, 3, 4)),
        entry(1, 1, end()),
        entry(2, 3, get(1, 5)),
        entry(0, 4, get(1, 6)),
        entry(0, 6, write()),
        entry(2, 5, write()),
    ]?)
}

fn history_of(alloc: Global, entries: Vec<Entry>) -> Result<History, NoMemory> {
    let mut history = Listing::make(alloc);
    for entry in entries {
        history.reserve()?;
        history.push(entry);
    }
    Ok(history)
}

fn expect_partings(
    rt: &impl Abort,
    alloc: Global,
    entries: Vec<Entry>,
    rows: &[(u32, u32, Option<usize>)],
) -> Result<(), Fail> {
    let history = history_of(alloc, entries)?;
    let origins = Origins::make(alloc, &history)?;
    for row in rows {
        let (one, other, want) = *row;
        let place = origins.parting(alloc, &history, one, other)?;
        assert_eq!(rt; place, want, "of {one} and {other}");
    }
    Ok(())
}

#[test]
fn partings(rt: HostRuntime) -> Result<(), Fail> {
    let alloc = rt.alloc();
    expect_partings(
        &rt,
        alloc,
        spawn_run(alloc)?,
        &[
            (4, 5, Some(3)),
            (1, 2, Some(0)),
            (3, 5, Some(3)),
            (4, 9, None),
        ],
    )?;
    expect_partings(
        &rt,
        alloc,
        future_run(alloc)?,
        &[(5, 6, Some(2)), (3, 4, Some(1)), (1, 6, Some(2))],
    )?;
    Ok(())
}
