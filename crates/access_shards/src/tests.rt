//! What is kept in worked runs.
ghost use Rattle.std.specs.Prelude.{length, OnOk};
ghost use Rattle.access_shards.specs.Kept.{AreKnown};

use crate::kept::{Access, Kept};
use crate::log::CellLog;
use reach_table::Reach;
use std::alloc::Global;
use std::process::Abort;
use std::test::Fail;
use strand_tree::Strand;

mod counted;
mod plain;
mod worked;

use counted::Counted;
use plain::{Plain, Touch, recompute};
use worked::{Step, Worked, are_known, work};

fn read(strand: usize) -> Touch {
    Touch {
        strand,
        writes: false,
    }
}

fn write(strand: usize) -> Touch {
    Touch {
        strand,
        writes: true,
    }
}

// Keeps an access on a strand with this table.
fn keep(
    log: &mut CellLog,
    judge: &mut Counted,
    at: Strand,
    reach: &Reach,
    place: u32,
    writes: bool,
) -> Result<(), Fail>
    requires { AreKnown (length judge.old.lists.english.order) log.old.kept }
    ensures { OnOk result (AreKnown (length judge.new.lists.english.order) log.new.kept) }
{
    if at.number >= judge.lists.english().len() {
        return Err("no such strand")?;
    }
    if !are_known(&judge.lists, reach.strands()?.as_slice()) {
        return Err("no such strand")?;
    }
    log.reserve()?;
    if writes {
        log.write(judge, reach, at, place)?;
        return Ok(());
    }
    log.read(judge, reach, at, place)?;
    Ok(())
}

// The log of a cell with these accesses, at places from 0 on.
fn log_of(
    alloc: Global,
    judge: &mut Counted,
    run: &Worked,
    touches: &[Touch],
) -> Result<CellLog, Fail> {
    let mut log = CellLog::make(alloc);
    let mut place = 0u32;
    for touch in touches {
        let (Some(at), Some(reach)) = (run.strands.get(touch.strand), run.tables.get(touch.strand))
        else {
            return Err("no such strand")?;
        };
        keep(&mut log, judge, *at, reach, place, touch.writes)?;
        place = place.saturating_add(1);
    }
    Ok(log)
}

// What is kept, by place.
fn places_of(alloc: Global, kept: &Kept) -> Result<Plain, Fail> {
    match kept {
        Kept::Clean { writer, readers } => {
            let mut places = Vec::new(alloc);
            for reader in readers {
                places.push(reader.place as usize)?;
            }
            Ok(Plain::Clean {
                writer: writer.map(|a| a.place as usize),
                readers: places,
            })
        }
        Kept::Found { first, second } => Ok(Plain::Found {
            first: *first as usize,
            second: *second as usize,
        }),
    }
}

// How many reads are kept.
fn count_of(kept: &Kept) -> usize {
    match kept {
        Kept::Clean { readers, .. } => readers.len(),
        Kept::Found { .. } => 0,
    }
}

// What a log keeps of these accesses in the run of these steps, and what has to be kept.
fn both(alloc: Global, steps: &[Step], touches: &[Touch]) -> Result<(Plain, Plain), Fail> {
    let (lists, run) = work(alloc, steps)?;
    let mut judge = Counted { lists, asked: 0 };
    let log = log_of(alloc, &mut judge, &run, touches)?;
    let expected = recompute(alloc, run.edges.as_slice(), run.strands.len(), touches)?;
    Ok((places_of(alloc, log.kept())?, expected))
}

// The reads of 2,000 spawned children rise, and none drops another: the judge is asked once for each, but the first.
#[test]
fn few_questions_are_asked(rt: HostRuntime) -> Result<(), Fail> {
    let mut steps = Vec::new(rt.alloc());
    let mut touches = Vec::new(rt.alloc());
    for k in 0..2000 {
        steps.push(Step::Spawn(2 * k))?;
        touches.push(read(2 * k + 1))?;
    }
    let (lists, run) = work(rt.alloc(), steps.as_slice())?;
    let mut judge = Counted { lists, asked: 0 };
    log_of(rt.alloc(), &mut judge, &run, touches.as_slice())?;
    let asked = judge.asked;
    assert!(rt; asked == 1999, "{asked} questions");
    Ok(())
}

// The same reads in another order: each has its place found by halves.
#[test]
fn few_questions_are_asked_out_of_order(rt: HostRuntime) -> Result<(), Fail> {
    let mut steps = Vec::new(rt.alloc());
    let mut touches = Vec::new(rt.alloc());
    for k in 0..2000 {
        steps.push(Step::Spawn(2 * k))?;
        touches.push(read(2 * (k * 771 % 2000) + 1))?;
    }
    let (lists, run) = work(rt.alloc(), steps.as_slice())?;
    let mut judge = Counted { lists, asked: 0 };
    let log = log_of(rt.alloc(), &mut judge, &run, touches.as_slice())?;
    let asked = judge.asked;
    assert!(rt; asked >= 2000 && asked <= 12 * 2000, "{asked} questions");
    assert!(rt; count_of(log.kept()) == 2000);
    Ok(())
}

#[test]
fn many_spawned_children_read(rt: HostRuntime) -> Result<(), Fail> {
    let mut steps = Vec::new(rt.alloc());
    let mut touches = Vec::new(rt.alloc());
    for k in 0..2000 {
        steps.push(Step::Spawn(2 * k))?;
        touches.push(read(2 * k + 1))?;
    }
    let (kept, expected) = both(rt.alloc(), steps.as_slice(), touches.as_slice())?;
    assert!(rt; kept == expected);
    touches.push(write(4000))?;
    let (kept, expected) = both(rt.alloc(), steps.as_slice(), touches.as_slice())?;
    assert_eq!(rt; kept, expected);
    let pair = Plain::Found {
        first: 1999,
        second: 2000,
    };
    assert_eq!(rt; kept, pair);
    Ok(())
}

// Whether a log keeps what has to be kept, after each of these accesses.
fn keeps_all(alloc: Global, steps: &[Step], touches: &[Touch]) -> Result<bool, Fail> {
    for end in 0..touches.len() {
        let (kept, expected) = both(alloc, steps, &touches[..=end])?;
        if kept != expected {
            return Ok(false);
        }
    }
    Ok(true)
}

// Reads of children in other orders, of which later ones drop some: those of the same strand, and after a sync those of its
// children.
#[test]
fn reads_in_any_order(rt: HostRuntime) -> Result<(), Fail> {
    use Step::{Spawn, Sync};
    let mut steps = Vec::new(rt.alloc());
    for k in 0..12 {
        steps.push(Spawn(2 * k))?;
    }
    // The second child has two of its own, one after the other.
    steps.push(Spawn(3))?;
    steps.push(Sync { at: 26, last: 25 })?;
    steps.push(Spawn(27))?;
    steps.push(Sync { at: 29, last: 28 })?;
    for step in [1, 5, 7, 11] {
        let mut touches = Vec::new(rt.alloc());
        for k in 0..12 {
            let child = 2 * (k * step % 12) + 1;
            touches.push(read(if child == 3 { 25 } else { child }))?;
        }
        for strand in [28, 30, 30, 24, 5, 30] {
            touches.push(read(strand))?;
        }
        assert!(rt; keeps_all(rt.alloc(), steps.as_slice(), touches.as_slice())?);
        touches.push(write(24))?;
        assert!(rt; keeps_all(rt.alloc(), steps.as_slice(), touches.as_slice())?);
    }
    Ok(())
}

#[test]
fn what_is_kept_is_the_definitions(rt: HostRuntime) -> Result<(), Fail> {
    use Step::{Create, Spawn, Sync};
    // Three children, in the English order and in others, and one strand again.
    let three = [Spawn(0), Spawn(2), Spawn(4)];
    let in_order = [read(1), read(3), read(3), read(5), read(6), write(6)];
    assert!(rt; keeps_all(rt.alloc(), &three, &in_order)?);
    let out_of_order = [read(5), read(1), read(3), read(6), write(6)];
    assert!(rt; keeps_all(rt.alloc(), &three, &out_of_order)?);
    let back_and_on = [read(3), read(5), read(1), read(6), write(6)];
    assert!(rt; keeps_all(rt.alloc(), &three, &back_and_on)?);
    // A sync drops the reads of its own children: 5 and 6, but not 1.
    let nested = [Spawn(0), Spawn(2), Spawn(3), Sync { at: 6, last: 5 }];
    let serial = [read(1), read(5), read(6), read(7), read(4), write(7)];
    assert!(rt; keeps_all(rt.alloc(), &nested, &serial)?);
    let mixed = [read(5), read(4), read(6), read(1), read(7), write(7)];
    assert!(rt; keeps_all(rt.alloc(), &nested, &mixed)?);
    // A write in the middle.
    let joined = [Spawn(0), Sync { at: 2, last: 1 }, Spawn(3)];
    let written = [
        read(2),
        read(1),
        write(3),
        read(3),
        read(4),
        read(5),
        write(5),
    ];
    assert!(rt; keeps_all(rt.alloc(), &joined, &written)?);
    // Three futures: a read drops that of a future's maker.
    let futures = [Create(0), Create(2), Spawn(1)];
    let across = [
        read(0),
        read(1),
        read(2),
        read(3),
        read(4),
        read(5),
        read(6),
        write(6),
    ];
    assert!(rt; keeps_all(rt.alloc(), &futures, &across)?);
    let back = [read(4), read(3), read(1), read(6), read(5), write(4)];
    assert!(rt; keeps_all(rt.alloc(), &futures, &back)?);
    Ok(())
}
