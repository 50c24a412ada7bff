//! The workloads of the scripts in `bench/`: one part of a library crate, so many times, on so many threads. It measures nothing itself;
//! the script takes the time of each call.
//!
//! The words are the name of a part, a count and a number of threads. With others it says how it is used, and ends with 9.
#![tactic(auto)]

mod draws;
mod orders;
mod part;
#[cfg(test)]
mod tests;
mod tree;

use crate::draws::{Beside, added, drawn};
use crate::orders::{answers_beside, befores_of_live, befores_of_still, relabelled};
use crate::part::{Part, part_of};
use crate::tree::{Tree, done_alone, done_by_workers};
use fut_base::list::NoMemory;
use std::alloc::Global;
use std::process::ExitCode;
use std::sync::Wait;
use std::thread::Threads;
use std::{env, io};

// The steps of a job that works for about a microsecond.
const STEPS: u32 = 400;

/// What the words ask for.
#[derive(Drop)]
struct Asked {
    part: Part,
    count: u32,
    threads: u32,
}

fn words_of<R: env::Env + AllocGlobal>(rt: &R) -> Option<Asked> {
    let mut words = env::args(rt).ok()?.skip(1);
    let part = part_of(words.next()?.as_str())?;
    let count = words.next()?.as_str().parse::<u32>().ok()?;
    let threads = words.next()?.as_str().parse::<u32>().ok()?;
    if words.next().is_some() || threads == 0 || threads > 64 {
        return None;
    }
    Some(Asked {
        part,
        count,
        threads,
    })
}

// The tree of jobs that a part does; one job for a part that does none.
fn tree_of(alloc: Global, part: Part, count: u32) -> Tree {
    let (jobs, steps) = match part {
        Part::Plain | Part::Pool => (count, 0),
        Part::Work => (count, STEPS),
        _ => (1, count.saturating_mul(STEPS)),
    };
    Tree { alloc, jobs, steps }
}

// How many jobs, questions or draws of a part were done.
fn done_of<R: Threads + Wait + Sync>(
    rt: &R,
    alloc: Global,
    asked: &Asked,
) -> Result<u64, NoMemory> {
    let count = asked.count;
    let tree = tree_of(alloc, asked.part, count);
    match asked.part {
        Part::Plain => Ok(u64::from(done_alone(&tree)?)),
        Part::Still => Ok(u64::from(befores_of_still(alloc, count)?)),
        Part::Live => Ok(u64::from(befores_of_live(alloc, count)?)),
        Part::Readers => answers_beside(rt, alloc, count, asked.threads),
        Part::Relabelled => relabelled(alloc, count),
        Part::Added => added(rt, alloc, count, asked.threads),
        Part::Drawn => drawn(rt, alloc, count, asked.threads, Beside::Nothing),
        Part::Noted => drawn(rt, alloc, count, asked.threads, Beside::Note),
        Part::Split => drawn(rt, alloc, count, asked.threads, Beside::Split),
        Part::Pool | Part::Work | Part::Long => {
            Ok(u64::from(done_by_workers(rt, &tree, asked.threads)?))
        }
    }
}

fn main(rt: HostRuntime) -> io::Result<ExitCode> {
    let Some(asked) = words_of(&rt) else {
        println!(rt; "usage: bench_parts PART COUNT THREADS")?;
        return Ok(ExitCode::from(9));
    };
    let Ok(done) = done_of(&rt, rt.alloc(), &asked) else {
        println!(rt; "no memory")?;
        return Ok(ExitCode::from(8));
    };
    println!(rt; "{done}")?;
    Ok(ExitCode::from(0))
}
