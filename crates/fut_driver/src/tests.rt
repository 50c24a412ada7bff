//! Calls by words over a source and a sink in memory.
mod bounds;
mod forms;
mod guide;
mod lengths;
mod loads;
mod process;
mod records;
mod replays;
mod runs;
mod words;
mod workers;

use crate::status::{Ended, Status};
use crate::top::forder;
use command_words::words::Words;
use fut_base::gate::FreeGate;
use fut_base::memory::{MemSink, MemSource};
use std::sync::Wait;
use std::test::Fail;
use std::thread::Threads;

/// The words for a run.
pub const RUN: [&str; 3] = ["run", "--workers", "1"];

/// The words for a serial run.
pub const SERIAL: [&str; 1] = ["serial"];

/// The words for a check.
pub const CHECK: [&str; 1] = ["check"];

/// The words for a replay.
pub const REPLAY: [&str; 1] = ["replay"];

/// A child writes, and its parent before it waits.
pub const RACE: &str =
    "cells a[1];\ntask kid() int { a[0] = 1; return 0; }\ntask main() int { spawn kid(); a[0] = 2; sync; return 0; }\n";

/// The same, and the parent waits first.
pub const SYNC: &str =
    "cells a[1];\ntask kid() int { a[0] = 1; return 0; }\ntask main() int { spawn kid(); sync; a[0] = 2; return 0; }\n";

/// The record of that race.
pub const RACE_RECORD: &str =
    "forder 1\nprogram 110\ncells a[1];\ntask kid() int { a[0] = 1; return 0; }\ntask main() int { spawn kid(); a[0] = 2; sync; return 0; }\n\nentries 6\n0 t0 s0 spawn 0 t1 s1 s2\n1 t1 s1 write 0 1\n2 t1 s1 end 0\n3 t0 s2 write 0 2\n4 t0 s2 sync s3\n5 t0 s3 end 0\nraces 1\nrace 0 1 3\nfinish whole\nend\n";

/// The record of the run without it.
pub const SYNC_RECORD: &str =
    "forder 1\nprogram 110\ncells a[1];\ntask kid() int { a[0] = 1; return 0; }\ntask main() int { spawn kid(); sync; a[0] = 2; return 0; }\n\nentries 6\n0 t0 s0 spawn 0 t1 s1 s2\n1 t1 s1 write 0 1\n2 t1 s1 end 0\n3 t0 s2 sync s3\n4 t0 s3 write 0 2\n5 t0 s3 end 0\nraces 0\nfinish whole\nend\n";

/// Two futures, each got by two others, so that the dag is not series-parallel.
pub const CROSSED: &str =
    "cells a[4];\ntask p() int { a[0] = 1; return 1; }\ntask q() int { a[1] = 2; return 2; }\ntask r(h: fut int, k: fut int, o: int) int { var x: int = get h; x = get k; var y: int = a[0]; var z: int = a[1]; a[o] = y + z; return x; }\ntask main() int { var h: fut int = create p(); var k: fut int = create q(); var m: fut int = create r(h, k, 2); var n: fut int = create r(h, k, 3); var x: int = get m; x = get n; return x; }\n";

/// What came of a call.
#[derive(Drop)]
pub struct Answer {
    pub status: Status,
    pub text: Vec<u8>,
    pub entries: usize,
}

impl Answer {
    /// Whether the text that was written ends so.
    pub fn ends_in(&self, tail: &str) -> bool {
        self.text.as_slice().ends_with(tail.as_bytes())
    }
}

/// Calls forder over a source and a sink in memory that give and take so much a call and fail at these calls.
pub fn call_forder<R: AllocGlobal + Threads + Wait + Sync>(
    rt: &R,
    words: &[&str],
    text: &[u8],
    most: usize,
    take_fails: &[u64],
    put_fails: &[u64],
) -> Result<Answer, Fail> {
    let alloc = rt.alloc();
    let mut given = Words::make(alloc);
    for word in words {
        given.push(word)?;
    }
    let mut source = MemSource::make(alloc, text, most.max(1), take_fails)?;
    let mut out = MemSink::make(alloc, 32_000_000, most.max(1), put_fails)?;
    let Ended { status, history } = forder(rt, alloc, &given, &mut source, &mut out, &FreeGate);
    let text = Vec::from_slice(alloc, out.bytes())?;
    Ok(Answer {
        status,
        text,
        entries: history.len(),
    })
}

/// The same with nothing in its way.
pub fn ask<R: AllocGlobal + Threads + Wait + Sync>(
    rt: &R,
    words: &[&str],
    text: &[u8],
) -> Result<Answer, Fail> {
    call_forder(rt, words, text, 4096, &[], &[])
}
