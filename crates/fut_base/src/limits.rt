//! How much a run, a text and a set of workers may have at most. Code and clauses name these, and no other place says how many.

/// How many local steps a task may make in a row.
pub const MOST_LOCAL_STEPS: u32 = 1_000_000;

/// How many entries a history may have.
pub const MOST_ENTRIES: u32 = 1_000_000;

/// How many futures a run may create.
pub const MOST_CREATES: u32 = 4_096;

/// How many bytes the text of a program may have.
pub const MOST_PROGRAM_BYTES: u32 = 1_048_576;

/// How many bytes the text of a run may have.
pub const MOST_RECORD_BYTES: u32 = 67_108_864;

/// How many workers may share a run.
pub const MOST_WORKERS: u32 = 64;
