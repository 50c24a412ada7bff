//! What happened in a run: values, acts, entries, races, and how the run ended.
use crate::list::Listing;

/// A value of the task language: a signed 64-bit number, or the handle of a future.
#[derive(Clone, Copy, Debug, PartialEq, Eq)]
pub enum Value {
    Int(i64),
    Fut(u32),
}

/// The argument values of a call in order, an array as its elements.
pub type Args = Listing<Value>;

/// The entries of a run in order. An entry's place is its index.
pub type History = Listing<Entry>;

/// Racing cells, each with its first pair.
pub type Races = Listing<Race>;

/// The values of all cells, by cell number.
pub type Cells = Listing<i64>;

/// Bytes.
pub type Text = Listing<u8>;

/// What a task did.
#[derive(Drop)]
pub enum Act {
    /// Read a cell, and found this value in it.
    Read {
        cell: u32,
        value: i64,
    },
    /// Wrote this value to a cell.
    Write {
        cell: u32,
        value: i64,
    },
    /// Spawned a child, which runs task `code` of the text from strand `kid` on; the acting task goes on at `cont`.
    Spawn {
        code: u32,
        child: u32,
        kid: u32,
        cont: u32,
        args: Args,
    },
    /// Created a future, whose number is that of the child; the rest as for a spawn.
    Create {
        code: u32,
        child: u32,
        kid: u32,
        cont: u32,
        args: Args,
    },
    /// Waited for the children that it had spawned since its last sync; it goes on at `strand`.
    Sync {
        strand: u32,
    },
    /// Waited for a future, which had this value; it goes on at `strand`.
    Get {
        future: u32,
        value: Value,
        strand: u32,
    },
    /// Ended with a value.
    End {
        value: Value,
    },
}

/// One event of a run: its task, the strand on which it stands, and its act.
#[derive(Drop)]
pub struct Entry {
    pub task: u32,
    pub strand: u32,
    pub act: Act,
}

/// A racing cell with the places of its first pair.
#[derive(Clone, Copy, Debug, PartialEq, Eq)]
pub struct Race {
    pub cell: u32,
    pub first: u32,
    pub second: u32,
}

/// The limits of a run: entries of its history, local steps in a row, and creates.
#[derive(Clone, Copy, Debug, PartialEq, Eq)]
pub struct Limits {
    pub events: u32,
    pub local_steps: u32,
    pub futures: u32,
}

/// How a run ended.
#[derive(Clone, Copy, Debug, PartialEq, Eq)]
pub enum Finish {
    /// Every task has ended.
    Whole,
    /// The history has as many entries as the run was allowed.
    Events { bound: u32 },
    /// This task made the greatest number of local steps in a row.
    Local { task: u32 },
    /// This task wishes to create a future, and the history has as many creates as a run is allowed.
    Futures { task: u32 },
}

/// A run: its history, the races in it, how it ended, and the final values of the cells.
#[derive(Drop)]
pub struct Ran {
    pub history: History,
    pub races: Races,
    pub finish: Finish,
    pub cells: Cells,
}
