//! How much a run text holds at most, beside the limits of a run.

/// How many arguments a call has.
pub const MOST_ARGUMENTS: usize = 16;

/// How many races there are: one a cell.
pub const MOST_RACES: u32 = 65_536;
