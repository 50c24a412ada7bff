//! The accesses of one cell that are enough to find its next race.
ghost use Rattle.strand_laws.specs.Keeping.{KeptAreEnough, KeptAreLast};

/// While a cell has no race, the latest partner of a further access is the latest among those kept.
pub fn kept_are_enough()
    ensures { KeptAreEnough }
{}

/// The kept accesses are the last write, and the reads after it that no later read is reached from.
pub fn kept_are_last()
    ensures { KeptAreLast }
{}
