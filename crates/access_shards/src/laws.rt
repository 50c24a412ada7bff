//! Laws of the accesses of a cell.
ghost use Rattle.std.specs.Prelude.{ℕ};
ghost use Rattle.access_shards.specs.Touches.{Kinds};
ghost use Rattle.access_shards.specs.Kept.{Kind, kinds};
ghost use Rattle.access_shards.specs.Laws.{KeptIsEnough, KeptStays, LogStays, LateStays, CurrentMayCome, NoPathBack, AccessesAreLate, KeptTellsRaces};
ghost use Rattle.access_shards.specs.Laws.{RacesAreOfAccesses, FirstPairIsOfAccesses};

/// While there was no race, the greatest partner of a further access is the greatest one of those that must be kept. The
/// kinds of access are any numbers here: all that the law asks of them is that a write conflicts with each.
pub fn kept_is_enough()
    ensures { (k : Kinds ℕ) → KeptIsEnough ℕ k }
{}

/// The same of reads and writes.
pub fn kept_is_enough_of_two()
    ensures { KeptIsEnough Kind kinds }
{}

/// With further structural events the same is kept.
pub fn kept_stays()
    ensures { KeptStays }
{}

/// And the log of some accesses is still their log.
pub fn log_stays()
    ensures { LogStays }
{}

/// With further structural events no path leads from an access to another strand of an earlier one either.
pub fn late_stays()
    ensures { LateStays }
{}

/// On the current strand of a task that has not ended one more access may come.
pub fn current_may_come()
    ensures { CurrentMayCome }
{}

/// In a history no path leads from the strand of an event to another strand of an earlier event.
pub fn no_path_back()
    ensures { NoPathBack }
{}

/// So it is for the accesses of each cell, whose places rise.
pub fn accesses_are_late()
    ensures { AccessesAreLate }
{}

/// Two places of a history race on a cell exactly where its accesses there do.
pub fn races_are_of_accesses()
    ensures { RacesAreOfAccesses }
{}

/// The first pair of a cell's accesses is that of the history.
pub fn first_pair_is_of_accesses()
    ensures { FirstPairIsOfAccesses }
{}

/// What is kept of a cell's accesses tells whether the cell has a race in the history, and its first pair.
pub fn kept_tells_races()
    ensures { KeptTellsRaces }
{}
