//! The laws of the end of a run.
ghost use Rattle.over_laws.specs.Over.{OverGivesGathered, OverGivesRun, OverGivesReport, OverGivesHistory};

/// Where the clock is closed and all jobs are there, the traces that the book's holder carries are those of all tasks.
pub fn over_gives_gathered()
    ensures { OverGivesGathered }
{}

/// So the log is a run of the program, which ended for the cause for which the turns stopped, with the cells of the shards.
pub fn over_gives_run()
    ensures { OverGivesRun }
{}

/// The first pairs that the shards have kept are the log's report.
pub fn over_gives_report()
    ensures { OverGivesReport }
{}

/// The entries of all traces are those of the log, which has one for each ticket that was drawn below the bound.
pub fn over_gives_history()
    ensures { OverGivesHistory }
{}
