//! Laws of verdicts.
ghost use Rattle.fut_driver.specs.Laws.{CommandDecides, OneVerdict, ReplayAnswersRun, RunIsSerial, SameVerdict};

/// No two verdicts of one call hold, but for want of memory.
pub fn one_verdict()
    ensures { OneVerdict }
{}

/// Two calls with the same words over the same bytes have the same verdict, but for want of memory and faults of the source.
pub fn same_verdict()
    ensures { SameVerdict }
{}

/// A replay of the record that a run wrote is answered with the run's status and history, but for want of memory and faults of
/// the source.
pub fn replay_answers_run()
    ensures { ReplayAnswersRun }
{}

/// Words that ask for the same have the same verdicts.
pub fn command_decides()
    ensures { CommandDecides }
{}

/// `run` with one worker has the verdicts of `serial` with the same options.
pub fn run_is_serial()
    ensures { RunIsSerial }
{}
