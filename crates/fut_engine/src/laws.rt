//! Laws of runs.
ghost use Rattle.fut_engine.specs.Laws.{SerialIsRun};

/// The serial run of a program is one of its runs.
pub fn serial_is_run()
    ensures { SerialIsRun }
{}
