//! Laws of serial runs.
ghost use Rattle.run_replay.specs.Laws.{SerialIsOne};

/// A program has one serial run within given limits.
pub fn serial_is_one()
    ensures { SerialIsOne }
{}
