//! Laws of causes.
ghost use Rattle.fut_causes.specs.Laws.{CausesAreFaults, TheseHaveCauses};

/// Where types or counts break a rule a program has a fault of that rule.
pub fn causes_are_faults()
    ensures { CausesAreFaults }
{}

/// Each fault of arguments of another number, or of a handle where a number is due, has a cause.
pub fn these_have_causes()
    ensures { TheseHaveCauses }
{}
