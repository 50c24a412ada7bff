//! Laws of records.
ghost use Rattle.run_check.specs.Laws.{AcceptedIsNotRefused, OneRefusal};
ghost use Rattle.run_check.specs.Within.{AcceptedAreWithin};

/// What is accepted for a well-typed program is within the bounds of a run text: a call has at most 16 arguments, and at most
/// 65,536 cells race.
pub fn accepted_are_within()
    ensures { AcceptedAreWithin }
{}

/// A record that is accepted is refused nowhere.
pub fn accepted_is_not_refused()
    ensures { AcceptedIsNotRefused }
{}

/// A record is refused at one entry at most.
pub fn one_refusal()
    ensures { OneRefusal }
{}
