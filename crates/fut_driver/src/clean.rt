//! What an answer without a race says of all schedules.
ghost use Rattle.fut_driver.specs.Clean.{CleanAnswersForAll};

/// Where `Clean` is answered for a run or a record, every whole run of its program ends with the same cells, and none is longer: whatever
/// the schedule, for this text.
pub fn clean_answers_for_all()
    ensures { CleanAnswersForAll }
{}
