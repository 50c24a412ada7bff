//! Laws of legal histories.
ghost use Rattle.run_laws.specs.Laws.{BegunOnce, ChildrenStandBefore, EndedOnce, EvaluationMakesNoHandle, FirstExists, FirstIsOne, GetsFollowEnds};
ghost use Rattle.run_laws.specs.Laws.{HandlesAreHeld, HandlesStandBefore, LaterReachesNone, LeftForGood, LeftOnce, LegalIsSound, MirrorsStructure};
ghost use Rattle.run_laws.specs.Laws.{NoneIsStuck, PathsOutlast, StrandsAreOwn, ValueWasEnded, WellTypedHasCells, WholeLeavesEach};
ghost use Rattle.run_laws.specs.Ready.{ReadyRun, ReadyIsFirst, NoneIsReady, FirstMayGoOn};
ghost use Rattle.run_laws.specs.Rows.{FutureRow};

/// The tasks and the next numbers of the machine are what the functions on the structure give.
pub fn mirrors()
    ensures { MirrorsStructure }
{}

/// The structure of a legal history is sound.
pub fn legal_is_sound()
    ensures { LegalIsSound }
{}

/// Each strand but 0 is begun by one entry.
pub fn begun_once()
    ensures { BegunOnce }
{}

/// Two tasks stand on two strands.
pub fn strands_are_own()
    ensures { StrandsAreOwn }
{}

/// No entry stands on a strand that was left.
pub fn left_for_good()
    ensures { LeftForGood }
{}

/// Each strand is left by at most one entry.
pub fn left_once()
    ensures { LeftOnce }
{}

/// In a whole history each strand is left by one entry.
pub fn whole_leaves_each()
    ensures { WholeLeavesEach }
{}

/// Each task ends at most once.
pub fn ended_once()
    ensures { EndedOnce }
{}

/// The value of a task is that of an end of the task.
pub fn value_was_ended()
    ensures { ValueWasEnded }
{}

/// A get of a future stands after the one end of its task, and has its value.
pub fn gets_follow_ends()
    ensures { GetsFollowEnds }
{}

/// A handle that an expression gives or a wish hands out is in a variable.
pub fn evaluation_makes_no_handle()
    ensures { EvaluationMakesNoHandle }
{}

/// A task holds, in the structure, each future that it knows.
pub fn handles_are_held()
    ensures { HandlesAreHeld }
{}

/// The task of each future that a task knows stands before it in English order.
pub fn handles_stand_before()
    ensures { HandlesStandBefore }
{}

/// Each child of a task's block stands before it in English order.
pub fn children_stand_before()
    ensures { ChildrenStandBefore }
{}

/// Where not all tasks have ended, one of those that have not is the first in English order.
pub fn first_exists()
    ensures { FirstExists }
{}

/// There is one such task.
pub fn first_is_one()
    ensures { FirstIsOne }
{}

/// In a well-typed text each array of cells has a cell.
pub fn well_typed_has_cells()
    ensures { WellTypedHasCells }
{}

/// That task is out of steps, or may go on: no history is stuck.
pub fn none_is_stuck()
    ensures { NoneIsStuck }
{}

/// A list of tasks, in which a child is put right before its maker and from which a task is taken that ends, has those that
/// have not ended.
pub fn ready_run()
    ensures { ReadyRun }
{}

/// Its first is the first in English order.
pub fn ready_is_first()
    ensures { ReadyIsFirst }
{}

/// It is empty exactly where all tasks have ended.
pub fn none_is_ready()
    ensures { NoneIsReady }
{}

/// In a well-typed program the first task is out of steps, or may go on.
pub fn first_may_go_on()
    ensures { FirstMayGoOn }
{}

/// No path leads from the strand of a later entry to that of an earlier one, unless it is the same strand.
pub fn later_reaches_none()
    ensures { LaterReachesNone }
{}

/// To a strand that a legal history has, the same paths lead in each longer legal history.
pub fn paths_outlast()
    ensures { PathsOutlast }
{}

/// The laws' words on a run worked out by hand.
pub fn future_row()
    ensures { FutureRow }
{}
