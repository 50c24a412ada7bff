//! Laws of sound lists of events.
ghost use Rattle.strand_laws.specs.Laws.{PrecedesMeansPath, PathsStayInside, TableMeansPath, TableHasOne, WaitedStandsBefore, CurrentEndsPaths};
ghost use Rattle.strand_laws.specs.Laws.{PathsAreKept, LeastWaitsForNone, TryMeansPath, StructureHasEdges, CurrentBelongs, HomesStay, OrdersHaveStrands};

/// Each edge leads to a later strand, and a further event adds no path between strands that were there.
pub use fut_base::rows::{edges_rise, paths_stay};

/// For different strands of one future, standing before in both orders means a path inside that future.
pub fn precedes_means_path()
    ensures { PrecedesMeansPath }
{}

/// A path between two strands of one future implies one inside it.
pub fn paths_stay_inside()
    ensures { PathsStayInside }
{}

/// From a strand of another future a path leads exactly where the table covers it.
pub fn table_means_path()
    ensures { TableMeansPath }
{}

/// A table has at most one strand of each future.
pub fn table_has_one()
    ensures { TableHasOne }
{}

/// A task that another one waits for, or whose handle it holds, stands before it in English order.
pub fn waited_stands_before()
    ensures { WaitedStandsBefore }
{}

/// No path leads from the strand of a task that runs.
pub fn current_ends_paths()
    ensures { CurrentEndsPaths }
{}

/// Further events add no path between strands that were there.
pub fn paths_are_kept()
    ensures { PathsAreKept }
{}

/// What the first task in English order may wait for has ended.
pub fn least_waits_for_none()
    ensures { LeastWaitsForNone }
{}

/// How a path is found: inside one future by the orders, and else by the table.
pub fn try_means_path()
    ensures { TryMeansPath }
{}

/// The edges of a history are those of its structure.
pub fn structure_has_edges()
    ensures { StructureHasEdges }
{}

/// The strand on which a task stands belongs to the task's future.
pub fn current_belongs()
    ensures { CurrentBelongs }
{}

/// A further event changes the future of no strand that was there.
pub fn homes_stay()
    ensures { HomesStay }
{}

/// Both orders have as many items as there are strands.
pub fn orders_have_strands()
    ensures { OrdersHaveStrands }
{}
