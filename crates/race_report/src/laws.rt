//! Laws of the definitions.
ghost use Rattle.race_report.specs.Laws.{CellsAreNamed, OneReport};

/// A history has at most one report.
pub fn one_report()
    ensures { OneReport }
{}

/// Each cell of a program has a name in the brief text: that of an array with the index at which it is the cell.
pub fn cells_are_named()
    ensures { CellsAreNamed }
{}
