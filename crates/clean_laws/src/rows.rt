//! Programs with two whole runs, worked out by hand: the laws speak of some, and need their premise.
ghost use Rattle.clean_laws.specs.Rows.{ApartRow, RacyRow};

/// Two tasks that write cells of their own: either may write first, there is no race, and the cells end alike.
pub fn apart_row()
    ensures { ApartRow }
{}

/// Two tasks that write one cell: either may write first, and the cells end differently.
pub fn racy_row()
    ensures { RacyRow }
{}
