//! Laws of the check.
ghost use Rattle.fut_check.specs.Laws.{ReadCanBeChecked, OneFirst, OneFault, NoFault};

/// What is read of a text can be checked.
pub fn read_can_be_checked()
    ensures { ReadCanBeChecked }
{}

/// Some faults have one first fault at most.
pub fn one_first()
    ensures { OneFirst }
{}

/// A program has one first fault at most.
pub fn one_fault()
    ensures { OneFault }
{}

/// A well-typed program has no fault.
pub fn no_fault()
    ensures { NoFault }
{}
