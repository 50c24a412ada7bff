//! Laws of run texts.
ghost use Rattle.run_record.specs.Laws.{OneValue, NoneBeginsAnother, EitherOne, OneFault, ReadsAgain};

/// A text is the run text of one program, one list of entries, one list of races and one finish at most.
pub fn one_value()
    ensures { OneValue }
{}

/// No run text begins another.
pub fn none_begins_another()
    ensures { NoneBeginsAnother }
{}

/// Bytes are a run text or have a fault.
pub fn either_one()
    ensures { EitherOne }
{}

/// Bytes have one fault at most.
pub fn one_fault()
    ensures { OneFault }
{}

/// Reading a run text gives what it was written of, unless memory runs out.
pub fn reads_again()
    ensures { ReadsAgain }
{}
