//! How a call ends.
ghost use Rattle.std.specs.Prelude.{◌≡◌};
ghost use Rattle.explain_driver.specs.Answers.{status_number, status_of};

use fut_explain::explained::Verdict;

/// How a call ended.
#[derive(Clone, Copy, Debug, PartialEq, Eq)]
pub enum Status {
    /// The text is a program that breaks no type rule.
    WellTyped,
    /// The text is no program.
    NoProgram,
    /// The text is a program that breaks a type rule.
    IllTyped,
    /// The bytes begin as a record does. Records are not explained.
    Record,
    /// A take of the source failed.
    ReadFault,
    /// A put of the sink failed.
    WriteFault,
    NoMemory,
    /// The command line has words.
    Usage,
    /// The source gave more than 1,048,576 bytes, and they don't begin as a record does.
    TooLong,
}

impl Status {
    /// The number with which the program ends.
    pub fn number(self) -> u8
        ensures { result ≡ status_number self }
    {
        match self {
            Status::WellTyped => 0,
            Status::NoProgram => 2,
            Status::IllTyped => 3,
            Status::Record => 5,
            Status::ReadFault => 6,
            Status::WriteFault => 7,
            Status::NoMemory => 8,
            Status::Usage => 9,
            Status::TooLong => 10,
        }
    }
}

/// The status of a text that is this.
pub fn status_of(verdict: Verdict) -> Status
    ensures { result ≡ status_of verdict }
{
    match verdict {
        Verdict::NoProgram => Status::NoProgram,
        Verdict::IllTyped => Status::IllTyped,
        Verdict::WellTyped => Status::WellTyped,
    }
}
