//! What a call of forder answers.
use fut_base::record::{Finish, History};

/// How a call ended.
#[derive(Clone, Copy, Debug, PartialEq, Eq)]
pub enum Status {
    /// The text is a program that breaks no type rule.
    Accepted,
    /// The run or the record is whole and has no race.
    Clean,
    /// The run or the record is whole and has a race.
    Raced,
    /// The text is no program. Its first token that can't come stands here.
    Syntax { line: u32, column: u32 },
    /// The text is a program that breaks a type rule. Its first fault breaks the rule of this number, and stands here.
    IllTyped { rule: u32, line: u32, column: u32 },
    /// The run or the record is not whole, and ended so.
    Spent { finish: Finish },
    /// The entries of the record before this one are legal and it is not; or all are legal, this is their number, and the
    /// races or the finish are not those of the history.
    NotLegal { entry: u32 },
    /// The bytes are no run text. Their longest beginning with which a run text begins has so many bytes.
    NotRun { byte: u32 },
    /// A take of the source failed.
    ReadFault,
    /// A put of the sink failed.
    WriteFault,
    NoMemory,
    /// The words have no form that forder knows.
    Usage,
    /// The source gave more than 1,048,576 bytes, or, where a record is due, more than 67,108,864.
    TooLong,
}

impl Status {
    ghost use Rattle.std.specs.Prelude.{◌≡◌};
    ghost use Rattle.fut_driver.specs.Numbers.{status_number};

    /// The number with which the program ends.
    pub fn number(self) -> u8
        ensures { result ≡ status_number self }
    {
        match self {
            Status::Accepted | Status::Clean => 0,
            Status::Raced => 1,
            Status::Syntax { .. } => 2,
            Status::IllTyped { .. } => 3,
            Status::Spent { .. } => 4,
            Status::NotLegal { .. } | Status::NotRun { .. } => 5,
            Status::ReadFault => 6,
            Status::WriteFault => 7,
            Status::NoMemory => 8,
            Status::Usage => 9,
            Status::TooLong => 10,
        }
    }
}

/// What a call answers: how it ended, and the history of the run that it made or of the legal record that it read. Where
/// there is neither, the history is empty.
#[derive(Drop)]
pub struct Ended {
    pub status: Status,
    pub history: History,
}
