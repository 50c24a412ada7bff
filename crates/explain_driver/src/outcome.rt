//! How a call ends, before its text is written.
ghost use Rattle.std.specs.Prelude.{◌≡◌, ◌≢◌, ◌≤◌, ◌↔◌, IsTrue, length};
ghost use Rattle.fut_base.specs.declared.limits.TheConstants.{MOST_PROGRAM_BYTES};
ghost use Rattle.explain_driver.specs.Answers.{Asked, asked_of, due_text, IsRecordText, IsOfWhole, IsOfLonger, IsOfSource, IsVerdict};
ghost use Rattle.explain_driver.specs.declared.line.Line.TheVariants.{Bare};

use crate::input::{Input, read_all};
use crate::line::Line;
use crate::status::{Status, status_of};
use fut_base::limits::MOST_PROGRAM_BYTES;
use fut_base::list::NoMemory;
use fut_base::ports::Source;
use fut_explain::explained::explain;
use std::alloc::Global;

/// How a call ends: the status, and, where it is that of a program text, what is told of the text.
#[derive(Drop)]
pub struct Outcome {
    pub status: Status,
    pub made: Vec<u8>,
}

impl Outcome {
    /// No text that was made.
    fn bare(alloc: Global, status: Status) -> Outcome
        ensures { result.status ≡ status }
    {
        Outcome {
            status,
            made: Vec::new(alloc),
        }
    }

    /// The text that is due.
    pub fn due(&self) -> &[u8]
        ensures { result.now ≡ due_text self.now.status self.now.made.items }
    {
        match self.status {
            Status::WellTyped | Status::NoProgram | Status::IllTyped => self.made.as_slice(),
            Status::Record => b"a record: records are not explained yet\n",
            Status::ReadFault => b"read fault\n",
            Status::WriteFault => b"",
            Status::NoMemory => b"no memory\n",
            Status::Usage => b"usage: explain, with a program text on standard input\n",
            Status::TooLong => b"too long\n",
        }
    }
}

/// Whether some bytes begin as a record does.
fn is_record(bytes: &[u8]) -> bool
    ensures { IsTrue result ↔ IsRecordText bytes.now }
{
    bytes.starts_with(b"forder 1\n")
}

/// What comes of all bytes of a source.
fn whole(alloc: Global, bytes: &[u8]) -> Outcome
    requires { length bytes.now ≤ MOST_PROGRAM_BYTES }
    ensures { IsOfWhole bytes.now result.status (due_text result.status result.made.items) }
{
    if is_record(bytes) {
        return Outcome::bare(alloc, Status::Record);
    }
    match explain(alloc, bytes) {
        Ok(told) => Outcome {
            status: status_of(told.verdict),
            made: told.text,
        },
        Err(NoMemory) => Outcome::bare(alloc, Status::NoMemory),
    }
}

/// What comes of bytes that are more than a program text may have.
fn longer(alloc: Global, bytes: &[u8]) -> Outcome
    ensures { IsOfLonger bytes.now result.status (due_text result.status result.made.items) }
{
    if is_record(bytes) {
        Outcome::bare(alloc, Status::Record)
    } else {
        Outcome::bare(alloc, Status::TooLong)
    }
}

/// Reads the source, and tells of it.
fn of_source<S: Source>(alloc: Global, source: &mut S) -> Outcome
    ensures { IsOfSource (asked_of S.Source source.old source.new) result.status (due_text result.status result.made.items) }
{
    match read_all(alloc, source, MOST_PROGRAM_BYTES as usize) {
        Input::Whole(bytes) => whole(alloc, bytes.as_slice()),
        Input::TooLong(bytes) => longer(alloc, bytes.as_slice()),
        Input::Failed => Outcome::bare(alloc, Status::ReadFault),
        Input::NoMemory => Outcome::bare(alloc, Status::NoMemory),
    }
}

/// Reads the source where the command line is bare, and tells of it.
pub fn outcome_of<S: Source>(alloc: Global, line: Line, source: &mut S) -> Outcome
    ensures verdict { IsVerdict line (asked_of S.Source source.old source.new) result.status (due_text result.status result.made.items) }
    ensures unread { line ≢ Bare → source.new ≡ source.old }
{
    match line {
        Line::Bare => of_source(alloc, source),
        Line::Words => Outcome::bare(alloc, Status::Usage),
        Line::NoMemory => Outcome::bare(alloc, Status::NoMemory),
    }
}
