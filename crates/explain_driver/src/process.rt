//! What the process is given, and how it ends.
ghost use Rattle.std.specs.Prelude.{◌≡◌, ◌≢◌};
ghost use Rattle.std.specs.Process.{exit_status};
ghost use Rattle.explain_driver.specs.declared.line.Line.{Line};
ghost use Rattle.explain_driver.specs.declared.line.Line.TheVariants.{Bare};
ghost use Rattle.explain_driver.specs.Answers.{Asked, Told, asked_of, told_of, IsAnswer, IsEnding};
ghost use Rattle.explain_driver.specs.Process.{EndsWith, IsLineOf};

use crate::line::{Line, line_of};
use crate::outcome::{Outcome, outcome_of};
use crate::status::Status;
use fut_base::ports::{Sink, Source, Wrote, write_text};
use std::alloc::Global;
use std::env::Args;
use std::io;
use std::process::ExitCode;

/// Reads a program text from the source and writes to the sink what its first fault is, where the command line has no words behind the
/// program's name. Gives the number of the status.
pub fn carry_out<S: Source, K: Sink>(
    alloc: Global,
    given: io::Result<Args>,
    source: &mut S,
    out: &mut K,
) -> ExitCode
    ensures { (line : Line) × IsLineOf given line × EndsWith line
        (asked_of S.Source source.old source.new)
        (told_of K.Sink out.old out.new)
        (exit_status result) }
{
    let line = line_of(given);
    let status = answer(alloc, line, source, out);
    ExitCode::from(status.number())
}

/// Reads a program text of at most 1,048,576 bytes from the source, and writes to the sink what its first fault is. Of bytes that begin as a
/// record does it tells that records are not explained, whatever stands behind. A command line with words is answered with how
/// the program is used.
pub fn answer<S: Source, K: Sink>(alloc: Global, line: Line, source: &mut S, out: &mut K) -> Status
    // The status and what was written are those of a verdict whose causes hold.
    ensures answer { IsAnswer line (asked_of S.Source source.old source.new) (told_of K.Sink out.old out.new) result }

    // Where the line is not bare nothing is read.
    ensures unread { line ≢ Bare → source.new ≡ source.old }
{
    let outcome = outcome_of(alloc, line, source);
    told(&outcome, out)
}

/// Writes the text that is due, and tells how the call ended.
fn told<K: Sink>(outcome: &Outcome, out: &mut K) -> Status
    ensures { IsEnding outcome.now (told_of K.Sink out.old out.new) result }
{
    match write_text(out, outcome.due()) {
        Wrote::All => outcome.status,
        Wrote::Failed => Status::WriteFault,
    }
}
