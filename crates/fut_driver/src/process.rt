//! What the process is given, and how it ends.
ghost use Rattle.std.specs.Prelude.{◌≡◌, true};
ghost use Rattle.std.specs.Process.{exit_status};
ghost use Rattle.fut_base.specs.Events.{events_of};
ghost use Rattle.fut_driver.specs.declared.line.CommandLine.{CommandLine};
ghost use Rattle.fut_driver.specs.Given.{Asked, Told, asked_of, told_of};
ghost use Rattle.fut_driver.specs.Process.{EndsWith, HasWords, IsLineAnswer, IsLineOf, IsRefusal};

use crate::line::{CommandLine, line_of};
use crate::outcome::Outcome;
use crate::status::{Ended, Status};
use crate::top::forder;
use fut_base::gate::Gate;
use fut_base::ports::{Sink, Source, Wrote};
use std::alloc::Global;
use std::env::Args;
use std::io;
use std::process::ExitCode;
use std::sync::Wait;
use std::thread::Threads;

/// Does what the command line asks for, and gives the number of the status. The first word is the program's name. Where a word is
/// not UTF-8 the status is `Usage`, and where there was no memory for the words it is `NoMemory`. In both cases the line of that status is
/// written, and nothing is read.
pub fn carry_out<R: Threads + Wait + Sync, S: Source, K: Sink, G: Gate + Sync>(
    rt: &R,
    alloc: Global,
    given: io::Result<Args>,
    source: &mut S,
    out: &mut K,
    gate: &G,
) -> ExitCode
    ensures { (line : CommandLine) × IsLineOf given line × EndsWith line
        (λ words. asked_of S.Source true words source.old source.new)
        (told_of K.Sink out.old out.new)
        (exit_status result) }
{
    let line = line_of(alloc, given);
    let Ended { status, .. } = answer_line(rt, alloc, &line, source, out, gate);
    ExitCode::from(status.number())
}

/// Does what the words of a command line ask for.
pub fn answer_line<R: Threads + Wait + Sync, S: Source, K: Sink, G: Gate + Sync>(
    rt: &R,
    alloc: Global,
    line: &CommandLine,
    source: &mut S,
    out: &mut K,
    gate: &G,
) -> Ended
    ensures answer { IsLineAnswer line.now
        (λ words. asked_of S.Source true words source.old source.new)
        (told_of K.Sink out.old out.new)
        result.status (events_of result.history) }

    // Where it has no words nothing is read.
    ensures unread { (HasWords line.now → ⊥) → source.new ≡ source.old }
{
    match line {
        CommandLine::Words(words) => forder(rt, alloc, words, source, out, gate),
        CommandLine::Foreign => refuse(alloc, Status::Usage, out),
        CommandLine::NoMemory => refuse(alloc, Status::NoMemory, out),
    }
}

/// Writes the line of a status.
fn refuse<K: Sink>(alloc: Global, status: Status, out: &mut K) -> Ended
    ensures { IsRefusal
        (told_of K.Sink out.old out.new)
        status result.status (events_of result.history) }
{
    let outcome = Outcome::bare(alloc, status);
    let status = match outcome.write(out) {
        Wrote::All => status,
        Wrote::Failed => Status::WriteFault,
    };
    Ended {
        status,
        history: outcome.history,
    }
}
