//! From the words and the source to how the call ends.
ghost use Rattle.std.specs.Prelude.{◌≡◌, ℕ, ◌≤◌, length};
ghost use Rattle.fut_base.specs.Events.{events_of};
ghost use Rattle.command_words.specs.Asking.{AreWordsOf, IsBounded, most_bytes};
ghost use Rattle.fut_driver.specs.Given.{Asked, asked_of};
ghost use Rattle.fut_driver.specs.Verdict.{IsVerdict, Reads};
ghost use Rattle.fut_driver.specs.Reading.{IsInputOf};
ghost use Rattle.command_words.specs.declared.words.Command.TheVariants as command;
ghost use Rattle.fut_driver.specs.Due.{due_text};
ghost use Rattle.fut_driver.specs.Outcomes.{IsJudged, IsPrepared, IsUsage};
ghost use Rattle.fut_driver.specs.declared.status.Status.TheVariants as status;

use crate::form::Form;
use crate::input::{Input, read_all};
use crate::job::Prepared;
use crate::load::load_text;
use crate::outcome::Outcome;
use crate::replay::replay_text;
use crate::run::{check_text, run_text};
use crate::status::Status;
use command_words::reading::reads_as;
use command_words::words::{Command, Words};
use fut_base::limits::{MOST_PROGRAM_BYTES, MOST_RECORD_BYTES};
use fut_base::list::NoMemory;
use fut_base::ports::Source;
use std::alloc::Global;

/// The greatest length of the text that a command works on, in bytes.
fn longest(command: Command) -> usize
    ensures { result ≡ most_bytes command }
{
    match command {
        Command::Replay => MOST_RECORD_BYTES as usize,
        Command::Check | Command::Run { .. } | Command::Load { .. } => MOST_PROGRAM_BYTES as usize,
    }
}

/// The bytes that a command works on: those of the source, or of `load` the text of its program.
fn input_of<S: Source>(alloc: Global, command: Command, source: &mut S) -> Input
    requires { IsBounded command }
    ensures input { IsInputOf command (S.left source.old) (S.left source.new) (S.ended source.new) (S.faults source.old) (S.faults source.new) result }
    ensures unread { (Reads command → ⊥) → source.new ≡ source.old }
{
    match command {
        Command::Check | Command::Replay | Command::Run { .. } => {
            read_all(alloc, source, longest(command))
        }
        Command::Load { side, .. } => match load_text(alloc, side) {
            Ok(text) => Input::Whole(text.into_vec()),
            Err(NoMemory) => Input::NoMemory,
        },
    }
}

/// What comes of the bytes that a command works on.
fn prepared(alloc: Global, command: Command, bytes: Vec<u8>) -> Prepared
    requires short { length bytes.items ≤ most_bytes command }
    requires bounded { IsBounded command }
    ensures { IsPrepared command bytes.items result }
{
    match command {
        Command::Check => Prepared::Done(check_text(alloc, bytes.as_slice())),
        Command::Run {
            events,
            brief,
            workers,
        } => run_text(alloc, bytes, events, Form::of(brief), workers),
        Command::Load {
            events,
            workers,
            ..
        } => run_text(alloc, bytes, events, Form::Summed, workers),
        Command::Replay => Prepared::Done(replay_text(alloc, bytes.as_slice())),
    }
}

/// Reads the text where the words ask for something that reads, and does it, but for a run on several workers.
pub fn judge<S: Source>(alloc: Global, words: &Words, may_run: bool, source: &mut S) -> Prepared
    ensures judged { IsJudged (asked_of S.Source may_run words.now source.old source.new) result }
    ensures usage { IsUsage result → source.new ≡ source.old }
    ensures load { (side events workers : ℕ) → AreWordsOf may_run words.now (command.Load side events workers) → source.new ≡ source.old }
{
    let Some(command) = words.command(may_run) else {
        return Prepared::Done(Outcome::bare(alloc, Status::Usage));
    };
    if !reads_as(alloc, words, command) {
        return Prepared::Done(Outcome::bare(alloc, Status::NoMemory));
    }
    match input_of(alloc, command, source) {
        Input::Whole(bytes) => prepared(alloc, command, bytes),
        Input::TooLong => Prepared::Done(Outcome::bare(alloc, Status::TooLong)),
        Input::Failed => Prepared::Done(Outcome::bare(alloc, Status::ReadFault)),
        Input::NoMemory => Prepared::Done(Outcome::bare(alloc, Status::NoMemory)),
    }
}
