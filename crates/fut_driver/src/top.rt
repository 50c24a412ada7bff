//! The top calls.
ghost use Rattle.std.specs.Prelude.{◌≡◌, ℕ, true, false};
ghost use Rattle.fut_base.specs.Events.{events_of};
ghost use Rattle.fut_driver.specs.Given.{Asked, Told, asked_of, told_of};
ghost use Rattle.fut_driver.specs.Outcomes.{IsEnding};
ghost use Rattle.fut_driver.specs.Verdict.{IsAnswer, IsComplete};
ghost use Rattle.fut_driver.specs.declared.status.Status.TheVariants as status;
ghost use Rattle.command_words.specs.declared.words.Command.TheVariants as command;
ghost use Rattle.command_words.specs.Asking.{AreWordsOf};

use crate::job::{Prepared, run_on_workers};
use crate::judge::judge;
use crate::outcome::Outcome;
use crate::status::{Ended, Status};
use command_words::words::Words;
use fut_base::gate::Gate;
use fut_base::ports::{Sink, Source, Wrote};
use std::alloc::Global;
use std::sync::Wait;
use std::thread::Threads;

/// Does what the words ask for: reads a program text or a record from the source, and writes to the sink the record of the
/// program's run with the races of that run, or their brief text, or the program's canonical text, or whether the record is legal.
///
/// The words are `check`, `replay`, or `serial` or `run` with options behind it, each at most once and in any order: `--events`
/// and a number from 1 to 1,000,000, `--brief`, and for `run` `--workers` and a number from 1 to 64; or `load` with a number n from 1
/// to 64 behind it, and `--events` and `--workers`, in any order: it reads nothing, runs the program that fills an n by n grid with
/// futures, and writes the brief text of that run with the sum of the cells. For all others the answer is `Usage`, and nothing is
/// read. A run goes on 4 workers, or as many as the words say, each a thread; with one worker it is the serial
/// run, in which a child or future runs to its end before its maker goes on. It ends after 100,000 entries, or as many as the words
/// say. The history is that of the run or of the legal record, also where the sink failed while its text was written; where there is
/// neither it is empty.
pub fn forder<R: Threads + Wait + Sync, S: Source, K: Sink, G: Gate + Sync>(
    rt: &R,
    alloc: Global,
    words: &Words,
    source: &mut S,
    out: &mut K,
    gate: &G,
) -> Ended
    // The status, the history and what was written are those of a verdict whose causes hold.
    ensures answer { IsAnswer (asked_of S.Source true words.now source.old source.new) (told_of K.Sink out.old out.new) result.status
        (events_of result.history) }

    // A well-typed program that nothing hinders is printed or run.
    ensures complete { IsComplete (asked_of S.Source true words.now source.old source.new) (told_of K.Sink out.old out.new) result.status }

    // With other words nothing is read.
    ensures usage { result.status ≡ status.Usage → source.new ≡ source.old }

    // Nor with those of `load`.
    ensures load { (side events workers : ℕ) → AreWordsOf true words.now (command.Load side events workers) → source.new ≡ source.old }
{
    match judge(alloc, words, true, source) {
        Prepared::Done(outcome) => told(outcome, out),
        Prepared::Due(job) => told(run_on_workers(rt, alloc, &job, gate), out),
    }
}

/// What `forder` does for the words of `check`, `replay` and `serial`. For all others, those of `run` and `load` among them, the
/// answer is `Usage`, and nothing is read.
pub fn plain<S: Source, K: Sink>(alloc: Global, words: &Words, source: &mut S, out: &mut K) -> Ended
    // The status, the history and what was written are those of a verdict whose causes hold.
    ensures answer { IsAnswer (asked_of S.Source false words.now source.old source.new) (told_of K.Sink out.old out.new) result.status
        (events_of result.history) }

    // A well-typed program that nothing hinders is printed or run.
    ensures complete { IsComplete (asked_of S.Source false words.now source.old source.new) (told_of K.Sink out.old out.new) result.status }

    // With other words nothing is read.
    ensures usage { result.status ≡ status.Usage → source.new ≡ source.old }
{
    match judge(alloc, words, false, source) {
        Prepared::Done(outcome) => told(outcome, out),
        Prepared::Due(_) => unreachable!(),
    }
}

/// Writes the text that is due, and tells how the call ended.
fn told<K: Sink>(outcome: Outcome, out: &mut K) -> Ended
    ensures { IsEnding outcome (told_of K.Sink out.old out.new) result }
{
    match outcome.write(out) {
        Wrote::All => Ended {
            status: outcome.status,
            history: outcome.history,
        },
        Wrote::Failed => Ended {
            status: Status::WriteFault,
            history: outcome.history,
        },
    }
}
