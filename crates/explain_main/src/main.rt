//! The program `explain`: it tells the first fault of the program text on standard input, in words.
//!
//! `carry_out` of the crate `explain_driver` does all of it. Its contract is the theorem.
#![tactic(auto)]

ghost use Rattle.std.specs.Process.{exit_status};
ghost use Rattle.explain_driver.specs.declared.line.Line.{Line};
ghost use Rattle.explain_driver.specs.Answers.{Asked, Told, asked_of, told_of};
ghost use Rattle.explain_driver.specs.Process.{EndsWith};

use explain_driver::process::carry_out;
use fut_base::ports::{Sink, Source};
use fut_base::standard::{StdSink, StdSource};
use std::env;
use std::env::Env;
use std::process::ExitCode;

/// Tells of the text that this source gives, where the process has no words, over this sink. Whether it has some the outside decides.
fn answer<R: Env + AllocGlobal, S: Source, K: Sink>(rt: &R, source: &mut S, out: &mut K) -> ExitCode
    ensures { (line : Line) × EndsWith line
        (asked_of S.Source source.old source.new)
        (told_of K.Sink out.old out.new)
        (exit_status result) }
{
    carry_out(rt.alloc(), env::args(rt), source, out)
}

fn main(rt: HostRuntime) -> ExitCode {
    let mut source = StdSource::make(rt.stdin());
    let mut out = StdSink::make(rt.stdout());
    answer(&rt, &mut source, &mut out)
}
