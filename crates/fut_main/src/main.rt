//! The program `forder`: it runs a program of the task language, and reports its determinacy races; or checks the record of
//! such a run.
//!
//! `carry_out` of the crate `fut_driver` does all of it, and `forder` of that crate is the call that it makes. Their contracts are
//! the theorem.
#![tactic(auto)]

ghost use Rattle.std.specs.Prelude.{true};
ghost use Rattle.std.specs.Process.{exit_status};
ghost use Rattle.fut_driver.specs.declared.line.CommandLine.{CommandLine};
ghost use Rattle.fut_driver.specs.Given.{Asked, Told, asked_of, told_of};
ghost use Rattle.fut_driver.specs.Process.{EndsWith};

use fut_base::gate::FreeGate;
use fut_base::ports::{Sink, Source};
use fut_base::standard::{StdSink, StdSource};
use fut_driver::process::carry_out;
use std::env;
use std::env::Env;
use std::process::ExitCode;
use std::sync::Wait;
use std::thread::Threads;

/// Does what the process's words ask for, over this source and this sink. Which words those are the outside decides.
fn answer<R: Env + AllocGlobal + Threads + Wait + Sync, S: Source, K: Sink>(
    rt: &R,
    source: &mut S,
    out: &mut K,
) -> ExitCode
    ensures { (line : CommandLine) × EndsWith line
        (λ words. asked_of S.Source true words source.old source.new)
        (told_of K.Sink out.old out.new)
        (exit_status result) }
{
    carry_out(rt, rt.alloc(), env::args(rt), source, out, &FreeGate)
}

fn main(rt: HostRuntime) -> ExitCode {
    let mut source = StdSource::make(rt.stdin());
    let mut out = StdSink::make(rt.stdout());
    answer(&rt, &mut source, &mut out)
}
