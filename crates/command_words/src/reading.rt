//! The words as `clap` reads them.
ghost use Rattle.std.specs.Prelude.{◌≡◌};

use crate::words::{Command, Words};
use clap::{Arg, ArgAction, ArgMatches, Command as App, Error};
use std::alloc::Global;

/// Whether `clap` reads the same command. It does not where memory is wanting.
pub fn reads_as(alloc: Global, words: &Words, command: Command) -> bool {
    match read(alloc, words.as_slice()) {
        Ok(Some(found)) => found == command,
        Ok(None) => false,
        Err(_) => false,
    }
}

/// The command that `clap` finds in the words.
fn read(alloc: Global, words: &[String]) -> Result<Option<Command>, Error> {
    let app = app(alloc)?;
    let matches = app.try_get_matches_from(words)?;
    let Some((name, given)) = matches.subcommand() else {
        return Ok(None);
    };
    if name == "check" {
        return Ok(Some(Command::Check));
    }
    if name == "replay" {
        return Ok(Some(Command::Replay));
    }
    if name == "load" {
        return Ok(load_of(given));
    }
    Ok(run_of(given))
}

/// A run with the options that were found.
fn run_of(given: &ArgMatches<'_>) -> Option<Command> {
    let brief = given.get_flag("brief");
    let events = number_of(given, "events")?;
    let workers = workers_of(given)?;
    Some(Command::Run {
        events,
        brief,
        workers,
    })
}

/// A run of the grid with the options that were found.
fn load_of(given: &ArgMatches<'_>) -> Option<Command> {
    let side = number_of(given, "side")?;
    let events = number_of(given, "events")?;
    let workers = number_of(given, "workers")?;
    Some(Command::Load {
        side,
        events,
        workers,
    })
}

/// The number of workers of a run that was found: one where it is serial.
fn workers_of(given: &ArgMatches<'_>) -> Option<u32> {
    if given.contains_id("workers") {
        number_of(given, "workers")
    } else {
        Some(1)
    }
}

/// A number that was found.
fn number_of(given: &ArgMatches<'_>, name: &str) -> Option<u32> {
    match given.get_str(name)?.parse::<u32>() {
        Ok(number) => Some(number),
        Err(_) => None,
    }
}

/// One command with one level of subcommands.
fn app<'a>(alloc: Global) -> Result<App<'a>, Error> {
    let serial = App::new(alloc, "serial")
        .arg(events(alloc))?
        .arg(brief(alloc))?;
    let run = App::new(alloc, "run")
        .arg(events(alloc))?
        .arg(brief(alloc))?
        .arg(workers(alloc))?;
    let load = App::new(alloc, "load")
        .arg(side(alloc))?
        .arg(events(alloc))?
        .arg(workers(alloc))?;
    let app = App::new(alloc, "forder")
        .no_binary_name(true)
        .subcommand(App::new(alloc, "check"))?
        .subcommand(App::new(alloc, "replay"))?
        .subcommand(serial)?
        .subcommand(run)?
        .subcommand(load)?;
    Ok(app)
}

/// The greatest number of entries of a run.
fn events<'a>(alloc: Global) -> Arg<'a> {
    Arg::new(alloc, "events")
        .long("events")
        .action(ArgAction::Set)
        .default_value("100000")
}

/// That the brief text of a run is due.
fn brief<'a>(alloc: Global) -> Arg<'a> {
    Arg::new(alloc, "brief")
        .long("brief")
        .action(ArgAction::SetTrue)
}

/// The side of the grid, a number alone.
fn side<'a>(alloc: Global) -> Arg<'a> {
    Arg::new(alloc, "side")
        .required(true)
        .action(ArgAction::Set)
}

/// The option of a run on workers.
fn workers<'a>(alloc: Global) -> Arg<'a> {
    Arg::new(alloc, "workers")
        .long("workers")
        .action(ArgAction::Set)
        .default_value("4")
}
