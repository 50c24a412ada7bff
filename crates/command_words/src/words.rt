//! The words of the command line.
ghost use Rattle.std.specs.Prelude.{◌≡◌, ◌≢◌, ℕ, Bool, true, [], ◌∷◌, ◌++◌, map, string_bytes, MatchOption, None, OnOk, OnErr};
ghost use Rattle.command_words.specs.Asking.{AreOptions, AreOptionsOfLoad, Commands};
ghost use Rattle.command_words.specs.declared.words.Command.TheVariants as command;

use crate::options::{Kind, behind, options};
use fut_base::list::NoMemory;
use std::alloc::Global;
use std::marker::Model;

/// The words after the program's name. Contracts see the list of their bytes.
#[derive(Drop)]
pub struct Words {
    all: Vec<String>,
    alloc: Global,
}

impl Model for Words {
    ghost use Rattle.std.specs.Prelude.{ℕ, List, map, string_bytes};

    ghost Value = { List (List ℕ) };

    ghost view = { λ w. map string_bytes w.all.items };
}

impl Words {
    /// No words. It takes no memory.
    pub fn make(alloc: Global) -> Words
        ensures { result ≡ [] }
    {
        Words {
            all: Vec::new(alloc),
            alloc,
        }
    }

    /// Adds a word at the end.
    pub fn push(&mut self, word: &str) -> Result<(), NoMemory>
        ensures ok { OnOk result (self.new ≡ self.old ++ word.now ∷ []) }
        ensures err { OnErr result (self.new ≡ self.old) }
    {
        let copy = String::from_str(self.alloc, word)?;
        self.all.push(copy)?;
        Ok(())
    }

    /// The words in order.
    pub fn as_slice(&self) -> &[String]
        ensures { map string_bytes result.now ≡ self.now }
    {
        self.all.as_slice()
    }

    /// What the words ask for, if they have a form that is known: `check`, `replay`, or a run, `serial`, `run` or `load`, with its
    /// options behind it. Runs on workers are asked for where they are made.
    pub fn command(&self, may_run: bool) -> Option<Command>
        ensures { Commands may_run self.now result }
    {
        command_of(self.all.as_slice(), may_run)
    }
}

/// What words ask for.
#[derive(Clone, Copy, PartialEq, Eq)]
pub enum Command {
    /// A run of at most so many entries on so many workers, of which the brief text is due or the whole record. On one worker it
    /// is the serial run.
    Run {
        events: u32,
        brief: bool,
        workers: u32,
    },
    /// A run of at most so many entries on so many workers, of the program that fills a grid of this side with futures. The brief
    /// text with its sum is due.
    Load {
        side: u32,
        events: u32,
        workers: u32,
    },
    /// A record is checked against its program.
    Replay,
    Check,
}

/// What these words ask for.
fn command_of(words: &[String], may_run: bool) -> Option<Command>
    ensures { Commands may_run (map string_bytes words.now) result }
{
    if let Some(rest) = behind(words, "check") {
        return alone(rest, Command::Check);
    }
    if let Some(rest) = behind(words, "replay") {
        return alone(rest, Command::Replay);
    }
    if let Some(rest) = behind(words, "serial") {
        return run_of(rest, Kind::Serial);
    }
    if !may_run {
        return None;
    }
    if let Some(rest) = behind(words, "load") {
        return load_of(rest);
    }
    let rest = behind(words, "run")?;
    run_of(rest, Kind::Run)
}

/// The command, where no word follows.
fn alone(rest: &[String], command: Command) -> Option<Command>
    ensures { MatchOption result (map string_bytes rest.now ≢ []) (λ c. (c ≡ command) × (map string_bytes rest.now ≡ [])) }
{
    if rest.is_empty() { Some(command) } else { None }
}

/// The run with these options, those of `serial` or of `run`.
fn run_of(rest: &[String], kind: Kind) -> Option<Command>
    ensures { MatchOption result
        ((events : ℕ) (brief : Bool) (crew : ℕ) → AreOptions kind (map string_bytes rest.now) events brief crew None → ⊥)
        (λ c. (events : ℕ) × (brief : Bool) × (crew : ℕ) × (c ≡ command.Run events brief crew) × AreOptions kind (map string_bytes rest.now) events brief crew None) }
{
    let seen = options(rest, kind)?;
    match seen.side {
        None => Some(Command::Run {
            events: seen.bound,
            brief: seen.brief,
            workers: seen.crew,
        }),
        Some(_) => None,
    }
}

/// The run of the grid with these options, among which its side is.
fn load_of(rest: &[String]) -> Option<Command>
    ensures { MatchOption result
        ((side events crew : ℕ) → AreOptionsOfLoad (map string_bytes rest.now) side events crew → ⊥)
        (λ c. (side : ℕ) × (events : ℕ) × (crew : ℕ) × (c ≡ command.Load side events crew) × AreOptionsOfLoad (map string_bytes rest.now) side events crew) }
{
    let seen = options(rest, Kind::Load)?;
    let side = seen.side?;
    Some(Command::Load {
        side,
        events: seen.bound,
        workers: seen.crew,
    })
}
