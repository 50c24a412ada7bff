//! The command line of the process.
ghost use Rattle.std.specs.Prelude.{◌≡◌, IfOk, drop, map, string_bytes};
ghost use Rattle.std.specs.Vec.Iter.{into_iter_items};
ghost use Rattle.fut_driver.specs.Process.{IsLineOf};

use command_words::words::Words;
use fut_base::list::NoMemory;
use std::alloc::Global;
use std::env::Args;
use std::io;

/// The words after the program's name.
#[derive(Drop)]
pub enum CommandLine {
    Words(Words),
    /// They are no words, since one of them is not UTF-8.
    Foreign,
    NoMemory,
}

/// The words without the first.
fn behind_name(alloc: Global, args: Args) -> Result<Words, NoMemory>
    ensures { IfOk result (λ words. words ≡ map string_bytes (drop 1 (into_iter_items args))) }
{
    let mut left = args;
    let _name = left.next();
    let mut words = Words::make(alloc);
    while let Some(word) = left.next() {
        words.push(word.as_str())?;
    }
    Ok(words)
}

/// The command line in what was given for it. The first word is the program's name.
pub fn line_of(alloc: Global, given: io::Result<Args>) -> CommandLine
    ensures { IsLineOf given result }
{
    match given {
        Ok(args) => match behind_name(alloc, args) {
            Ok(words) => CommandLine::Words(words),
            Err(NoMemory) => CommandLine::NoMemory,
        },
        Err(error) => match error.kind() {
            io::ErrorKind::OutOfMemory => CommandLine::NoMemory,
            _ => CommandLine::Foreign,
        },
    }
}
