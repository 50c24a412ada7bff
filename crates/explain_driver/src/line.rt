//! The command line of the process.
ghost use Rattle.std.specs.Vec.Iter.{into_iter_items};
ghost use Rattle.explain_driver.specs.Process.{IsBehindName, IsLineOf};

use std::env::Args;
use std::io;

/// What stands behind the program's name.
#[derive(Clone, Copy, Debug, PartialEq, Eq)]
pub enum Line {
    /// Nothing.
    Bare,
    /// Some words, or what are no words, since one of them is not UTF-8.
    Words,
    /// There was no memory for the words.
    NoMemory,
}

/// What stands behind the program's name in what was given for the command line. The first word is the name.
pub fn line_of(given: io::Result<Args>) -> Line
    ensures { IsLineOf given result }
{
    match given {
        Ok(args) => behind_name(args),
        Err(error) => match error.kind() {
            io::ErrorKind::OutOfMemory => Line::NoMemory,
            _ => Line::Words,
        },
    }
}

/// Whether words stand behind the first.
fn behind_name(args: Args) -> Line
    ensures { IsBehindName (into_iter_items args) result }
{
    let mut left = args;
    let _name = left.next();
    match left.next() {
        None => Line::Bare,
        Some(_) => Line::Words,
    }
}
