//! Reads numbers without a sign. Each is decimal without leading zeros, and has a greatest value.
ghost use Rattle.std.specs.Prelude.{◌≡◌, ◌++◌, ◌∷◌, [], ◌≤◌, decimal, true};
ghost use Rattle.run_record.specs.declared.digits.Kind.TheVariants as kind;
ghost use Rattle.run_record.specs.Machine.{Number, Byte, due, bound};
ghost use Rattle.run_record.specs.Records.{IsNumber};
ghost use Rattle.run_record.specs.Steps.{Grew, ReadNumber, ReadCount, Read, same, with_word, as_line, is_count};
ghost use Rattle.run_record.specs.Machine.{numbered_due, word_due};

use crate::bounds::MOST_RACES;
use crate::cursor::{Cursor, Stop, expect};
use fut_base::limits::{MOST_ENTRIES, MOST_PROGRAM_BYTES};

/// What a number is, by which it has its greatest value.
#[derive(Clone, Copy, Debug, PartialEq, Eq)]
pub enum Kind {
    /// A number of a cell, a task, a strand, an entry or a future.
    Plain,
    /// The digits of a value that has no sign.
    Positive,
    /// The digits of a value behind its sign.
    Negative,
    /// How many bytes the program has.
    Bytes,
    Entries,
    Races,
}

impl Kind {
    /// The greatest number.
    fn most(self) -> u64
        ensures { result ≡ bound self }
    {
        match self {
            Kind::Plain => u32::MAX as u64,
            Kind::Positive => i64::MAX as u64,
            Kind::Negative => i64::MAX as u64 + 1,
            Kind::Bytes => MOST_PROGRAM_BYTES as u64,
            Kind::Entries => MOST_ENTRIES as u64,
            Kind::Races => MOST_RACES as u64,
        }
    }
}

/// Goes on with a number as long as digits stand there with which it is not too large. Behind a 0 there are none.
pub fn grow(cursor: &mut Cursor<'_>, kind: Kind, first: u64) -> u64
    requires { first ≤ bound kind }
    ensures { Grew kind first cursor.old result cursor.new }
{
    let most = kind.most();
    let mut number = first;
    loop {
        let Some(byte) = cursor.peek() else {
            return number;
        };
        if number == 0 || byte < b'0' || byte > b'9' {
            return number;
        }
        let digit = (byte - b'0') as u64;
        if number > (most - digit) / 10 {
            return number;
        }
        number = number * 10 + digit;
        cursor.bump();
    }
}

/// A number, of which all digits are taken with which it is not too large.
pub fn number(cursor: &mut Cursor<'_>, kind: Kind) -> Result<u64, Stop>
    ensures { ReadNumber kind cursor.old cursor.new result }
{
    let Some(byte) = cursor.peek() else {
        return Err(Stop::Fault);
    };
    if byte < b'0' || byte > b'9' {
        return Err(Stop::Fault);
    }
    cursor.bump();
    Ok(grow(cursor, kind, (byte - b'0') as u64))
}

/// A number that has no meaning for what follows. A byte stands behind it.
pub fn plain(cursor: &mut Cursor<'_>) -> Result<u32, Stop>
    ensures { Read (Number kind.Plain ∷ []) decimal IsNumber same cursor.old cursor.new result }
{
    let number = number(cursor, Kind::Plain)?;
    match cursor.peek() {
        Some(_) => Ok(number as u32),
        None => Err(Stop::Fault),
    }
}

/// How many bytes, entries or races come, to the end of the line.
pub fn count(cursor: &mut Cursor<'_>, kind: Kind) -> Result<usize, Stop>
    requires { is_count kind ≡ true }
    ensures { ReadCount kind cursor.old cursor.new result }
{
    let number = number(cursor, kind)?;
    let Some(byte) = cursor.peek() else {
        return Err(Stop::Fault);
    };
    if byte != b'\n' {
        return Err(Stop::Fault);
    }
    cursor.bump();
    Ok(number as usize)
}

/// A number behind these bytes.
pub fn after(cursor: &mut Cursor<'_>, word: &[u8]) -> Result<u32, Stop>
    ensures { Read (word_due word.now) (with_word word.now) IsNumber same cursor.old cursor.new result }
{
    expect(cursor, word)?;
    plain(cursor)
}

/// A number behind these bytes, and the end of the line.
pub fn line(cursor: &mut Cursor<'_>, word: &[u8]) -> Result<u32, Stop>
    ensures { Read (numbered_due word.now) (as_line word.now) IsNumber same cursor.old cursor.new result }
{
    let number = after(cursor, word)?;
    expect(cursor, b"\n")?;
    Ok(number)
}
