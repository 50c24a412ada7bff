//! The bytes that are left to be read.
ghost use Rattle.std.specs.Prelude.{◌≡◌, ◌≢◌, [], length, MatchOption};
ghost use Rattle.run_record.specs.Steps.{Took, TookBytes, front, behind};

use fut_base::list::NoMemory;
use std::alloc::{AllocError, AllocFailed};
use std::marker::Model;

/// Why reading stopped.
#[derive(Debug, Clone, Copy, PartialEq, Eq)]
pub enum Stop {
    /// The first byte that is left can't come, or none is left and one is due.
    Fault,
    NoMemory,
}

impl From<AllocError> for Stop {
    ghost use Rattle.std.specs.Prelude.{◌≡◌};
    ghost use Rattle.run_record.specs.declared.cursor.Stop.TheVariants.{NoMemory};

    ghost from_gives = { λ _ e. e ≡ NoMemory };

    fn from(_error: AllocError) -> Stop {
        Stop::NoMemory
    }
}

impl From<NoMemory> for Stop {
    ghost use Rattle.std.specs.Prelude.{◌≡◌};
    ghost use Rattle.run_record.specs.declared.cursor.Stop.TheVariants.{NoMemory as none};

    ghost from_gives = { λ _ e. e ≡ none };

    fn from(_error: NoMemory) -> Stop {
        Stop::NoMemory
    }
}

/// The bytes that are left. Contracts see their list.
#[derive(Drop)]
pub struct Cursor<'a> {
    left: &'a [u8],
}

impl<'a> Model for Cursor<'a> {
    ghost use Rattle.std.specs.Prelude.{ℕ, List};

    ghost Value = { List ℕ };

    ghost view = { λ c. c.left.now };
}

impl<'a> Cursor<'a> {
    /// All these bytes are left.
    pub fn new(bytes: &'a [u8]) -> Cursor<'a>
        ensures { result ≡ bytes.now }
    {
        Cursor { left: bytes }
    }

    /// How many bytes are left.
    pub fn count(&self) -> usize
        ensures { result ≡ length self.now }
    {
        self.left.len()
    }

    /// The first byte that is left.
    pub fn peek(&self) -> Option<u8>
        ensures { result ≡ front self.now }
    {
        self.left.first().copied()
    }

    /// Takes a byte, of which one is left.
    pub fn bump(&mut self)
        requires { self.old ≢ [] }
        ensures { self.new ≡ behind self.old }
    {
        self.left = &self.left[1..];
    }

    /// Takes so many bytes, whatever they are.
    pub fn take(&mut self, count: usize) -> Result<&'a [u8], Stop>
        ensures { TookBytes count self.old self.new result }
    {
        if count > self.left.len() {
            self.left = &[];
            return Err(Stop::Fault);
        }
        let (taken, left) = self.left.split_at(count);
        self.left = left;
        Ok(taken)
    }
}

/// Takes these bytes.
pub fn expect(cursor: &mut Cursor<'_>, text: &[u8]) -> Result<(), Stop>
    ensures { Took text.now cursor.old cursor.new result }
{
    for due in text {
        match cursor.peek() {
            Some(byte) if byte == *due => cursor.bump(),
            _ => return Err(Stop::Fault),
        }
    }
    Ok(())
}
