//! The tokens that are left to be read.
ghost use Rattle.std.specs.Prelude.{◌≡◌, ◌∷◌, [], true, false, length};
ghost use Rattle.fut_syntax.specs.Steps.{behind, front, is_end};
ghost use Rattle.fut_tokens.specs.Ended.{IsEnded};

use fut_tokens::token::Token;
use std::alloc::{AllocError, AllocFailed};
use std::marker::Model;

/// Why reading stopped.
#[derive(Debug, Clone, Copy)]
pub enum Stop {
    /// The token in view is the fault.
    Fault,
    NoMemory,
}

impl From<AllocError> for Stop {
    ghost use Rattle.std.specs.Prelude.{◌≡◌};
    ghost use Rattle.fut_syntax.specs.declared.cursor.Stop.TheVariants.{NoMemory};

    ghost from_gives = { λ _ e. e ≡ NoMemory };

    fn from(_error: AllocError) -> Stop {
        Stop::NoMemory
    }
}

impl<T: Drop> From<AllocFailed<T>> for Stop {
    ghost use Rattle.std.specs.Prelude.{◌≡◌};
    ghost use Rattle.fut_syntax.specs.declared.cursor.Stop.TheVariants.{NoMemory};

    ghost from_gives = { λ _ e. e ≡ NoMemory };

    fn from(_error: AllocFailed<T>) -> Stop {
        Stop::NoMemory
    }
}

/// The tokens that are left, the end token last. One is in view.
#[derive(Drop)]
pub struct Cursor {
    tokens: Vec<Token>,
    at: usize,
}

impl Model for Cursor {
    ghost use Rattle.std.specs.Prelude.{List, drop};
    ghost use Rattle.fut_tokens.specs.Ended.{IsEnded};
    ghost use Rattle.fut_tokens.specs.declared.token.Token.{Token};

    ghost Value = { List Token };

    ghost view = { λ c. drop c.at c.tokens.items };

    ghost invariant = { λ c. IsEnded (drop c.at c.tokens.items) };
}

impl Cursor {
    /// All tokens are left.
    pub fn new(tokens: Vec<Token>) -> Cursor
        requires { IsEnded tokens.items }
        ensures { result ≡ tokens.items }
    {
        Cursor { tokens, at: 0 }
    }

    /// How many tokens stand behind the one in view.
    pub fn behind(&self) -> usize
        ensures count { result ≡ length (behind self.now) }
        ensures one { self.now ≡ front self.now ∷ behind self.now }
    {
        self.tokens.len() - self.at - 1
    }

    /// The token in view.
    pub fn peek(&self) -> &Token
        ensures front { self.now ≡ result.now ∷ behind self.now }
        ensures last { is_end result.now ≡ true → behind self.now ≡ [] }
    {
        &self.tokens[self.at]
    }

    /// Takes the token in view, which isn't the end token.
    pub fn bump(&mut self)
        requires { is_end (front self.old) ≡ false }
        ensures { self.new ≡ behind self.old }
    {
        self.at += 1;
    }
}
