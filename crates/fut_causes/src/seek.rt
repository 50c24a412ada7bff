//! The search for the cause of a fault.
ghost use Rattle.std.specs.Prelude.{◌≡◌, ◌+◌, ◌≤◌, ◌<◌, ◌^◌, IsSome, [], None, Some, length};
ghost use Rattle.fut_causes.specs.Causes.{caused, mismatch};
ghost use Rattle.fut_causes.specs.Seeking.{Sought, is_place};

use crate::cause::Cause;
use fut_rules::fault::Rule;
use fut_rules::kind::{Kind, Need};
use fut_tokens::token::Position;
use std::marker::Model;

/// What is sought: the cause of the rule of a number at a place, where these are the places of a program's tokens.
#[derive(Clone, Copy)]
pub struct Wanted<'a> {
    pub places: &'a [Position],
    pub place: Position,
    pub number: u32,
}

/// A walk over the tokens of a program that keeps the first cause that is wanted.
#[derive(Drop)]
pub struct Seek<'a> {
    at: usize,
    end: usize,
    wanted: Wanted<'a>,
    found: Option<Cause>,
}

impl<'a> Model for Seek<'a> {
    ghost use Rattle.fut_causes.specs.Seeking.{Seeking};

    ghost Value = { Seeking };

    ghost use Rattle.std.specs.Prelude.{◌≡◌, ◌<◌, ◌≤◌, ◌^◌, length};

    ghost view = { λ s. record { at = s.at; end = s.end; wanted = s.wanted; found = s.found } };

    ghost invariant = { λ s. (s.at ≤ s.end) × (s.end < 2 ^ 62) × (s.end ≡ length s.wanted.places.now) };
}

/// Whether a place is this one.
fn is_place(found: Position, place: Position) -> bool
    ensures { result ≡ is_place (Some found) place }
{
    found.line == place.line && found.column == place.column
}

impl<'a> Seek<'a> {
    /// Before the first token.
    pub fn start(wanted: Wanted<'a>) -> Seek<'a>
        requires { length wanted.places.now < 2 ^ 62 }
        ensures { result ≡ record { at = 0; end = length wanted.entry.places.now; wanted = wanted.entry; found = None } }
    {
        Seek {
            at: 0,
            end: wanted.places.len(),
            wanted,
            found: None,
        }
    }

    /// The number of the next token.
    pub fn at(&self) -> usize
        ensures value { result ≡ self.now.at }
        ensures small { self.now.end < 2 ^ 62 }
    {
        self.at
    }

    /// The first wanted cause of those that were met.
    pub fn found(&self) -> Option<Cause>
        ensures { result ≡ self.now.found }
    {
        self.found
    }

    /// Goes over some tokens.
    pub fn skip(&mut self, tokens: usize)
        requires { self.old.at + tokens ≤ self.old.end }
        ensures { Sought self.old self.new tokens [] }
    {
        self.at += tokens;
    }

    /// Meets a rule that is broken at a token, if one is.
    pub fn note(&mut self, rule: Option<Rule>, token: usize, cause: Cause)
        requires { IsSome rule → token < self.old.end }
        ensures { Sought self.old self.new 0 (caused rule token cause) }
    {
        match rule {
            Some(rule) => self.meet(rule, token, cause),
            None => {}
        }
    }

    /// Meets what stands at a token, in a place with a need.
    pub fn need(&mut self, need: Option<Need>, given: Option<Kind>, token: usize)
        requires { token < self.old.end }
        ensures { Sought self.old self.new 0 (mismatch need given token) }
    {
        match (need, given) {
            (Some(due), Some(found)) => {
                self.note(due.rule(found), token, Cause::Types { due, found });
            }
            (Some(_), None) | (None, _) => {}
        }
    }

    /// Meets a broken rule.
    fn meet(&mut self, rule: Rule, token: usize, cause: Cause)
        requires { token < self.old.end }
        ensures { Sought self.old self.new 0 (caused (Some rule) token cause) }
    {
        match self.found {
            Some(_) => {}
            None => {
                let Wanted {
                    places,
                    place,
                    number,
                } = self.wanted;
                if is_place(places[token], place) && rule.number() == number {
                    self.found = Some(cause);
                }
            }
        }
    }
}
