//! The search for the first fault.
ghost use Rattle.std.specs.Prelude.{◌≡◌, ◌+◌, ◌≤◌, ◌<◌, ◌^◌, IfSome, IsSome, IsTrue, [], ◌∷◌, None};
ghost use Rattle.fut_rules.specs.Faults.{broken, fault_if, Walked};

use crate::fault::{Fault, Rule};
use std::marker::Model;

/// A walk over the tokens of a program that keeps the first of the faults that it met.
#[derive(Drop)]
pub struct Search {
    at: usize,
    end: usize,
    found: Option<Fault>,
}

impl Model for Search {
    ghost use Rattle.fut_rules.specs.Faults.{Searched};

    ghost Value = { Searched };

    ghost use Rattle.std.specs.Prelude.{◌<◌, ◌≤◌, ◌^◌, IfSome};

    ghost view = { λ s. record { at = s.at; end = s.end; found = s.found } };

    ghost invariant = { λ s. (s.at ≤ s.end) × (s.end < 2 ^ 62) × IfSome s.found (λ f. f.token < s.end) };
}

impl Search {
    /// Before the first of so many tokens.
    pub fn start(end: usize) -> Search
        requires { end < 2 ^ 62 }
        ensures { result ≡ record { at = 0; end = end; found = None } }
    {
        Search {
            at: 0,
            end,
            found: None,
        }
    }

    /// The number of the next token.
    pub fn at(&self) -> usize
        ensures value { result ≡ self.now.at }
        ensures small { self.now.end < 2 ^ 62 }
    {
        self.at
    }

    /// The first fault of those that were met.
    pub fn found(&self) -> Option<Fault>
        ensures value { result ≡ self.now.found }
        ensures within { IfSome result (λ f. f.token < self.now.end) }
    {
        self.found
    }

    /// Goes over some tokens.
    pub fn skip(&mut self, tokens: usize)
        requires { self.old.at + tokens ≤ self.old.end }
        ensures { Walked self.old self.new tokens [] }
    {
        self.at += tokens;
    }

    /// Meets a fault.
    fn meet(&mut self, fault: Fault)
        requires { fault.token < self.old.end }
        ensures { Walked self.old self.new 0 (fault ∷ []) }
    {
        self.found = match self.found {
            Some(found) => {
                if fault.is_before(found) {
                    Some(fault)
                } else {
                    Some(found)
                }
            }
            None => Some(fault),
        };
    }

    /// Meets the fault of a rule that is broken at a token, if one is.
    pub fn note(&mut self, rule: Option<Rule>, token: usize)
        requires { IsSome rule → token < self.old.end }
        ensures { Walked self.old self.new 0 (broken rule token) }
    {
        match rule {
            Some(rule) => self.meet(Fault { token, rule }),
            None => {}
        }
    }

    /// Meets the fault of a rule at a token, where a test finds it.
    pub fn note_if(&mut self, found: bool, token: usize, rule: Rule)
        requires { IsTrue found → token < self.old.end }
        ensures { Walked self.old self.new 0 (fault_if found token rule) }
    {
        if found {
            self.meet(Fault { token, rule });
        }
    }

    /// Meets the fault of a rule at the token before which so many others stand from here, where a test finds it.
    pub fn note_ahead(&mut self, found: bool, ahead: usize, rule: Rule)
        requires { IsTrue found → self.old.at + ahead < self.old.end }
        ensures { Walked self.old self.new 0 (fault_if found (self.old.at + ahead) rule) }
    {
        if found {
            self.meet(Fault {
                token: self.at + ahead,
                rule,
            });
        }
    }
}
