//! How many jobs there are.
ghost use Rattle.std.specs.Prelude.{◌≡◌, ◌+◌, ◌<◌, ◌≤◌, ◌^◌};
ghost use Rattle.run_counts.specs.Counted.{HasCut, HasGathered};
ghost use Rattle.run_counts.specs.Moves.{forked, gone_on, gone_to_wait, over, woken, turned};

use crate::books::Books;
use crate::hand::Hand;
use crate::pace::Pace;
use run_names::Run;
use std::marker::Model;
use std::sync::ledger::Blank;

/// How many events there were, how many tasks have neither ended nor wait, and how many wait; with the books of the ledgers.
#[derive(Drop)]
pub struct Counts<J: Run> {
    events: u32,
    running: u32,
    waiting: u32,
    books: Books<J>,
}

impl<J: Run> Model for Counts<J> {
    ghost use Rattle.run_counts.specs.Counted.{Counted, IsCounted};

    ghost Value = { Counted };

    ghost view = { λ c. record {
      events = c.events;
      running = c.running;
      waiting = c.waiting;
      given = c.books.given;
      taken = c.books.taken;
      rest = c.books.rest;
    } };

    ghost invariant = { λ c. IsCounted J.limits.events J.places c.events c.running c.waiting c.books };
}

impl<J: Run> Counts<J> {
    /// The counts of a run in which one task runs, and its pace.
    pub fn open(given: Blank, taken: Blank, paces: Blank) -> (Counts<J>, Pace<J>)
        requires names { (given.name ≡ J.given) × (taken.name ≡ J.taken) × (paces.name ≡ J.paces) }
        requires parts { (given.parts ≡ J.hands) × (taken.parts ≡ J.hands) × (paces.parts ≡ J.places) }
        requires bound { (J.limits.events + 1 < 2 ^ 32) × (J.limits.events + 3 ≤ J.places) }
        ensures counts { result.0 ≡ record {
          events = 0;
          running = 1;
          waiting = 0;
          given = 0;
          taken = 0;
          rest = record { parts = J.hands; given = 0; taken = 0 };
        } }
        ensures pace { result.1 ≡ 1 }
    {
        let mut books = Books::open(given, taken, paces);
        let pace = books.fresh();
        (
            Counts {
                events: 0,
                running: 1,
                waiting: 0,
                books,
            },
            pace,
        )
    }

    /// A hand for one more worker.
    pub fn hand(&mut self) -> Hand<J>
        requires { 1 < self.old.rest.parts }
        ensures hand { result ≡ record { given = 0; taken = 0 } }
        ensures counts { HasCut self.old self.new }
    {
        self.books.cut()
    }

    /// A hand comes back.
    pub fn gather(&mut self, hand: Hand<J>)
        ensures { HasGathered self.old hand self.new }
    {
        self.books.merge(hand);
    }

    /// A job makes an event, and goes on beside a new one, whose pace is the result.
    pub fn fork(&mut self, hand: &mut Hand<J>, pace: &mut Pace<J>) -> Pace<J>
        requires { self.old.events < J.limits.events }
        ensures counts { self.new ≡ forked self.old }
        ensures hand { hand.new ≡ turned 2 hand.old }
        ensures paces { (pace.new ≡ 1) × (result ≡ 1) }
    {
        self.books.take(hand);
        self.books.give(hand);
        self.books.give(hand);
        self.books.renew(pace);
        self.events += 1;
        self.running += 1;
        self.books.fresh()
    }

    /// A job makes an event, and goes on.
    pub fn go_on(&mut self, hand: &mut Hand<J>, pace: &mut Pace<J>)
        requires { self.old.events < J.limits.events }
        ensures counts { self.new ≡ gone_on self.old }
        ensures hand { hand.new ≡ turned 1 hand.old }
        ensures pace { pace.new ≡ 1 }
    {
        self.books.take(hand);
        self.books.give(hand);
        self.books.renew(pace);
        self.events += 1;
    }

    /// A job goes to wait, with no event. It keeps its pace, which is to be 1.
    pub fn wait(&mut self, hand: &mut Hand<J>)
        requires { 0 < self.old.running }
        ensures counts { self.new ≡ gone_to_wait self.old }
        ensures hand { hand.new ≡ turned 0 hand.old }
    {
        self.books.take(hand);
        self.running -= 1;
        self.waiting += 1;
    }

    /// A job makes its last event.
    pub fn end(&mut self, hand: &mut Hand<J>, pace: Pace<J>)
        requires room { self.old.events < J.limits.events }
        requires running { 0 < self.old.running }
        ensures counts { self.new ≡ over self.old }
        ensures hand { hand.new ≡ turned 0 hand.old }
    {
        self.books.back(pace);
        self.books.take(hand);
        self.events += 1;
        self.running -= 1;
    }

    /// A job that waited goes on. It may not wait again before its next event.
    pub fn wake(&mut self, hand: &mut Hand<J>, pace: &mut Pace<J>)
        requires waiting { 0 < self.old.waiting }
        requires pace { pace.old ≡ 1 }
        ensures counts { self.new ≡ woken self.old }
        ensures hand { hand.new ≡ record { given = hand.old.given + 1; taken = hand.old.taken } }
        ensures pace { pace.new ≡ 0 }
    {
        self.books.give(hand);
        self.books.spend(pace);
        self.running += 1;
        self.waiting -= 1;
    }

    /// How many tasks have neither ended nor wait.
    pub fn running(&self) -> u32
        ensures { result ≡ self.now.running }
    {
        self.running
    }

    /// How many tasks have not ended.
    pub fn unended(&self) -> u32
        ensures { result ≡ self.now.running + self.now.waiting }
    {
        self.running + self.waiting
    }

    /// How many jobs there are, where all hands came back: one more than the hands were given, less what was taken from them.
    pub fn finish(&mut self) -> u32
        requires { self.old.rest.parts ≡ J.hands }
        ensures same { self.new ≡ self.old }
        ensures running { result ≡ self.old.running }
        ensures jobs { result + self.old.rest.taken ≡ 1 + self.old.rest.given }
    {
        self.books.audit();
        self.running
    }
}
