//! The books of the three ledgers, and what is left of their shares.
ghost use Rattle.std.specs.Prelude.{◌≡◌, ◌+◌, ◌<◌, ◌≤◌, ◌^◌};
ghost use Rattle.run_counts.specs.Counted.{HasGone, HasCome};

use crate::hand::Hand;
use crate::pace::Pace;
use run_names::{Given, Paces, Run, Taken};
use std::marker::Model;
use std::sync::ledger::{Blank, Book, Share};

/// The books of the ledgers, the shares that are in no hand, and the parts that are in no pace.
#[derive(Drop)]
pub struct Books<J: Run> {
    given: Book<Given<J>>,
    taken: Book<Taken<J>>,
    paces: Book<Paces<J>>,
    gave: Share<Given<J>>,
    took: Share<Taken<J>>,
    left: Share<Paces<J>>,
}

impl<J: Run> Model for Books<J> {
    ghost use Rattle.std.specs.Prelude.{◌≡◌, ◌<◌};
    ghost use Rattle.run_counts.specs.Counted.{Booked};

    ghost Value = { Booked };

    ghost view = { λ b. record {
      given = b.given.total;
      taken = b.taken.total;
      paces = b.paces.total;
      left = b.left.parts;
      rest = record { parts = b.gave.parts; given = b.gave.amount; taken = b.took.amount };
    } };

    ghost invariant = { λ b. (b.left.amount ≡ 0) × (0 < b.left.parts) × (b.took.parts ≡ b.gave.parts) };
}

impl<J: Run> Books<J> {
    /// New ledgers.
    pub fn open(given: Blank, taken: Blank, paces: Blank) -> Books<J>
        requires names { (given.name ≡ J.given) × (taken.name ≡ J.taken) × (paces.name ≡ J.paces) }
        requires parts { (given.parts ≡ J.hands) × (taken.parts ≡ J.hands) × (paces.parts ≡ J.places) }
        requires some { 0 < J.places }
        ensures { result ≡ record { given = 0; taken = 0; paces = 0; left = J.places; rest = record { parts = J.hands; given = 0; taken = 0 } } }
    {
        let (given, gave) = given.open::<Given<J>>();
        let (taken, took) = taken.open::<Taken<J>>();
        let (paces, left) = paces.open::<Paces<J>>();
        Books {
            given,
            taken,
            paces,
            gave,
            took,
            left,
        }
    }

    /// The shares of one more hand.
    pub fn cut(&mut self) -> Hand<J>
        requires { 1 < self.old.rest.parts }
        ensures hand { result ≡ record { given = 0; taken = 0 } }
        ensures books { HasGone self.old (record { given = 0; taken = 0 }) self.new }
    {
        Hand {
            given: 0,
            taken: 0,
            gave: self.gave.split_off(1, 0),
            took: self.took.split_off(1, 0),
        }
    }

    /// The shares of a hand come back.
    pub fn merge(&mut self, hand: Hand<J>)
        ensures { HasCome self.old hand self.new }
    {
        let Hand {
            given: _,
            taken: _,
            gave,
            took,
        } = hand;
        self.gave.merge(gave);
        self.took.merge(took);
    }

    /// A job was taken.
    pub fn take(&mut self, hand: &mut Hand<J>)
        requires { self.old.taken + 1 < 2 ^ 64 }
        ensures hand { hand.new ≡ record { given = hand.old.given; taken = hand.old.taken + 1 } }
        ensures books { self.new ≡ record self.old { taken = self.old.taken + 1 } }
    {
        self.taken.audit(&mut hand.took);
        self.taken.add(&mut hand.took, 1);
        hand.taken += 1;
    }

    /// A job was given.
    pub fn give(&mut self, hand: &mut Hand<J>)
        requires { self.old.given + 1 < 2 ^ 64 }
        ensures hand { hand.new ≡ record { given = hand.old.given + 1; taken = hand.old.taken } }
        ensures books { self.new ≡ record self.old { given = self.old.given + 1 } }
    {
        self.given.audit(&mut hand.gave);
        self.given.add(&mut hand.gave, 1);
        hand.given += 1;
    }

    /// A new pace, of 1.
    pub fn fresh(&mut self) -> Pace<J>
        requires left { 1 < self.old.left }
        ensures pace { result ≡ 1 }
        ensures paces { self.new.paces ≡ self.old.paces + 1 }
        ensures left { self.new.left + 1 ≡ self.old.left }
        ensures others { (self.new.given ≡ self.old.given) × (self.new.taken ≡ self.old.taken) × (self.new.rest ≡ self.old.rest) }
    {
        self.paces.add(&mut self.left, 1);
        Pace {
            count: 1,
            share: self.left.split_off(1, 1),
        }
    }

    /// A pace is set to 0.
    pub fn spend(&mut self, pace: &mut Pace<J>)
        ensures pace { pace.new ≡ 0 }
        ensures paces { self.new.paces + pace.old ≡ self.old.paces }
        ensures totals { (self.new.given ≡ self.old.given) × (self.new.taken ≡ self.old.taken) }
        ensures others { (self.new.left ≡ self.old.left) × (self.new.rest ≡ self.old.rest) }
    {
        self.paces.sub(&mut pace.share, pace.count);
        pace.count = 0;
    }

    /// A pace is set to 1.
    pub fn renew(&mut self, pace: &mut Pace<J>)
        ensures pace { pace.new ≡ 1 }
        ensures paces { self.new.paces + pace.old ≡ self.old.paces + 1 }
        ensures totals { (self.new.given ≡ self.old.given) × (self.new.taken ≡ self.old.taken) }
        ensures others { (self.new.left ≡ self.old.left) × (self.new.rest ≡ self.old.rest) }
    {
        self.paces.sub(&mut pace.share, pace.count);
        self.paces.add(&mut pace.share, 1);
        pace.count = 1;
    }

    /// The pace of a task that has ended.
    pub fn back(&mut self, pace: Pace<J>)
        ensures paces { self.new.paces + pace ≡ self.old.paces }
        ensures left { self.new.left ≡ self.old.left + 1 }
        ensures others { (self.new.given ≡ self.old.given) × (self.new.taken ≡ self.old.taken) × (self.new.rest ≡ self.old.rest) }
    {
        let Pace { count, mut share } = pace;
        self.paces.sub(&mut share, count);
        self.left.merge(share);
    }

    /// Where no share is in a hand, the totals are what is left.
    pub fn audit(&mut self)
        requires { self.old.rest.parts ≡ J.hands }
        ensures same { self.new ≡ self.old }
        ensures totals { (self.old.given ≡ self.old.rest.given) × (self.old.taken ≡ self.old.rest.taken) }
    {
        self.given.audit(&mut self.gave);
        self.taken.audit(&mut self.took);
    }
}
