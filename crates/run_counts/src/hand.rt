//! A worker's share of two counts.
ghost use Rattle.std.specs.Prelude.{◌≡◌};

use run_names::{Given, Run, Taken};
use std::marker::Model;
use std::sync::ledger::Share;

/// How many jobs a worker was given, and how many were taken from it. It can't be copied.
#[derive(Drop)]
pub struct Hand<J: Run> {
    pub(crate) given: u64,
    pub(crate) taken: u64,
    pub(crate) gave: Share<Given<J>>,
    pub(crate) took: Share<Taken<J>>,
}

impl<J: Run> Model for Hand<J> {
    ghost use Rattle.std.specs.Prelude.{◌≡◌};
    ghost use Rattle.run_counts.specs.Counted.{Handed};

    ghost Value = { Handed };

    ghost view = { λ h. record { given = h.given; taken = h.taken } };

    ghost invariant = { λ h. (h.gave.parts ≡ 1) × (h.took.parts ≡ 1) × (h.gave.amount ≡ h.given) × (h.took.amount ≡ h.taken) };
}

impl<J: Run> Hand<J> {
    /// How many jobs the worker was given.
    pub fn given(&self) -> u64
        ensures { result ≡ self.now.given }
    {
        self.given
    }

    /// How many jobs were taken from the worker.
    pub fn taken(&self) -> u64
        ensures { result ≡ self.now.taken }
    {
        self.taken
    }
}
