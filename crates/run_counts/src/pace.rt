//! A job's share of the third count.
ghost use Rattle.std.specs.Prelude.{◌≡◌};

use run_names::{Paces, Run};
use std::marker::Model;
use std::sync::ledger::Share;

/// How often a job may wait before its next event: 0 or 1. It can't be copied.
#[derive(Drop)]
pub struct Pace<J: Run> {
    pub(crate) count: u64,
    pub(crate) share: Share<Paces<J>>,
}

impl<J: Run> Model for Pace<J> {
    ghost use Rattle.std.specs.Prelude.{◌≡◌, ℕ, ◌≤◌};

    ghost Value = { ℕ };

    ghost view = { λ p. p.count };

    ghost invariant = { λ p. (p.share.parts ≡ 1) × (p.share.amount ≡ p.count) × (p.count ≤ 1) };
}

impl<J: Run> Pace<J> {
    pub fn count(&self) -> u64
        ensures { result ≡ self.now }
    {
        self.count
    }
}
