//! The ledgers of a run.
use crate::run::Run;
use std::marker::PhantomData;
use std::sync::ledger::Ledger;

/// How many jobs workers were given.
pub struct Given<J> {
    of: PhantomData<J>,
}

impl<J: Run> Ledger for Given<J> {
    ghost name = { J.given };

    ghost parts = { J.hands };
}

/// How many jobs were taken from workers.
pub struct Taken<J> {
    of: PhantomData<J>,
}

impl<J: Run> Ledger for Taken<J> {
    ghost name = { J.taken };

    ghost parts = { J.hands };
}

/// How many jobs may still wait before their next event.
pub struct Paces<J> {
    of: PhantomData<J>,
}

impl<J: Run> Ledger for Paces<J> {
    ghost name = { J.paces };

    ghost parts = { J.places };
}
