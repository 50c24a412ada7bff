//! What is known of a deque, and the rule that it keeps: what was put is what was taken and what is there.
//!
//! Each worker has a permission token (a pass) to each deque. Its tally is data that exists in proofs alone. A deque has 65
//! parts: one for the token of each of up to 64 workers, and one at least for its owner. After a run all tokens come back to
//! the owners. Whoever has all 65 parts and finds the deque empty knows that all that was put was taken.
use crossbeam_deque::protocol::{Join, Outcome, Protocol, Split};
use std::collections::LinkedList;

/// What the holder of a token has put into the deque and taken out of it, and how many of the 65 parts it has. No value of
/// it is made.
pub struct Tally<J> {
    pub parts: u64,
    pub put: LinkedList<J>,
    pub taken: LinkedList<J>,
}

/// The rule of a deque.
pub struct Balance;

impl<J> Protocol<J, Tally<J>> for Balance {
    ghost use Rattle.std.specs.Prelude.{[]};
    ghost use Rattle.steal_pool.specs.Balance.{Balanced, tally};

    ghost holds = { Balanced };

    ghost first = { tally 65 [] [] };

    ghost guest = { tally 0 [] [] };
}

/// A new token with one part is split off.
pub struct SplitOff;

impl<J> Split<Tally<J>> for SplitOff {
    ghost use Rattle.std.specs.Prelude.{[]};
    ghost use Rattle.steal_pool.specs.Balance.{tally, cut_off};

    ghost left = { cut_off };

    ghost right = { λ v. tally 1 [] [] };
}

/// Two tokens become one.
pub struct Merge;

impl<J> Join<Tally<J>> for Merge {
    ghost use Rattle.std.specs.Prelude.{[]};
    ghost use Rattle.steal_pool.specs.Balance.{tally, joined};

    ghost both = { joined };

    ghost spent = { tally 0 [] [] };
}

/// Jobs are put.
pub struct Puts;

impl<J> Outcome<J, Tally<J>> for Puts {
    ghost use Rattle.std.specs.Prelude.{◌≡◌};
    ghost use Rattle.steal_pool.specs.Balance.{with_put};

    ghost then = { λ v xs w. w ≡ with_put v xs };
}

/// Jobs are taken, or the deque is seen to be empty.
pub struct Takes;

impl<J> Outcome<J, Tally<J>> for Takes {
    ghost use Rattle.std.specs.Prelude.{◌≡◌};
    ghost use Rattle.steal_pool.specs.Balance.{with_taken, WasEmpty};

    ghost then = { λ v xs w. w ≡ with_taken v xs };

    ghost empty = { WasEmpty };
}
