//! The entries that one task has made.
ghost use Rattle.std.specs.Prelude.{◌≡◌, ◌+◌, ◌≤◌, [], ◌∷◌, ◌++◌, OnErr, OnOk, MatchOption};

use fut_base::list::NoMemory;
use fut_base::record::Entry;
use std::alloc::Global;
use std::collections::VecDeque;
use std::marker::Model;

/// The entries of a task in order, each with its ticket. Contracts see them, and for how many more there is room.
#[derive(Drop)]
pub struct Trace {
    kept: VecDeque<(u32, Entry)>,
    free: usize,
}

impl Model for Trace {
    ghost use Rattle.std.specs.Prelude.{ℕ, ◌+◌, ◌≤◌};
    ghost use Rattle.std.specs.VecDeque.{deque_len, deque_capacity};
    ghost use Rattle.fut_base.specs.Listed.{Listed};
    ghost use Rattle.fut_base.specs.declared.record.Entry.{Entry};

    ghost Value = { Listed (ℕ × Entry) };

    ghost view = { λ t. record { items = t.kept.items; spare = t.free } };

    ghost invariant = { λ t. deque_len t.kept + t.free ≤ deque_capacity t.kept };
}

impl Trace {
    /// The empty trace. It takes no memory.
    pub fn make(alloc: Global) -> Trace
        ensures { result ≡ record { items = []; spare = 0 } }
    {
        Trace {
            kept: VecDeque::new(alloc),
            free: 0,
        }
    }

    /// Makes room for one more entry at least.
    pub fn reserve(&mut self) -> Result<(), NoMemory>
        ensures items { self.new.items ≡ self.old.items }
        ensures spare { OnOk result (1 ≤ self.new.spare) }
        ensures unchanged { OnErr result (self.new ≡ self.old) }
    {
        if self.free > 0 {
            return Ok(());
        }
        self.kept.reserve(1)?;
        self.free = 1;
        Ok(())
    }

    /// Adds an entry at the end. It takes no memory.
    pub fn push(&mut self, ticket: u32, entry: Entry)
        requires { 1 ≤ self.old.spare }
        ensures items { self.new.items ≡ self.old.items ++ (ticket, entry) ∷ [] }
        ensures spare { self.new.spare + 1 ≡ self.old.spare }
    {
        self.free -= 1;
        self.kept.push_back_reserved((ticket, entry));
    }

    /// Takes the first entry; `None` exactly where there is none.
    pub fn pop(&mut self) -> Option<(u32, Entry)>
        ensures first { MatchOption result ((self.old.items ≡ []) × (self.new.items ≡ [])) (λ first. self.old.items ≡ first ∷ self.new.items) }
        ensures spare { self.new.spare ≡ self.old.spare }
    {
        self.kept.pop_front()
    }
}
