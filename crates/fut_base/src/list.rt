//! Lists whose room is asked for beforehand, so that adding an item takes no memory.
ghost use Rattle.std.specs.Prelude.{◌≡◌, ◌+◌, ◌<◌, ◌≤◌, [], ◌∷◌, ◌++◌, length, IfOk, OnErr, OnOk, slice_get};
ghost use Rattle.std.specs.Option.{option_copied};

use std::alloc::{AllocError, AllocFailed, Global};
use std::marker::Model;

/// Want of memory.
#[derive(Clone, Copy, Debug, PartialEq, Eq, thiserror::Error)]
#[error("no memory")]
pub struct NoMemory;

impl From<AllocError> for NoMemory {
    ghost from_gives = { λ _ _. Unit {0} };

    fn from(_error: AllocError) -> NoMemory {
        NoMemory
    }
}

impl<T: Drop> From<AllocFailed<T>> for NoMemory {
    ghost from_gives = { λ _ _. Unit {0} };

    fn from(_error: AllocFailed<T>) -> NoMemory {
        NoMemory
    }
}

/// A list that grows at its end. Contracts see its items and `spare`, for how many more it has room.
#[derive(Drop)]
pub struct Listing<T> {
    held: Vec<T>,
    free: usize,
}

impl<T> Model for Listing<T> {
    ghost use Rattle.std.specs.Prelude.{◌+◌, ◌≤◌, vec_len, vec_capacity};
    ghost use Rattle.fut_base.specs.Listed.{Listed, listed_code};

    ghost Value = { Listed T };

    ghost coded = { listed_code T.code };

    ghost view = { λ l. record { items = l.held.items; spare = l.free } };

    ghost invariant = { λ l. vec_len l.held + l.free ≤ vec_capacity l.held };
}

impl<T> Listing<T> {
    /// The empty list. It takes no memory.
    pub fn make(alloc: Global) -> Listing<T>
        ensures { result ≡ record { items = []; spare = 0 } }
    {
        Listing {
            held: Vec::new(alloc),
            free: 0,
        }
    }

    /// The list of these items, which has no room for more.
    pub fn from_vec(items: Vec<T>) -> Listing<T>
        ensures { result ≡ record { items = items.items; spare = 0 } }
    {
        Listing {
            held: items,
            free: 0,
        }
    }

    /// Makes room for one more item at least.
    pub fn reserve(&mut self) -> Result<(), NoMemory>
        ensures items { self.new.items ≡ self.old.items }
        ensures spare { OnOk result (1 ≤ self.new.spare) }
        ensures unchanged { OnErr result (self.new ≡ self.old) }
    {
        if self.free > 0 {
            return Ok(());
        }
        self.held.reserve(1)?;
        self.free = 1;
        Ok(())
    }

    /// Adds an item at the end. It takes no memory.
    pub fn push(&mut self, item: T)
        requires { 1 ≤ self.old.spare }
        ensures items { self.new.items ≡ self.old.items ++ item ∷ [] }
        ensures spare { self.new.spare + 1 ≡ self.old.spare }
    {
        self.free -= 1;
        self.held.push_reserved(item);
    }

    pub fn len(&self) -> usize
        ensures { result ≡ length self.now.items }
    {
        self.held.len()
    }

    /// The item at a place, from 0; `None` exactly where the place is at least the length.
    pub fn at(&self, place: usize) -> Option<&T>
        ensures { option_copied result ≡ slice_get self.now.items place }
    {
        self.held.get(place)
    }

    /// All items in order.
    pub fn as_slice(&self) -> &[T]
        ensures { result.now ≡ self.now.items }
    {
        self.held.as_slice()
    }

    /// All items in order, without the room for more.
    pub fn into_vec(self) -> Vec<T>
        ensures { result.items ≡ self.items }
    {
        let Listing { held, free: _ } = self;
        held
    }
}

impl<T: Copy> Listing<T> {
    /// An equal list.
    pub fn copy(&self, alloc: Global) -> Result<Listing<T>, NoMemory>
        ensures { IfOk result (λ l. l.items ≡ self.now.items) }
    {
        let held = Vec::from_slice(alloc, self.held.as_slice())?;
        Ok(Listing { held, free: 0 })
    }
}
