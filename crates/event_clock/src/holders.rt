//! Lists of holders and of passes.
ghost use Rattle.std.specs.Prelude.{◌≡◌, ◌<◌, [], ◌∷◌, ◌++◌, length, option_to_list, IsSome, ◌↔◌, IfOk};

use crate::clock::{Holder, Pass};
use fut_base::list::{Listing, NoMemory};
use std::alloc::Global;
use std::marker::Model;

/// Holders of a clock. There is room for as many as it was made with.
#[derive(Drop)]
pub struct Holders {
    pub(crate) list: Vec<Holder>,
    pub(crate) made: usize,
}

impl Model for Holders {
    ghost use Rattle.std.specs.Prelude.{◌≤◌, vec_capacity};
    ghost use Rattle.event_clock.specs.Seated.{HolderList};

    ghost Value = { HolderList };

    ghost view = { λ h. record { items = h.list.items; made = h.made } };

    ghost invariant = { λ h. h.made ≤ vec_capacity h.list };
}

/// Passes of a clock.
pub type Passes = Listing<Pass>;

impl Holders {
    // An empty list with room for so many.
    pub(crate) fn with_room(alloc: Global, count: usize) -> Result<Holders, NoMemory>
        ensures { IfOk result (λ h. h ≡ record { items = []; made = count }) }
    {
        Ok(Holders {
            list: Vec::with_capacity(alloc, count)?,
            made: count,
        })
    }

    /// Takes the last; `None` exactly where the list is empty.
    pub fn pop(&mut self) -> Option<Holder>
        ensures items { self.old.items ≡ self.new.items ++ option_to_list result }
        ensures variant { IsSome result ↔ (0 < length self.old.items) }
        ensures made { self.new.made ≡ self.old.made }
    {
        self.list.pop()
    }

    /// Adds a holder at the end. It takes no memory.
    pub fn put(&mut self, holder: Holder)
        requires { length self.old.items < self.old.made }
        ensures items { self.new.items ≡ self.old.items ++ holder ∷ [] }
        ensures made { self.new.made ≡ self.old.made }
    {
        self.list.push_reserved(holder);
    }
}
