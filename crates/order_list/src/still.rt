//! Two lists on one thread.
ghost use Rattle.std.specs.Prelude.{◌≡◌, ℕ, ◌+◌, ◌<◌, ◌≤◌, false, List, [], ◌∷◌, length, IfOk, IsOk};
ghost use Rattle.order_list.specs.Ordered.{IsFresh};
ghost use Rattle.order_list.specs.Labels.{HasInserted, HasMadeSpace};
ghost use Rattle.order_list.specs.Sides.{AreKept, AreSides};

use crate::item::Item;
use crate::judge::{Judge, Moved, Sides};
use crate::list::{NoMemory, OrderList};
use crate::place::Windows;
use crate::placer::Placer;
use std::alloc::Global;
use std::marker::Model;

/// An English and a Hebrew list of the same items, which only its owner changes.
#[derive(Drop)]
pub struct Still {
    english: OrderList,
    hebrew: OrderList,
}

impl Model for Still {
    ghost use Rattle.std.specs.Prelude.{◌≡◌, length};
    ghost use Rattle.order_list.specs.Sides.{Lists};

    ghost Value = { Lists };

    ghost view = { λ s. record { english = s.english; hebrew = s.hebrew } };

    ghost invariant = { λ s. (length s.english.order ≡ length s.hebrew.order) × (s.english.room ≡ s.hebrew.room) };
}

impl Still {
    /// Lists of item 0 alone, with room for `capacity` items in all. It takes all its memory here.
    pub fn make(alloc: Global, capacity: u32) -> Result<Still, NoMemory>
        requires { 1 ≤ capacity }
        ensures { IfOk result (λ s. IsFresh capacity s.english × IsFresh capacity s.hebrew) }
    {
        Ok(Still {
            english: OrderList::make(alloc, capacity)?,
            hebrew: OrderList::make(alloc, capacity)?,
        })
    }

    /// The English list.
    pub fn english(&self) -> &OrderList
        ensures list { result.now ≡ self.now.english }
        ensures count { length self.now.english.order ≡ length self.now.hebrew.order }
    {
        &self.english
    }

    /// The Hebrew list.
    pub fn hebrew(&self) -> &OrderList
        ensures list { result.now ≡ self.now.hebrew }
        ensures count { length self.now.english.order ≡ length self.now.hebrew.order }
    {
        &self.hebrew
    }

    /// Makes labels anew in each list exactly where there is none between the place and the next item. It takes no memory.
    pub fn make_space(&mut self, after_e: Item, after_h: Item) -> Windows
        requires e_in { after_e.0 < length self.old.english.order }
        requires h_in { after_h.0 < length self.old.hebrew.order }
        ensures english { HasMadeSpace self.old.english after_e.0 result.english self.new.english }
        ensures hebrew { HasMadeSpace self.old.hebrew after_h.0 result.hebrew self.new.hebrew }
        ensures was_kept { AreKept self.old }
        ensures kept { AreKept self.new }
    {
        Windows {
            english: self.english.make_space(after_e),
            hebrew: self.hebrew.make_space(after_h),
        }
    }
}

impl Placer for Still {
    type Home = ();

    ghost english = { λ s. s.english.order };

    ghost hebrew = { λ s. s.hebrew.order };

    ghost spare = { λ s. s.english.room };

    ghost home = { λ _. tt };

    fn insert(&mut self, after_e: Item, after_h: Item) -> Item
        requires e_in { after_e.0 < length self.old.english.order }
        requires h_in { after_h.0 < length self.old.hebrew.order }
        requires room { 1 ≤ self.old.english.room }
        ensures english { HasInserted self.old.english after_e.0 result.0 self.new.english }
        ensures hebrew { HasInserted self.old.hebrew after_h.0 result.0 self.new.hebrew }
        ensures was_kept { AreKept self.old }
        ensures kept { AreKept self.new }
    {
        self.hebrew.insert_after(after_h);
        self.english.insert_after(after_e)
    }
}

impl Judge for Still {
    type Home = u32;

    ghost known = { λ s. length s.english.order };

    ghost english = { λ s. s.english.order };

    ghost hebrew = { λ s. s.hebrew.order };

    ghost may_move = { λ _. false };

    ghost loaded = { λ _. [] };

    ghost asked = { λ _. 0 };

    ghost home = { λ s. s.english.room };

    fn try_sides(&mut self, x: Item, y: Item) -> Result<Sides, Moved>
        requires x_known { x.0 < length self.old.english.order }
        requires y_known { y.0 < length self.old.english.order }
        ensures ok { IsOk result }
        ensures sides { IfOk result (λ sides. AreSides sides x.0 y.0 self.old.english.order self.old.hebrew.order) }
        ensures unchanged { self.new ≡ self.old }
    {
        Ok(Sides {
            english: self.english.before(x, y),
            hebrew: self.hebrew.before(x, y),
        })
    }
}
