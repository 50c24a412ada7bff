//! Two lists that grow.
ghost use Rattle.std.specs.Prelude.{◌≡◌, ◌⊎◌, ◌+◌, ◌^◌, ◌<◌, ◌≤◌, [], ◌∷◌, length, IfOk, OnOk, OnErr, IsOk, false};
ghost use Rattle.order_list.specs.Sides.{AreSides};
ghost use Rattle.race_finder.specs.Places.{AreWithin, english_from, hebrew_from};

use fut_base::list::NoMemory;
use order_list::{Item, Judge, Moved, Placer, Sides, Still};
use std::alloc::Global;
use std::marker::Model;

/// After which items one more was put into the two lists.
#[derive(Clone, Copy, Debug, PartialEq, Eq)]
pub struct Pair {
    pub english: Item,
    pub hebrew: Item,
}

/// An English and a Hebrew list of the same items, with item 0 first, in which room is made as it is asked for. Where a
/// list is full, longer ones are made, and the items put in again in the same way.
#[derive(Drop)]
pub struct Places {
    alloc: Global,
    lists: Still,
    placed: Vec<Pair>,
    capacity: u32,
}

impl Model for Places {
    ghost use Rattle.std.specs.Prelude.{◌+◌, vec_capacity};
    ghost use Rattle.race_finder.specs.Places.{Placed, IsPlaced};

    ghost Value = { Placed };

    ghost view = { λ p. record { english = p.lists.english.order; hebrew = p.lists.hebrew.order; room = p.lists.english.room } };

    ghost invariant = { λ p. IsPlaced p.lists p.placed.items (vec_capacity p.placed) p.capacity };
}

impl Places {
    /// Lists of item 0 alone.
    pub fn make(alloc: Global) -> Result<Places, NoMemory>
        ensures { IfOk result (λ p. (p.english ≡ 0 ∷ []) × (p.hebrew ≡ 0 ∷ [])) }
    {
        Ok(Places {
            alloc,
            lists: Still::make(alloc, 1)?,
            placed: Vec::new(alloc),
            capacity: 1,
        })
    }

    /// How many items there are.
    pub fn len(&self) -> u32
        ensures english { result ≡ length self.now.english }
        ensures hebrew { result ≡ length self.now.hebrew }
    {
        let lists = &self.lists;
        lists.english().len()
    }

    /// The two lists.
    pub fn lists(&self) -> &Still
        ensures english { result.now.english.order ≡ self.now.english }
        ensures hebrew { result.now.hebrew.order ≡ self.now.hebrew }
        ensures count { length self.now.english ≡ length self.now.hebrew }
    {
        let lists = &self.lists;
        let _english = lists.english();
        lists
    }

    /// Makes room for so many more items, up to 2^31 - 1 in all. Where there is too little, the lists are made more than twice
    /// as long.
    pub fn reserve(&mut self, more: u32) -> Result<(), NoMemory>
        requires { length self.old.english + more < 2 ^ 31 }
        ensures room { OnOk result (more ≤ self.new.room) }
        ensures longer { OnOk result ((self.new.room ≡ self.old.room) ⊎ (length self.new.english + more ≤ self.new.room)) }
        ensures english { self.new.english ≡ self.old.english }
        ensures hebrew { self.new.hebrew ≡ self.old.hebrew }
        ensures unchanged { OnErr result (self.new ≡ self.old) }
    {
        let count = self.lists.english().len();
        if self.capacity - count >= more {
            return Ok(());
        }
        let capacity = 2 * (count + more);
        self.placed.reserve((capacity - count) as usize)?;
        self.lists = again(self.alloc, self.placed.as_slice(), capacity)?;
        self.capacity = capacity;
        Ok(())
    }
}

// Lists of item 0 and of further ones that are put in after these, with room for `capacity` items in all.
fn again(alloc: Global, placed: &[Pair], capacity: u32) -> Result<Still, NoMemory>
    requires within { AreWithin 1 placed.now }
    requires room { length placed.now < capacity }
    ensures english { IfOk result (λ s. s.english.order ≡ english_from (0 ∷ []) placed.now) }
    ensures hebrew { IfOk result (λ s. s.hebrew.order ≡ hebrew_from (0 ∷ []) placed.now) }
    ensures room { IfOk result (λ s. s.english.room + length placed.now + 1 ≡ capacity) }
    ensures count { IfOk result (λ s. length s.english.order ≡ length placed.now + 1) }
{
    let mut lists = Still::make(alloc, capacity)?;
    for pair in placed {
        lists.insert(pair.english, pair.hebrew);
    }
    Ok(lists)
}

impl Placer for Places {
    type Home = ();

    ghost english = { λ p. p.english };

    ghost hebrew = { λ p. p.hebrew };

    ghost spare = { λ p. p.room };

    ghost home = { λ _. tt };

    fn insert(&mut self, after_e: Item, after_h: Item) -> Item {
        let item = self.lists.insert(after_e, after_h);
        self.placed.push_reserved(Pair {
            english: after_e,
            hebrew: after_h,
        });
        item
    }
}

impl Judge for Places {
    type Home = u32;

    ghost known = { λ p. length p.english };

    ghost english = { λ p. p.english };

    ghost hebrew = { λ p. p.hebrew };

    ghost may_move = { λ _. false };

    ghost loaded = { λ _. [] };

    ghost asked = { λ _. 0 };

    ghost home = { λ p. p.room };

    fn try_sides(&mut self, x: Item, y: Item) -> Result<Sides, Moved>
        requires x_known { x.0 < length self.old.english }
        requires y_known { y.0 < length self.old.english }
        ensures ok { IsOk result }
        ensures sides { IfOk result (λ sides. AreSides sides x.0 y.0 self.old.english self.old.hebrew) }
        ensures unchanged { self.new ≡ self.old }
    {
        self.lists.try_sides(x, y)
    }
}
