//! What puts items into two lists.
ghost use Rattle.std.specs.Prelude.{◌≡◌, ℕ, ◌+◌, ◌<◌, ◌≤◌, List, [], ◌∷◌, length};
ghost use Rattle.order_list.specs.Ordered.{put_after};
ghost use Rattle.order_list.specs.Sides.{AreNumbered};

use crate::item::Item;

/// Whoever can put new items into an English and a Hebrew list of the same items.
pub trait Placer {
    /// What stays in all that it is lent to.
    type Home;

    /// The items in the English order.
    ghost english: { Self → List ℕ };

    /// The items in the Hebrew order.
    ghost hebrew: { Self → List ℕ };

    /// For how many more items it has room.
    ghost spare: { Self → ℕ };

    ghost home: { Self → Self.Home };

    /// Puts the next item right after `after_e` in the English list and right after `after_h` in the Hebrew one. It
    /// takes no memory.
    fn insert(&mut self, after_e: Item, after_h: Item) -> Item
        requires e_in { after_e.0 < length (english self.old) }
        requires h_in { after_h.0 < length (hebrew self.old) }
        requires room { 1 ≤ spare self.old }
        ensures item { result.0 ≡ length (english self.old) }
        ensures english { english self.new ≡ put_after after_e.0 (result.0 ∷ []) (english self.old) }
        ensures hebrew { hebrew self.new ≡ put_after after_h.0 (result.0 ∷ []) (hebrew self.old) }
        ensures spare { spare self.new + 1 ≡ spare self.old }
        ensures home { home self.new ≡ home self.old }

        // What the two lists of every placer keep.
        ensures numbered { AreNumbered (english self.old) (hebrew self.old) };
}
