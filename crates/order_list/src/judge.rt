//! What tells in which order two items stand.
ghost use Rattle.std.specs.Prelude.{◌≡◌, ℕ, ◌+◌, ◌<◌, ◌≤◌, ◌++◌, Bool, List, IfOk, IfErr};

use crate::item::Item;

/// Whether one item stands before another in each list.
#[derive(Clone, Copy, Debug, PartialEq, Eq)]
pub struct Sides {
    pub english: bool,
    pub hebrew: bool,
}

/// The versions of the lists that were loaded before and after their labels: odd while labels are made anew.
#[derive(Clone, Copy, Debug, PartialEq, Eq)]
pub struct Moved {
    pub first: u64,
    pub second: u64,
}

/// Whoever can tell how items stand in an English and a Hebrew list.
pub trait Judge {
    ghost use Rattle.order_list.specs.Sides.{AreSides, HasMoved};

    /// What stays, beside its items and lists, in all that it is lent to.
    type Home;

    /// How many items it knows: those with lesser numbers.
    ghost known: { Self → ℕ };

    /// The items that it knows, in the English order.
    ghost english: { Self → List ℕ };

    /// The items that it knows, in the Hebrew order.
    ghost hebrew: { Self → List ℕ };

    /// Whether labels may be made anew meanwhile.
    ghost may_move: { Self → Bool };

    /// The versions that it has loaded, in order.
    ghost loaded: { Self → List ℕ };

    /// How often it was asked, by any count that a question raises by one at most.
    ghost asked: { Self → ℕ };

    ghost home: { Self → Self.Home };

    /// How x and y stand in both lists, or that labels were made anew meanwhile. It takes no memory.
    fn try_sides(&mut self, x: Item, y: Item) -> Result<Sides, Moved>
        requires x_known { x.0 < known self.old }
        requires y_known { y.0 < known self.old }
        ensures sides { IfOk result (λ sides. AreSides sides x.0 y.0 (english self.old) (hebrew self.old)) }
        ensures moved { IfErr result (λ moved. HasMoved moved (may_move self.old) (loaded self.old) (loaded self.new)) }

        // What it loads is added at the end.
        ensures loads { (more : List ℕ) × (loaded self.new ≡ loaded self.old ++ more) }

        ensures asks { asked self.new ≤ asked self.old + 1 }

        // The rest stays.
        ensures known { known self.new ≡ known self.old }
        ensures english { english self.new ≡ english self.old }
        ensures hebrew { hebrew self.new ≡ hebrew self.old }
        ensures may_move { may_move self.new ≡ may_move self.old }
        ensures home { home self.new ≡ home self.old };
}
