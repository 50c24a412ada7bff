//! A judge that counts its questions.
ghost use Rattle.std.specs.Prelude.{◌≡◌, ◌+◌, ◌<◌, ◌≤◌, [], length, IfOk, IsOk, false};
ghost use Rattle.order_list.specs.Sides.{AreSides};

use order_list::{Item, Judge, Moved, Sides, Still};

/// Two lists, and how often it was asked how items stand there.
#[derive(Drop)]
pub struct Counted {
    pub lists: Still,
    pub asked: u64,
}

impl Judge for Counted {
    type Home = u32;

    ghost known = { λ c. length c.lists.english.order };

    ghost english = { λ c. c.lists.english.order };

    ghost hebrew = { λ c. c.lists.hebrew.order };

    ghost may_move = { λ _. false };

    ghost loaded = { λ _. [] };

    ghost asked = { λ c. c.asked };

    ghost home = { λ c. c.lists.english.room };

    fn try_sides(&mut self, x: Item, y: Item) -> Result<Sides, Moved>
        requires x_known { x.0 < length self.old.lists.english.order }
        requires y_known { y.0 < length self.old.lists.english.order }
        ensures ok { IsOk result }
        ensures sides { IfOk result (λ sides. AreSides sides x.0 y.0 self.old.lists.english.order self.old.lists.hebrew.order) }
        ensures lists { self.new.lists ≡ self.old.lists }
        ensures asks { self.new.asked ≤ self.old.asked + 1 }
    {
        self.asked = self.asked.saturating_add(1);
        self.lists.try_sides(x, y)
    }
}
