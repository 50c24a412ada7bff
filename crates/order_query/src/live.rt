//! A reader as a judge.
ghost use Rattle.std.specs.Prelude.{◌≡◌};

use crate::orders::Orders;
use crate::reader::Reader;
use order_list::{Item, Judge, Moved, Sides};
use std::marker::Brand;
use std::sync::ledger::Blank;

/// A reader with its orders, for code that asks any judge. A caller makes it in place, and knows after its end that the
/// reader knows the same items: what it keeps as a judge, its `Home`, says which reader it was lent.
#[derive(Drop)]
pub struct Live<'a> {
    pub orders: &'a Orders,
    pub reader: &'a mut Reader,
    pub ghost own: { reader.now.home ≡ orders.now },
}

impl<'a> Judge for Live<'a> {
    ghost use Rattle.std.specs.Prelude.{true};
    ghost use Rattle.order_query.specs.Logs.{english_of, hebrew_of, count_of};

    // Of which no value is made: the orders, and the name of the borrow of the reader.
    type Home = (Orders, u64);

    ghost known = { λ l. count_of l.reader.now.log };

    ghost english = { λ l. english_of l.reader.now.log };

    ghost hebrew = { λ l. hebrew_of l.reader.now.log };

    ghost may_move = { λ _. true };

    ghost loaded = { λ l. l.reader.now.loaded };

    ghost asked = { λ _. 0 };

    ghost home = { λ l. (l.orders.now, l.reader.ghost_name) };

    fn try_sides(&mut self, x: Item, y: Item) -> Result<Sides, Moved> {
        self.orders
            .ask_once::<Brand>(self.reader, x, y, Blank::new(1))
    }
}
