//! What a reader and the writer keep.
ghost use Rattle.std.specs.Prelude.{◌≡◌};

use crate::view::View;
use atomic_table::Seat;
use order_list::Still;
use std::marker::Model;

/// What a thread needs to read sides. It knows some items: all that were inserted when it was snapshot.
#[derive(Drop)]
pub struct Reader {
    pub(crate) seat: Seat<(), View>,
}

impl Model for Reader {
    ghost use Rattle.order_query.specs.Reading.{Reading, IsReading};

    ghost Value = { Reading };

    ghost view = { λ r. record { log = r.seat.me.0.log; loaded = r.seat.me.0.loaded; home = r.seat.table_id } };

    ghost invariant = { λ r. IsReading r.seat.table_id r.seat.me };
}

/// The one permission to insert, with the two lists themselves.
#[derive(Drop)]
pub struct Writer {
    pub(crate) lists: Still,
    pub(crate) seat: Seat<(), View>,
    pub(crate) version: u64,
}

impl Model for Writer {
    ghost use Rattle.order_query.specs.Reading.{Writing, IsWriting};

    ghost Value = { Writing };

    ghost view = { λ w. record { lists = w.lists; log = w.seat.me.0.log; version = w.version; home = w.seat.table_id } };

    ghost invariant = { λ w. IsWriting w.lists w.seat.table_id w.seat.me w.version };
}

impl Writer {
    /// The two lists.
    pub fn lists(&self) -> &Still
        ensures { result.now ≡ self.now.lists }
    {
        &self.lists
    }
}
