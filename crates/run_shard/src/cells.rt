//! What a shard had at its end.
ghost use Rattle.std.specs.Prelude.{◌≡◌, [], ◌∷◌, MatchOption};
ghost use Rattle.run_shard.specs.Shards.{IsShard};
ghost use Rattle.run_shard.specs.Ends.{cells_of, AreEnds};

use crate::shard::{SHARDS, Shard};
use access_shards::{CellLog, Kept};
use event_clock::clock::Holder;
use order_query::Reader;
use run_names::Run;
use std::marker::Model;

/// The cells of a shard, each with its number, its value and what is kept of its accesses, that with the greatest number first.
#[derive(Drop)]
pub struct ShardCells<const I: u32> {
    values: Vec<i64>,
    logs: Vec<CellLog>,
}

impl<const I: u32> Model for ShardCells<I> {
    ghost use Rattle.std.specs.Prelude.{ℕ, ℤ, ◌≡◌, ◌+◌, ◌*◌, ◌^◌, ◌<◌, List, length};
    ghost use Rattle.access_shards.specs.declared.kept.Kept.{Kept};
    ghost use Rattle.run_shard.specs.Ends.{cells_of};

    ghost Value = { List (ℕ × ℤ × Kept) };

    ghost view = { λ c. cells_of I c.values.items c.logs.items };

    ghost invariant = { λ c. (length c.logs.items ≡ length c.values.items) × (8 * length c.values.items + I < 2 ^ 32 + 8) × (I < 8) };
}

impl<const I: u32> ShardCells<I> {
    /// Takes the first cell: its number, its value, and what is kept. `None` exactly where there is none. It takes no memory.
    pub fn pop(&mut self) -> Option<(u32, i64, Kept)>
        ensures { MatchOption result ((self.old ≡ []) × (self.new ≡ [])) (λ r. self.old ≡ r ∷ self.new) }
    {
        let value = self.values.pop()?;
        let log = self.logs.pop()?;
        Some((
            self.values.len() as u32 * SHARDS + I,
            value,
            log.into_kept(),
        ))
    }
}

impl<J: Run, const I: u32> Shard<J, I> {
    /// The shard's holder, its reader and its cells. It takes no memory.
    pub fn finish(self) -> (Holder, Reader, ShardCells<I>)
        ensures seats { (result.0 ≡ self.holder) × (result.1 ≡ self.reader) }
        ensures cells { result.2 ≡ cells_of I self.values self.logs }
        ensures ends { AreEnds J.code I self result.2 }
        ensures shard { IsShard J.clock J.orders J.code I self }
    {
        let Shard {
            holder,
            reader,
            values,
            logs,
            run: _,
        } = self;
        (holder, reader, ShardCells { values, logs })
    }
}
