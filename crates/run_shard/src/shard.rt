//! A shard.
ghost use Rattle.std.specs.Prelude.{◌≡◌, ◌+◌, ◌*◌, ◌/◌, ◌<◌, ◌≤◌, Some, slice_get, IfOk, OnOk, OnErr};
ghost use Rattle.run_shard.specs.Shards.{IsNewHolder, IsNewShard, IsShard, HasRoomFor, FitsKnown, IsCellOf, IsKeptOf};

use access_shards::{CellLog, Kept};
use event_clock::clock::Holder;
use fut_base::list::NoMemory;
use order_query::Reader;
use run_names::Run;
use std::alloc::Global;
use std::marker::{Model, PhantomData};

/// How many shards the cells of a run are shared out over.
pub const SHARDS: u32 = 8;

/// The cells c of a run with c mod 8 = I: of each its value, and what has to be remembered of its accesses; with the holder that
/// draws the tickets of their accesses, and a reader of the orders.
#[derive(Drop)]
pub struct Shard<J: Run, const I: u32> {
    pub(crate) holder: Holder,
    pub(crate) reader: Reader,
    pub(crate) values: Vec<i64>,
    pub(crate) logs: Vec<CellLog>,
    pub(crate) run: PhantomData<J>,
}

impl<J: Run, const I: u32> Model for Shard<J, I> {
    ghost use Rattle.run_shard.specs.Shards.{ShardNow, IsShard};

    ghost Value = { ShardNow };

    ghost view = { λ s. record { holder = s.holder; reader = s.reader; values = s.values.items; logs = s.logs.items } };

    ghost invariant = { λ s. IsShard J.clock J.orders J.code I (record { holder = s.holder; reader = s.reader; values = s.values.items; logs = s.logs.items }) };
}

/// How many of so many cells are in the shard with this number.
fn share_of(cells: u32, shard: u32) -> u32
    requires { shard < 8 }
    ensures { (cells ≤ 8 * result + shard) × (8 * result + shard < cells + 8) }
{
    cells / SHARDS + (if shard < cells % SHARDS { 1 } else { 0 })
}

impl<J: Run, const I: u32> Shard<J, I> {
    /// The cells of shard I, all of value 0 and without an access.
    pub fn make(
        alloc: Global,
        cells: u32,
        holder: Holder,
        reader: Reader,
    ) -> Result<Shard<J, I>, NoMemory>
        requires cells { (cells ≡ J.code.cells) × (I < 8) }
        requires holder { IsNewHolder J.clock I holder }
        requires reader { FitsKnown J.orders J.code holder reader }
        ensures new { IfOk result (λ s. IsNewShard s) }
        ensures seats { IfOk result (λ s. (s.holder ≡ holder) × (s.reader ≡ reader)) }
    {
        let count = share_of(cells, I) as usize;
        let values = Vec::from_elem(alloc, 0, count)?;
        let mut logs = Vec::new(alloc);
        for _cell in 0..count {
            logs.push(CellLog::make(alloc))?;
        }
        Ok(Shard {
            holder,
            reader,
            values,
            logs,
            run: PhantomData,
        })
    }

    /// Makes all growths that one access of a cell needs in the shard.
    pub fn reserve(&mut self, cell: u32) -> Result<(), NoMemory>
        requires cell { IsCellOf J.code I cell }
        ensures seats { (self.new.holder ≡ self.old.holder) × (self.new.reader ≡ self.old.reader) × (self.new.values ≡ self.old.values) }
        ensures room { OnOk result (HasRoomFor cell self.old self.new) }
        ensures unchanged { OnErr result (self.new ≡ self.old) }
    {
        self.logs[(cell / SHARDS) as usize].reserve()
    }

    /// What is kept of the accesses of a cell.
    pub fn kept(&self, cell: u32) -> &Kept
        requires { IsCellOf J.code I cell }
        ensures { IsKeptOf self.now cell result.now }
    {
        self.logs[(cell / SHARDS) as usize].kept()
    }

    /// What is known of a shard by its type.
    pub fn is_shard(&self)
        ensures { IsShard J.clock J.orders J.code I self.now }
    {
        let _ = &self.run;
    }

    /// The value of a cell.
    pub fn value(&self, cell: u32) -> i64
        requires { IsCellOf J.code I cell }
        ensures { slice_get self.now.values (cell / 8) ≡ Some result }
    {
        self.values[(cell / SHARDS) as usize]
    }
}
