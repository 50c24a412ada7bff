//! The races of a whole history.
ghost use Rattle.std.specs.Prelude.{◌^◌, ◌<◌, length, map, IfOk};
ghost use Rattle.fut_base.specs.Events.{event_of};
ghost use Rattle.fut_base.specs.Racing.{IsReport};
ghost use Rattle.access_shards.specs.Histories.{IsInStep};

use crate::finder::Finder;
use fut_base::list::NoMemory;
use fut_base::record::{Entry, Races};
use std::alloc::Global;

/// The races of a history of fewer than 2^29 entries: the racing cells in order, each with its first pair.
pub fn races_of(alloc: Global, entries: &[Entry]) -> Result<Races, NoMemory>
    requires steps { IsInStep (map event_of entries.now) }
    requires few { length entries.now < 2 ^ 29 }
    ensures { IfOk result (λ races. IsReport (map event_of entries.now) races.items) }
{
    let mut finder = Finder::start(alloc)?;
    for entry in entries {
        finder.take(entry)?;
    }
    finder.races(alloc)
}
