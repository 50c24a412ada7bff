//! The race of a place with its greatest earlier partner.
ghost use Rattle.std.specs.Prelude.{◌≡◌, ◌==◌, ◌&&◌, ◌||◌, ◌^◌, ◌<◌, not, map, take, length, IfOk};
ghost use Rattle.fut_base.specs.Events.{action_of, event_of};
ghost use Rattle.race_report.specs.Edges.{past_of};
ghost use Rattle.race_report.specs.Search.{is_joined, IsDagOf};
ghost use Rattle.race_report.specs.Pairs.{access_of, is_conflict, is_rival, IsLastPlace, IsLastPair};

use crate::search::{Dag, Joined};
use fut_base::list::NoMemory;
use fut_base::record::{Act, Entry, Race};
use std::alloc::Global;

/// An access: its cell, and whether it writes.
#[derive(Clone, Copy)]
pub struct Access {
    pub cell: u32,
    pub writes: bool,
}

fn access_of(act: &Act) -> Option<Access>
    ensures { result ≡ access_of (action_of act.now) }
{
    match act {
        Act::Read { cell, .. } => Some(Access {
            cell: *cell,
            writes: false,
        }),
        Act::Write { cell, .. } => Some(Access {
            cell: *cell,
            writes: true,
        }),
        _ => None,
    }
}

// Whether an act accesses the same cell, and one of the two writes.
fn is_conflict(access: Access, act: &Act) -> bool
    ensures { result ≡ is_conflict access (access_of (action_of act.now)) }
{
    match access_of(act) {
        Some(other) => other.cell == access.cell && (other.writes || access.writes),
        None => false,
    }
}

// Whether an entry races with an access, of whose strand `joined` has the joined strands.
fn is_rival(access: Access, joined: &Joined, entry: &Entry) -> bool
    ensures { result ≡ is_rival access joined.now (event_of entry.now) }
{
    is_conflict(access, &entry.act) && !joined.has(entry.strand)
}

// The greatest place of an entry that races with an access.
fn partner(entries: &[Entry], access: Access, joined: &Joined) -> Option<u32>
    requires { length entries.now < 2 ^ 32 }
    ensures { IsLastPlace (is_rival access joined.now) (map event_of entries.now) result }
{
    for place in (0..entries.len()).rev() {
        if is_rival(access, joined, &entries[place]) {
            return Some(place as u32);
        }
    }
    None
}

/// The race of the entry at a place with its greatest earlier partner, where it has one.
pub fn last_pair(
    alloc: Global,
    dag: &Dag,
    entries: &[Entry],
    place: usize,
) -> Result<Option<Race>, NoMemory>
    requires dag { IsDagOf entries.now dag.now }
    requires within { place < length entries.now }
    requires short { length entries.now < 2 ^ 32 }
    ensures { IfOk result (IsLastPair (map event_of entries.now) place) }
{
    let entry = &entries[place];
    let Some(access) = access_of(&entry.act) else {
        return Ok(None);
    };
    let joined = dag.joined_with(alloc, entry.strand)?;
    let Some(first) = partner(&entries[..place], access, &joined) else {
        return Ok(None);
    };
    Ok(Some(Race {
        cell: access.cell,
        first,
        second: place as u32,
    }))
}
