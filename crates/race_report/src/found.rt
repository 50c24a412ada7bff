//! The report of a history.
ghost use Rattle.std.specs.Prelude.{◌≡◌, ℕ, ◌+◌, ◌<◌, ◌^◌, map, length, IfOk, OnOk};
ghost use Rattle.std.specs.Ordering.{nat_cmp};
ghost use Rattle.std.specs.BTreeMap.{get, values, IsOrdered};
ghost use Rattle.fut_base.specs.Events.{event_of, events_of};
ghost use Rattle.fut_base.specs.Racing.{IsReport};
ghost use Rattle.race_report.specs.Search.{IsDagOf};
ghost use Rattle.race_report.specs.Pairs.{IsFoundBefore};

use crate::pairs::last_pair;
use crate::search::Dag;
use fut_base::list::{Listing, NoMemory};
use fut_base::record::{Entry, History, Race, Races};
use std::alloc::Global;
use std::collections::BTreeMap;

// Adds the first pair of a cell, if the entry at this place makes it.
fn note_pair(
    alloc: Global,
    found: &mut BTreeMap<u32, Race>,
    dag: &Dag,
    entries: &[Entry],
    place: usize,
) -> Result<(), NoMemory>
    requires dag { IsDagOf entries.now dag.now }
    requires within { place < length entries.now }
    requires short { length entries.now < 2 ^ 32 }
    ensures { OnOk result ((c : ℕ) → IsFoundBefore (map event_of entries.now) place c (get nat_cmp found.old c)
        → IsFoundBefore (map event_of entries.now) (place + 1) c (get nat_cmp found.new c)) }
{
    if let Some(race) = last_pair(alloc, dag, entries, place)? {
        if !found.contains_key(&race.cell) {
            found.insert(race.cell, race)?;
        }
    }
    Ok(())
}

// The first pairs by cell.
fn first_pairs(alloc: Global, entries: &[Entry]) -> Result<BTreeMap<u32, Race>, NoMemory>
    requires { length entries.now < 2 ^ 32 }
    ensures { IfOk result (λ found. (c : ℕ) → IsFoundBefore (map event_of entries.now) (length entries.now) c (get nat_cmp found c)) }
{
    let dag = Dag::make(alloc, entries)?;
    let mut found = BTreeMap::new(alloc);
    for place in 0..entries.len() {
        note_pair(alloc, &mut found, &dag, entries, place)?;
    }
    Ok(found)
}

// The pairs in the order of their cells.
fn listed(alloc: Global, found: &BTreeMap<u32, Race>) -> Result<Races, NoMemory>
    ensures items { IfOk result (λ races. races.items ≡ values found.now) }
    ensures ordered { IsOrdered nat_cmp found.now }
{
    let mut races = Listing::make(alloc);
    for race in found.values() {
        races.reserve()?;
        races.push(*race);
    }
    Ok(races)
}

/// The racing cells of a history in the order of their numbers, each with its first pair, found by following edges.
///
/// The history may be any one, also one that no program makes. It has fewer than 2^32 entries. `NoMemory` is want of
/// memory alone. The time is about the number of accesses by that of entries.
pub fn found_of(alloc: Global, history: &History) -> Result<Races, NoMemory>
    requires { length history.now.items < 2 ^ 32 }
    ensures { IfOk result (λ races. IsReport (events_of history.now) races.items) }
{
    let found = first_pairs(alloc, history.as_slice())?;
    listed(alloc, &found)
}
