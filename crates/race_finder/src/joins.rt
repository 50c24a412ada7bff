//! Gets and syncs.
ghost use Rattle.std.specs.Prelude.{◌≡◌, ℕ, ◌<◌, ◌≤◌, List, length, reverse, IfOk, IfSome};
ghost use Rattle.fut_base.specs.declared.event.Event.{Event};
ghost use Rattle.strand_tree.specs.Placing.{IsIn, IsLastOfFirst};
ghost use Rattle.race_finder.specs.Acting.{GetsOne, SyncsOne, AreOf, TableAfterGet, MaySync, TableOfBlock};

use crate::places::Places;
use crate::track::Track;
use fut_base::list::{Listing, NoMemory};
use reach_table::Reach;
use std::alloc::Global;
use strand_tree::{Strand, get, sync};

/// The table of a task's strand after it got a future, which has ended.
pub fn table_after_get(
    tracks: &[Track],
    places: &Places,
    task: u32,
    future: u32,
) -> Result<Reach, NoMemory>
    requires task_in { task < length tracks.now }
    requires future_in { future < length tracks.now }
    requires some { (s : List Event) × AreOf s places.now tracks.now }
    ensures { IfOk result (λ table. TableAfterGet places.now tracks.now task future table) }
{
    let track = &tracks[task as usize];
    let other = &tracks[future as usize];
    track.reach.merged(
        &other.reach,
        track.at.future,
        Some(other.at),
        places.lists(),
    )
}

/// What the tables of a task's strand and of its block's children leave.
pub fn table_of_block(tracks: &[Track], places: &Places, task: u32) -> Result<Reach, NoMemory>
    requires task_in { task < length tracks.now }
    requires some { (s : List Event) × MaySync s places.now tracks.now task }
    ensures { IfOk result (λ table. TableOfBlock places.now tracks.now task table) }
{
    let track = &tracks[task as usize];
    let mut reach = track.reach.share()?;
    for child in track.block.as_slice() {
        let other = &tracks[*child as usize];
        reach = reach.merged(&other.reach, track.at.future, None, places.lists())?;
    }
    Ok(reach)
}

/// The last strand of the first child of a task's block, where there is one.
pub fn first_last(tracks: &[Track], places: &Places, task: u32) -> Option<Strand>
    requires task_in { task < length tracks.now }
    requires some { (s : List Event) × MaySync s places.now tracks.now task }
    ensures last { (s : List Event) → MaySync s places.now tracks.now task → IsLastOfFirst s task result }
    ensures there { IfSome result (λ last. IsIn last.number places.now.english places.now.hebrew) }
{
    let track = &tracks[task as usize];
    let Some(child) = track.block.at(0) else {
        return None;
    };
    let first = &tracks[*child as usize];
    Some(first.at)
}

/// A task goes on after a get, on a strand with this table.
pub fn get_one(places: &mut Places, track: &mut Track, reach: Reach)
    requires english { track.old.at.number < length places.old.english }
    requires hebrew { track.old.at.number < length places.old.hebrew }
    requires room { 1 ≤ places.old.room }
    ensures number { track.new.at.number ≡ length places.old.english }
    ensures gets { GetsOne places.old track.old reach places.new track.new }
{
    track.at = get(places, track.at);
    track.reach = reach;
}

/// A task goes on after a sync, on a strand with this table. `last` is the last strand of its block's first child.
pub fn sync_one(
    alloc: Global,
    places: &mut Places,
    track: &mut Track,
    reach: Reach,
    last: Option<Strand>,
)
    requires english { track.old.at.number < length places.old.english }
    requires hebrew { track.old.at.number < length places.old.hebrew }
    requires last_in { IfSome last (λ last. IsIn last.number places.old.english places.old.hebrew) }
    requires room { 1 ≤ places.old.room }
    ensures number { track.new.at.number ≡ length places.old.english }
    ensures syncs { SyncsOne places.old track.old reach last places.new track.new }
{
    track.at = sync(places, track.at, last);
    track.reach = reach;
    track.block = Listing::make(alloc);
}
