//! The finder.
ghost use Rattle.std.specs.Prelude.{◌≡◌, ◌^◌, ◌<◌, ◌≤◌, [], ◌∷◌, ◌++◌, List, length, IfOk, OnOk, OnErr};
ghost use Rattle.fut_base.specs.declared.event.Event.{Event};
ghost use Rattle.fut_base.specs.Events.{event_of};
ghost use Rattle.fut_base.specs.Racing.{IsReport};
ghost use Rattle.access_shards.specs.Histories.{IsInStep};
ghost use Rattle.access_shards.specs.Kept.{IsKept};
ghost use Rattle.race_finder.specs.Finding.{IsFinderOf, MayTake, Takes, Stays, IsAccessBy, IsForkBy, IsSyncBy, IsGetBy, IsEndBy};

use crate::cells::{grow, keep, report};
use crate::forks::{Fork, fork_one};
use crate::joins::{first_last, get_one, sync_one, table_after_get, table_of_block};
use crate::places::Places;
use crate::track::Track;
use access_shards::CellLog;
use fut_base::list::{Listing, NoMemory};
use fut_base::record::{Act, Entry, Races};
use reach_table::Reach;
use std::alloc::Global;
use strand_tree::root;

/// Finds the races of a history whose entries come one after another.
#[derive(Drop)]
pub struct Finder {
    alloc: Global,
    places: Places,
    tracks: Vec<Track>,
    logs: Vec<CellLog>,
    count: u32,
}

impl Finder {
    /// A finder of the empty history.
    pub fn start(alloc: Global) -> Result<Finder, NoMemory>
        ensures { IfOk result (λ f. IsFinderOf [] f) }
    {
        let places = Places::make(alloc)?;
        let mut tracks = Vec::new(alloc);
        tracks.push(Track {
            at: root(),
            reach: Reach::empty(alloc),
            block: Listing::make(alloc),
            ended: false,
        })?;
        Ok(Finder {
            alloc,
            places,
            tracks,
            logs: Vec::new(alloc),
            count: 0,
        })
    }

    /// Takes one more entry, after fewer than 2^29. After `NoMemory` it still knows what it knew.
    pub fn take(&mut self, entry: &Entry) -> Result<(), NoMemory>
        requires { (h : List Event) × IsFinderOf h self.old × IsInStep (h ++ event_of entry.now ∷ []) × (length h < 2 ^ 29) }
        ensures takes { OnOk result ((h : List Event) → IsFinderOf h self.old → IsInStep (h ++ event_of entry.now ∷ [])
            → IsFinderOf (h ++ event_of entry.now ∷ []) self.new) }
        ensures stays { OnErr result ((h : List Event) → IsFinderOf h self.old → IsFinderOf h self.new) }
    {
        match &entry.act {
            Act::Read { cell, .. } => self.access(entry.task, *cell, false),
            Act::Write { cell, .. } => self.access(entry.task, *cell, true),
            Act::Spawn { child, .. } => self.fork(entry.task, *child, Fork::Spawn),
            Act::Create { child, .. } => self.fork(entry.task, *child, Fork::Create),
            Act::Sync { .. } => self.sync(entry.task),
            Act::Get { future, .. } => self.get(entry.task, *future),
            Act::End { .. } => {
                self.end(entry.task);
                Ok(())
            }
        }
    }

    /// The races of the entries so far: the racing cells in order, each with its first pair.
    pub fn races(&self, alloc: Global) -> Result<Races, NoMemory>
        requires { (h : List Event) × IsFinderOf h self.now }
        ensures { IfOk result (λ races. (h : List Event) → IsFinderOf h self.now → IsReport h races.items) }
    {
        report(alloc, self.logs.as_slice())
    }

    // A task reads or writes a cell.
    fn access(&mut self, task: u32, cell: u32, writes: bool) -> Result<(), NoMemory>
        requires { MayTake (IsAccessBy task cell writes) self.old }
        ensures takes { OnOk result (Takes (IsAccessBy task cell writes) self.old self.new) }
        ensures stays { OnErr result (Stays self.old self.new) }
    {
        grow(self.alloc, &mut self.logs, cell)?;
        self.logs[cell as usize].reserve()?;
        keep(
            &mut self.logs[cell as usize],
            &mut self.places,
            &self.tracks[task as usize],
            self.count,
            writes,
        );
        self.count += 1;
        Ok(())
    }

    // A task spawns this child, or creates this future.
    fn fork(&mut self, task: u32, child: u32, fork: Fork) -> Result<(), NoMemory>
        requires { MayTake (IsForkBy fork task child) self.old }
        ensures takes { OnOk result (Takes (IsForkBy fork task child) self.old self.new) }
        ensures stays { OnErr result (Stays self.old self.new) }
    {
        self.places.reserve(2)?;
        self.tracks.reserve(1)?;
        let kid = fork_one(
            self.alloc,
            &mut self.places,
            &mut self.tracks[task as usize],
            child,
            fork,
        )?;
        self.tracks.push_reserved(kid);
        self.count += 1;
        Ok(())
    }

    // A task goes on after it waited for a future.
    fn get(&mut self, task: u32, future: u32) -> Result<(), NoMemory>
        requires { MayTake (IsGetBy task future) self.old }
        ensures takes { OnOk result (Takes (IsGetBy task future) self.old self.new) }
        ensures stays { OnErr result (Stays self.old self.new) }
    {
        self.places.reserve(1)?;
        let reach = table_after_get(self.tracks.as_slice(), &self.places, task, future)?;
        get_one(&mut self.places, &mut self.tracks[task as usize], reach);
        self.count += 1;
        Ok(())
    }

    // A task goes on after it waited for the children of its block.
    fn sync(&mut self, task: u32) -> Result<(), NoMemory>
        requires { MayTake (IsSyncBy task) self.old }
        ensures takes { OnOk result (Takes (IsSyncBy task) self.old self.new) }
        ensures stays { OnErr result (Stays self.old self.new) }
    {
        self.places.reserve(1)?;
        let reach = table_of_block(self.tracks.as_slice(), &self.places, task)?;
        let last = first_last(self.tracks.as_slice(), &self.places, task);
        sync_one(
            self.alloc,
            &mut self.places,
            &mut self.tracks[task as usize],
            reach,
            last,
        );
        self.count += 1;
        Ok(())
    }

    // A task ends.
    fn end(&mut self, task: u32)
        requires { MayTake (IsEndBy task) self.old }
        ensures { Takes (IsEndBy task) self.old self.new }
    {
        self.tracks[task as usize].ended = true;
        self.count += 1;
    }
}
