//! Spawns and creates.
ghost use Rattle.std.specs.Prelude.{◌≡◌, ℕ, ◌<◌, ◌≤◌, length, IfOk, OnErr};
ghost use Rattle.strand_tree.specs.Placing.{AreNext};
ghost use Rattle.race_finder.specs.Acting.{SpawnsOne, CreatesOne, ForksOne, IsSameTrack};

use crate::places::Places;
use crate::track::Track;
use fut_base::list::{Listing, NoMemory};
use std::alloc::Global;
use strand_tree::{create, spawn};

/// How a task makes another one.
#[derive(Clone, Copy, Debug, PartialEq, Eq)]
pub enum Fork {
    /// It spawns a child.
    Spawn,
    /// It creates a future.
    Create,
}

/// A task makes another one, which is answered.
pub fn fork_one(
    alloc: Global,
    places: &mut Places,
    track: &mut Track,
    child: u32,
    fork: Fork,
) -> Result<Track, NoMemory>
    requires english { track.old.at.number < length places.old.english }
    requires hebrew { track.old.at.number < length places.old.hebrew }
    requires room { 2 ≤ places.old.room }
    ensures numbers { IfOk result (λ kid. AreNext (length places.old.english) kid.at.number track.new.at.number) }
    ensures forks { IfOk result (λ kid. ForksOne fork places.old track.old child places.new track.new kid) }
    ensures same { OnErr result (IsSameTrack track.old track.new) }
    ensures unchanged { OnErr result (places.new ≡ places.old) }
{
    match fork {
        Fork::Spawn => spawn_one(alloc, places, track, child),
        Fork::Create => create_one(alloc, places, track, child),
    }
}

// A task spawns a child, which is answered.
fn spawn_one(
    alloc: Global,
    places: &mut Places,
    track: &mut Track,
    child: u32,
) -> Result<Track, NoMemory>
    requires english { track.old.at.number < length places.old.english }
    requires hebrew { track.old.at.number < length places.old.hebrew }
    requires room { 2 ≤ places.old.room }
    ensures numbers { IfOk result (λ kid. AreNext (length places.old.english) kid.at.number track.new.at.number) }
    ensures spawns { IfOk result (λ kid. SpawnsOne places.old track.old child places.new track.new kid) }
    ensures same { OnErr result (IsSameTrack track.old track.new) }
    ensures unchanged { OnErr result (places.new ≡ places.old) }
{
    let reach = track.reach.share()?;
    track.block.reserve()?;
    let (kid, cont) = spawn(places, track.at);
    track.at = cont;
    track.block.push(child);
    Ok(Track {
        at: kid,
        reach,
        block: Listing::make(alloc),
        ended: false,
    })
}

// A task creates a future, whose task is answered.
fn create_one(
    alloc: Global,
    places: &mut Places,
    track: &mut Track,
    child: u32,
) -> Result<Track, NoMemory>
    requires english { track.old.at.number < length places.old.english }
    requires hebrew { track.old.at.number < length places.old.hebrew }
    requires room { 2 ≤ places.old.room }
    ensures numbers { IfOk result (λ kid. AreNext (length places.old.english) kid.at.number track.new.at.number) }
    ensures creates { IfOk result (λ kid. CreatesOne places.old track.old child places.new track.new kid) }
    ensures same { OnErr result (IsSameTrack track.old track.new) }
    ensures unchanged { OnErr result (places.new ≡ places.old) }
{
    let reach = track.reach.created(track.at)?;
    let (kid, cont) = create(places, track.at, child);
    track.at = cont;
    Ok(Track {
        at: kid,
        reach,
        block: Listing::make(alloc),
        ended: false,
    })
}
